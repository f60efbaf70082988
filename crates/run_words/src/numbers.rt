//! Numbers that are written in words.

ghost use Rattle.std.specs.Prelude.{◌≡◌, ◌≤◌, ◌^◌, true, IfSome, MatchOption, pos, option_map};
ghost use Rattle.std.specs.List.{list_all};
ghost use Rattle.std.specs.Char.{is_ascii_digit};
ghost use Rattle.std.specs.Str.Parse.{digits_value};
ghost use Rattle.command_words.specs.Values.{is_number, number_from};
ghost use Rattle.run_words.specs.Reading.{engines_from, value_from};

/// The most engines of a command.
pub const MOST_ENGINES: u64 = 64;

/// The greatest value that a body is given.
const GREATEST_VALUE: u64 = 9_223_372_036_854_775_807;

/// Whether each octet is a decimal digit.
fn are_digits(text: &[u8]) -> bool
    ensures { result ≡ list_all is_ascii_digit text.now }
{
    text.iter().all(|octet| octet.is_ascii_digit())
}

/// Whether a text is a number in decimal digits, with no 0 ahead of others.
fn is_number(text: &[u8]) -> bool
    ensures { result ≡ is_number text.now }
{
    match text {
        [] => false,
        [digit, digits @ ..] => are_digits(text) && (*digit != b'0' || digits.len() == 0),
    }
}

/// The number that digits write, or none where it is above the greatest of its type.
fn parsed(text: &str) -> Option<u64>
    requires { is_number text.now ≡ true }
    ensures { MatchOption result (2 ^ 64 ≤ digits_value 10 text.now) (λ n. n ≡ digits_value 10 text.now) }
{
    match text.parse::<u64>() {
        Ok(number) => Some(number),
        Err(_) => None,
    }
}

/// The number from low to high that a word is.
fn number_from(low: u64, high: u64, word: &str) -> Option<u64>
    ensures value { result ≡ number_from low high word.now }
    ensures within { IfSome result (λ n. (low ≤ n) × (n ≤ high)) }
{
    if !is_number(word.as_bytes()) {
        return None;
    }
    match parsed(word) {
        Some(number) if low <= number && number <= high => Some(number),
        _ => None,
    }
}

/// How many engines a word asks for.
pub fn engines_from(word: &str) -> Option<u32>
    ensures value { result ≡ engines_from word.now }
    ensures within { IfSome result (λ n. (1 ≤ n) × (n ≤ 64)) }
{
    match number_from(1, MOST_ENGINES, word) {
        Some(engines) => Some(engines as u32),
        None => None,
    }
}

/// The value that a word gives a body.
pub fn value_from(word: &str) -> Option<i64>
    ensures { result ≡ value_from word.now }
{
    match number_from(0, GREATEST_VALUE, word) {
        Some(value) => Some(value as i64),
        None => None,
    }
}
