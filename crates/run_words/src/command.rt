//! What a command line asks for that runs codes on engines of its own.

ghost use Rattle.std.specs.Prelude.{◌≡◌, ◌≤◌, ◌++◌, ◌∷◌, [], true, Some, None, Err, bytes_eq, IfOk, OnOk};
ghost use Rattle.std.specs.List.{list_all, cons_option, filter_map};
ghost use Rattle.run_words.specs.Reading.{is_plain, is_code, is_value, are_within, codes_in, values_in, value_from, run_behind, map_behind, job_behind, asked_by, run_reading, engines_of, IsInRange};

use crate::numbers::{engines_from, value_from};
use cluster_types::message::WordList;
use cluster_types::sequence::Sequence;
use cluster_types::text::Text;
use command_words::command::CommandError;
use std::alloc::Global;

/// The values that a body is given one after another.
pub type Values = Sequence<i64>;

/// What is to be run on so many engines, from 1 to 64.
#[derive(Debug, Drop)]
pub enum RunCommand {
    /// Codes, from 1 to 4,096 of them.
    Run {
        engines: u32,
        codes: WordList,
    },
    /// A body for each value of `x`, of which there are from 1 to 4,096.
    Map {
        engines: u32,
        body: Text,
        values: Values,
    },
    /// The tasks of a job, as its text says them.
    Job {
        engines: u32,
        text: Text,
    },
}

/// The most codes, and the most values.
const MOST: usize = 4_096;

/// The most octets of a code.
const LONGEST_CODE: usize = 65_536;

/// The most octets of a body.
const LONGEST_BODY: usize = 65_514;

/// Whether a word doesn't begin with a dash.
fn is_plain(word: &Text) -> bool
    ensures { result ≡ is_plain word.now }
{
    match word.as_slice() {
        [] => true,
        [first, ..] => *first != b'-',
    }
}

/// Whether no word begins with a dash.
fn are_plain(words: &[Text]) -> bool
    ensures { result ≡ list_all is_plain words.now }
{
    words.iter().all(|word| is_plain(word))
}

/// Whether there are from 1 to 4,096 words.
fn are_within(words: &[Text]) -> bool
    ensures { result ≡ are_within words.now }
{
    1 <= words.len() && words.len() <= MOST
}

/// Whether a word is no longer than a code may be.
fn is_code(word: &Text) -> bool
    ensures { result ≡ is_code word.now }
{
    word.len() <= LONGEST_CODE
}

/// Whether each word is no longer than a code may be.
fn are_codes(words: &[Text]) -> bool
    ensures { result ≡ list_all is_code words.now }
{
    words.iter().all(|word| is_code(word))
}

/// Whether a word is a value.
fn is_value(word: &Text) -> bool
    ensures { result ≡ is_value word.now }
{
    value_from(word.as_str()).is_some()
}

/// Whether each word is a value.
fn are_values(words: &[Text]) -> bool
    ensures { result ≡ list_all is_value words.now }
{
    words.iter().all(|word| is_value(word))
}

/// These words, copied.
fn copied(alloc: Global, words: &[Text]) -> Result<WordList, CommandError>
    ensures ok { IfOk result (λ list. list ≡ words.now) }
    ensures usage { result ≡ Err CommandError.Usage → ⊥ }
{
    let mut list = WordList::new(alloc);
    for word in words {
        list.push(word.clone()?)?;
    }
    Ok(list)
}

/// Puts a value at the end, where there is one.
fn push_some(values: &mut Values, value: Option<i64>) -> Result<(), CommandError>
    ensures ok { OnOk result (values.new ≡ values.old ++ cons_option value []) }
    ensures usage { result ≡ Err CommandError.Usage → ⊥ }
{
    if let Some(value) = value {
        values.push(value)?;
    }
    Ok(())
}

/// The values of these words that are some.
fn values_of(alloc: Global, words: &[Text]) -> Result<Values, CommandError>
    ensures ok { IfOk result (λ values. values ≡ filter_map value_from words.now) }
    ensures usage { result ≡ Err CommandError.Usage → ⊥ }
{
    let mut values = Values::new(alloc);
    for word in words {
        push_some(&mut values, value_from(word.as_str()))?;
    }
    Ok(values)
}

/// The codes that words are.
fn codes_in(alloc: Global, words: &[Text]) -> Result<WordList, CommandError>
    ensures ok { IfOk result (λ codes. codes_in words.now ≡ Some codes) }
    ensures usage { result ≡ Err CommandError.Usage → codes_in words.now ≡ None }
{
    if !are_within(words) || !are_codes(words) {
        return Err(CommandError::Usage);
    }
    let codes = copied(alloc, words)?;
    Ok(codes)
}

/// The values that words are.
fn values_in(alloc: Global, words: &[Text]) -> Result<Values, CommandError>
    ensures ok { IfOk result (λ values. values_in words.now ≡ Some values) }
    ensures usage { result ≡ Err CommandError.Usage → values_in words.now ≡ None }
{
    if !are_within(words) || !are_values(words) {
        return Err(CommandError::Usage);
    }
    let values = values_of(alloc, words)?;
    Ok(values)
}

/// `run` with what stands behind it.
fn run_behind(alloc: Global, behind: &[Text]) -> Result<RunCommand, CommandError>
    ensures ok { IfOk result (λ c. run_behind behind.now ≡ Some c) }
    ensures usage { result ≡ Err CommandError.Usage → run_behind behind.now ≡ None }
    ensures range { IfOk result IsInRange }
{
    let [engines, codes @ ..] = behind else {
        return Err(CommandError::Usage);
    };
    let Some(engines) = engines_from(engines.as_str()) else {
        return Err(CommandError::Usage);
    };
    let codes = codes_in(alloc, codes)?;
    Ok(RunCommand::Run { engines, codes })
}

/// `map` with what stands behind it.
fn map_behind(alloc: Global, behind: &[Text]) -> Result<RunCommand, CommandError>
    ensures ok { IfOk result (λ c. map_behind behind.now ≡ Some c) }
    ensures usage { result ≡ Err CommandError.Usage → map_behind behind.now ≡ None }
    ensures range { IfOk result IsInRange }
{
    let [engines, body, values @ ..] = behind else {
        return Err(CommandError::Usage);
    };
    let Some(engines) = engines_from(engines.as_str()) else {
        return Err(CommandError::Usage);
    };
    if body.len() > LONGEST_BODY {
        return Err(CommandError::Usage);
    }
    let values = values_in(alloc, values)?;
    let body = body.clone()?;
    Ok(RunCommand::Map {
        engines,
        body,
        values,
    })
}

/// `job` with what stands behind it.
fn job_behind(behind: &[Text]) -> Result<RunCommand, CommandError>
    ensures ok { IfOk result (λ c. job_behind behind.now ≡ Some c) }
    ensures usage { result ≡ Err CommandError.Usage → job_behind behind.now ≡ None }
    ensures range { IfOk result IsInRange }
{
    let [engines, text] = behind else {
        return Err(CommandError::Usage);
    };
    let Some(engines) = engines_from(engines.as_str()) else {
        return Err(CommandError::Usage);
    };
    let text = text.clone()?;
    Ok(RunCommand::Job { engines, text })
}

/// Whether a word is this command.
fn is_command(word: &Text, name: &[u8]) -> bool
    ensures { result ≡ bytes_eq word.now name.now }
{
    word.as_slice() == name
}

/// What a command asks for with the words behind it.
#[tactic(auto, unfolding(crate::specs::Reading::run_word, crate::specs::Reading::map_word, crate::specs::Reading::job_word))]
fn asked_by(alloc: Global, command: &Text, behind: &[Text]) -> Result<RunCommand, CommandError>
    ensures ok { IfOk result (λ c. asked_by command.now behind.now ≡ Some c) }
    ensures usage { result ≡ Err CommandError.Usage → asked_by command.now behind.now ≡ None }
    ensures range { IfOk result IsInRange }
{
    if is_command(command, b"run") {
        return run_behind(alloc, behind);
    }
    if is_command(command, b"map") {
        return map_behind(alloc, behind);
    }
    if is_command(command, b"job") {
        return job_behind(behind);
    }
    Err(CommandError::Usage)
}

/// What the words ask for, if it is to run codes on engines of its own. `Usage` where they have no such reading.
pub fn run_command_of(alloc: Global, words: &WordList) -> Result<RunCommand, CommandError>
    ensures ok { IfOk result (λ c. run_reading words.now ≡ Some c) }
    ensures usage { result ≡ Err CommandError.Usage → run_reading words.now ≡ None }
    ensures range { IfOk result IsInRange }
{
    let [command, behind @ ..] = words.as_slice() else {
        return Err(CommandError::Usage);
    };
    if !are_plain(behind) {
        return Err(CommandError::Usage);
    }
    asked_by(alloc, command, behind)
}

impl RunCommand {
    /// How many engines are asked for.
    pub fn engines(&self) -> u32
        ensures { result ≡ engines_of self.now }
    {
        match self {
            RunCommand::Run { engines, .. }
            | RunCommand::Map { engines, .. }
            | RunCommand::Job { engines, .. } => *engines,
        }
    }
}
