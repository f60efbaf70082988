//! Timeouts that are written with a fraction of 0.

ghost use Rattle.std.specs.Prelude.{◌≡◌, ◌<◌, ◌≤◌, ◌&&◌, length, take, drop, IfOk, codes};
ghost use Rattle.std.specs.Char.{is_ascii_digit};
ghost use Rattle.std.specs.List.{suffix_len};
ghost use Rattle.cluster_defs.specs.Points.{ends_in_name, ends_in_timeout, begins_with_fraction, whole_timeouts};

use std::alloc::{AllocError, Global};

/// How many decimal digits a text ends in.
fn digits_at_end(text: &[u8]) -> usize
    ensures count { result ≡ suffix_len is_ascii_digit text.now }
    ensures within { result ≤ length text.now }
{
    let mut rest = text.len();
    while 0 < rest && text[rest - 1].is_ascii_digit() {
        rest -= 1;
    }
    text.len() - rest
}

/// Whether a text ends in `"timeout":` and at most one space.
#[tactic(auto, unfolding(cluster_defs::specs::Points::ends_in_name))]
fn ends_in_name(text: &[u8]) -> bool
    ensures { result ≡ ends_in_name text.now }
{
    text.ends_with(b"\"timeout\":") || text.ends_with(b"\"timeout\": ")
}

/// Whether a text ends in `"timeout":`, at most one space and 1 to 10 decimal digits.
fn ends_in_timeout(text: &[u8]) -> bool
    ensures { result ≡ ends_in_timeout text.now }
{
    let digits = digits_at_end(text);
    1 <= digits && digits <= 10 && ends_in_name(&text[..text.len() - digits])
}

/// Whether a text begins with `.0` before `,` or `}`.
fn begins_with_fraction(text: &[u8]) -> bool
    ensures { result ≡ begins_with_fraction text.now }
{
    match text {
        [b'.', b'0', next, ..] => *next == b',' || *next == b'}',
        _ => false,
    }
}

/// Whether a fraction of a timeout stands at a place.
fn is_fraction(octets: &[u8], at: usize) -> bool
    requires { at ≤ length octets.now }
    ensures { result ≡ (begins_with_fraction (drop at octets.now) && ends_in_timeout (take at octets.now)) }
{
    begins_with_fraction(&octets[at..]) && ends_in_timeout(&octets[..at])
}

/// The octets without each `.0` that stands behind `"timeout":`, at most one space and 1 to 10 decimal digits, and
/// before `,` or `}`.
pub fn whole_timeouts(alloc: Global, octets: &[u8]) -> Result<Vec<u8>, AllocError>
    ensures { IfOk result (λ v. v.items ≡ whole_timeouts octets.now) }
{
    let mut whole = Vec::with_capacity(alloc, octets.len())?;
    let mut at = 0;
    while at < octets.len() {
        if is_fraction(octets, at) {
            at += 2;
        } else {
            whole.push(octets[at])?;
            at += 1;
        }
    }
    Ok(whole)
}
