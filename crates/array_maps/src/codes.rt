//! Codes that map, scatter and gather.

ghost use Rattle.std.specs.Prelude.{◌≡◌, ◌⊎◌, ◌<◌, ◌++◌, ◌∷◌, [], true, false, Ok, Err, length, IfOk, IfErr, OnOk, string_bytes};
ghost use Rattle.array_maps.specs.Codes.{map_codes, scatter_code, scatter_codes, gather_codes};
ghost use Rattle.array_maps.specs.Making.{is_long, made};
ghost use Rattle.array_maps.specs.Names.{is_array_name};

use crate::blocks::block;
use crate::error::MapError;
use crate::names::{element, is_array_name};
use crate::texts::{settings, value_code};
use cluster_types::sequence::Sequence;
use cluster_types::text::Text;
use std::alloc::{AllocError, Global};

/// A list of codes.
pub type Codes = Sequence<Text>;

/// The greatest number of octets of a code.
const MOST_OCTETS: usize = 65_536;

/// Puts a code at the end, unless it is too long.
fn push_code(codes: &mut Codes, code: String) -> Result<(), MapError>
    ensures pushed { OnOk result (codes.new ≡ codes.old ++ string_bytes code ∷ []) }
    ensures short { OnOk result (is_long (string_bytes code) ≡ false) }
    ensures err { IfErr result (λ e. (e ≡ MapError.OutOfMemory) ⊎ ((e ≡ MapError.TooLong (length codes.old)) × (is_long (string_bytes code) ≡ true))) }
{
    if code.len() > MOST_OCTETS {
        return Err(MapError::TooLong(codes.len()));
    }
    codes.push(Text::from_string(code)?)?;
    Ok(())
}

/// A code for each value, which gives it to `x` and goes on with the body.
pub fn map_codes(alloc: Global, body: &str, values: &[i64]) -> Result<Codes, MapError>
    ensures ok { IfOk result (λ c. made true (map_codes body.now values.now) ≡ Ok c) }
    ensures err { IfErr result (λ e. (e ≡ MapError.OutOfMemory) ⊎ (made true (map_codes body.now values.now) ≡ Err e)) }
{
    let mut codes = Codes::new(alloc);
    for place in 0..values.len() {
        push_code(&mut codes, value_code(alloc, body, values, place)?)?;
    }
    Ok(codes)
}

/// A code that gives the elements of a part's block their values.
fn scatter_code(
    alloc: Global,
    name: &str,
    values: &[i64],
    parts: u64,
    part: u64,
) -> Result<String, AllocError>
    requires { part < parts }
    ensures { IfOk result (λ t. string_bytes t ≡ scatter_code name.now values.now parts part) }
{
    let (start, count) = block(values.len() as u64, parts, part);
    settings(alloc, name, values, start as usize, count as usize)
}

/// The codes of `scatter_codes`, whatever the name.
fn scattered(alloc: Global, name: &str, values: &[i64], parts: u64) -> Result<Codes, MapError>
    ensures ok { IfOk result (λ c. made true (scatter_codes name.now values.now parts) ≡ Ok c) }
    ensures err { IfErr result (λ e. (e ≡ MapError.OutOfMemory) ⊎ (made true (scatter_codes name.now values.now parts) ≡ Err e)) }
{
    let mut codes = Codes::new(alloc);
    for part in 0..parts {
        push_code(&mut codes, scatter_code(alloc, name, values, parts, part)?)?;
    }
    Ok(codes)
}

/// A code for each part, which gives the elements of its block their values: element `k` of the array is the name
/// `NAME_k`.
pub fn scatter_codes(
    alloc: Global,
    name: &str,
    values: &[i64],
    parts: u64,
) -> Result<Codes, MapError>
    requires { 0 < parts }
    ensures ok { IfOk result (λ c. made (is_array_name name.now (length values.now)) (scatter_codes name.now values.now parts) ≡ Ok c) }
    ensures err { IfErr result (λ e. (e ≡ MapError.OutOfMemory) ⊎ (made (is_array_name name.now (length values.now)) (scatter_codes name.now values.now parts) ≡ Err e)) }
{
    if !is_array_name(alloc, name, values.len() as u64)? {
        return Err(MapError::BadName);
    }
    scattered(alloc, name, values, parts)
}

/// The codes of `gather_codes`, whatever the name.
fn gathered(alloc: Global, name: &str, n: u64) -> Result<Codes, MapError>
    ensures ok { IfOk result (λ c. made true (gather_codes name.now n) ≡ Ok c) }
    ensures err { IfErr result (λ e. (e ≡ MapError.OutOfMemory) ⊎ (made true (gather_codes name.now n) ≡ Err e)) }
{
    let mut codes = Codes::new(alloc);
    for place in 0..n {
        push_code(&mut codes, element(alloc, name, place)?)?;
    }
    Ok(codes)
}

/// A code for each of `n` elements, which reads it.
pub fn gather_codes(alloc: Global, name: &str, n: u64) -> Result<Codes, MapError>
    ensures ok { IfOk result (λ c. made (is_array_name name.now n) (gather_codes name.now n) ≡ Ok c) }
    ensures err { IfErr result (λ e. (e ≡ MapError.OutOfMemory) ⊎ (made (is_array_name name.now n) (gather_codes name.now n) ≡ Err e)) }
{
    if !is_array_name(alloc, name, n)? {
        return Err(MapError::BadName);
    }
    gathered(alloc, name, n)
}
