//! The texts of single codes.

ghost use Rattle.std.specs.Prelude.{◌≡◌, ◌+◌, ◌≤◌, ◌++◌, length, pos, get_or, codes, if◌then◌else◌, IfOk, OnOk, string_bytes};
ghost use Rattle.array_maps.specs.Codes.{number_text, setting, map_code, element_setting, settings};

use crate::names::element;
use std::alloc::{AllocError, Global};

/// -2^63, whose digits are no constant, as a difference.
const LEAST: &str = "-9223372036854775807-1";

/// A number as an expression.
fn number_text(alloc: Global, value: i64) -> Result<String, AllocError>
    ensures { IfOk result (λ t. string_bytes t ≡ number_text value) }
{
    if value == i64::MIN {
        return String::from_str(alloc, LEAST);
    }
    value.to_string(alloc)
}

/// A code that gives a name a number.
fn setting(alloc: Global, name: &str, value: i64) -> Result<String, AllocError>
    ensures { IfOk result (λ t. string_bytes t ≡ setting name.now value) }
{
    let number = number_text(alloc, value)?;
    let mut text = String::from_str(alloc, name)?;
    text.push_str("=")?;
    text.push_str(number.as_str())?;
    Ok(text)
}

/// A code that gives `x` a value, and goes on with a body.
fn map_code(alloc: Global, body: &str, value: i64) -> Result<String, AllocError>
    ensures { IfOk result (λ t. string_bytes t ≡ map_code body.now value) }
{
    let mut text = setting(alloc, "x", value)?;
    text.push_str(";")?;
    text.push_str(body)?;
    Ok(text)
}

/// A code that gives `x` the value at a place, and goes on with a body.
pub fn value_code(
    alloc: Global,
    body: &str,
    values: &[i64],
    place: usize,
) -> Result<String, AllocError>
    requires { place + 1 ≤ length values.now }
    ensures { IfOk result (λ t. string_bytes t ≡ map_code body.now (get_or values.now place (pos 0))) }
{
    map_code(alloc, body, values[place])
}

/// A code that gives an element its value.
fn element_setting(
    alloc: Global,
    name: &str,
    values: &[i64],
    place: usize,
) -> Result<String, AllocError>
    requires { place + 1 ≤ length values.now }
    ensures { IfOk result (λ t. string_bytes t ≡ element_setting name.now values.now place) }
{
    let element = element(alloc, name, place as u64)?;
    setting(alloc, element.as_str(), values[place])
}

/// Puts a setting behind those before it.
fn push_setting(text: &mut String, setting: &str, is_first: bool) -> Result<(), AllocError>
    ensures { OnOk result (string_bytes text.new ≡ string_bytes text.old ++ (if is_first then setting.now else codes ";" ++ setting.now)) }
{
    if !is_first {
        text.push_str(";")?;
    }
    text.push_str(setting)?;
    Ok(())
}

/// A code that gives `count` elements from one on their values.
pub fn settings(
    alloc: Global,
    name: &str,
    values: &[i64],
    start: usize,
    count: usize,
) -> Result<String, AllocError>
    requires { start + count ≤ length values.now }
    ensures { IfOk result (λ t. string_bytes t ≡ settings name.now values.now start count) }
{
    let mut text = String::new(alloc);
    for i in 0..count {
        let setting = element_setting(alloc, name, values, start + i)?;
        push_setting(&mut text, setting.as_str(), i == 0)?;
    }
    Ok(text)
}
