//! A list of marks, one for each number up to the greatest that was set.

ghost use Rattle.std.specs.Prelude.{◌≡◌, ◌<◌, ◌==◌, ◌||◌, ℕ, length, OnOk};
ghost use Rattle.place_sets.specs.Flags.{is_set};

use std::alloc::AllocError;

/// Whether a number is set.
pub fn has(flags: &[bool], number: u32) -> bool
    ensures { result ≡ is_set flags.now number }
{
    match flags.get(number as usize) {
        Some(flag) => *flag,
        None => false,
    }
}

/// Room for the mark of a number.
fn widen(flags: &mut Vec<bool>, number: u32) -> Result<(), AllocError>
    ensures same { (n : ℕ) → is_set flags.new.items n ≡ is_set flags.old.items n }
    ensures room { OnOk result (number < length flags.new.items) }
{
    for _ in flags.len()..number as usize + 1 {
        flags.push(false)?;
    }
    Ok(())
}

/// Sets a number.
pub fn set(flags: &mut Vec<bool>, number: u32) -> Result<(), AllocError>
    ensures { OnOk result ((n : ℕ) → is_set flags.new.items n ≡ (number == n || is_set flags.old.items n)) }
{
    widen(flags, number)?;
    flags[number as usize] = true;
    Ok(())
}
