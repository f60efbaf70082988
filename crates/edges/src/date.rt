//! Moments, and their text.

ghost use Rattle.std.specs.Prelude.{◌≡◌, ◌≤◌, ◌<◌, ◌++◌, List, ℕ, IfOk, OnOk, string_bytes};
ghost use Rattle.cluster_types.specs.Limits.{last_moment};
ghost use Rattle.edges.specs.Date.{civil_date, date_of, day_text, digits, time_text};
ghost use Rattle.edges.specs.CalendarDate.{IsDateOf};

use jiff_core::civil::Date;
use std::alloc::{AllocError, Global};

/// A moment in milliseconds since the first moment of 1970, in coordinated universal time without
/// leap seconds.
#[derive(Clone, Copy, Debug, PartialEq, Eq)]
pub struct Moment {
    pub millis: u64,
}

const MILLIS_OF_DAY: u64 = 86_400_000;

/// The text of a moment, as `2023-11-14T22:13:20.000Z`, for a moment before the year 10000.
pub fn date_text(alloc: Global, moment: Moment) -> Result<String, AllocError>
    requires { moment.millis ≤ last_moment }
    ensures { IfOk result (λ text. string_bytes text ≡ date_of moment.millis) }
{
    let mut text = String::new(alloc);
    push_day(&mut text, (moment.millis / MILLIS_OF_DAY) as u32)?;
    text.push_str("T")?;
    push_time(&mut text, (moment.millis % MILLIS_OF_DAY) as u32)?;
    text.push_str("Z")?;
    Ok(text)
}

/// Appends the date so many days after 1 January 1970.
fn push_day(text: &mut String, days: u32) -> Result<(), AllocError>
    requires { days ≤ 2_932_896 }
    ensures { OnOk result (string_bytes text.new ≡ string_bytes text.old ++ day_text (civil_date days)) }
{
    let date = date_after(days);
    push_number(text, 4, u32::from(date.year.unsigned_abs()))?;
    text.push_str("-")?;
    push_number(text, 2, u32::from(date.month))?;
    text.push_str("-")?;
    push_number(text, 2, u32::from(date.day))?;
    Ok(())
}

/// Appends the time so many milliseconds after midnight.
fn push_time(text: &mut String, millis: u32) -> Result<(), AllocError>
    ensures { OnOk result (string_bytes text.new ≡ string_bytes text.old ++ time_text millis) }
{
    push_number(text, 2, millis / 3_600_000)?;
    text.push_str(":")?;
    push_number(text, 2, millis / 60_000 % 60)?;
    text.push_str(":")?;
    push_number(text, 2, millis / 1_000 % 60)?;
    text.push_str(".")?;
    push_number(text, 3, millis % 1_000)?;
    Ok(())
}

/// Appends a number in so many decimal digits.
fn push_number(text: &mut String, width: u8, n: u32) -> Result<(), AllocError>
    ensures { OnOk result (string_bytes text.new ≡ string_bytes text.old ++ digits width n) }
{
    if width == 0 {
        return Ok(());
    }
    push_number(text, width - 1, n / 10)?;
    text.push(char::from(b'0' + (n % 10) as u8))?;
    Ok(())
}

/// The date so many days after 1 January 1970.
fn date_after(days: u32) -> Date
    requires { days ≤ 2_932_896 }
    ensures { IsDateOf (civil_date days) result }
{
    match Date::from_unix_epoch_day(i64::from(days)) {
        Ok(date) => date,
        Err(_) => unreachable!(),
    }
}
