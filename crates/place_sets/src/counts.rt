//! A list of counts, one for each number up to the greatest that was counted.

ghost use Rattle.std.specs.Prelude.{◌≡◌, ◌<◌, ◌==◌, ℕ, length, IfOk, OnOk, if◌then◌else◌, Some, None};
ghost use Rattle.place_sets.specs.Counts.{count_of, Lowered, Raised, Moved};

use std::alloc::AllocError;

/// How many there are of a number.
pub fn count(counts: &[u32], number: u32) -> u32
    ensures { result ≡ count_of counts.now number }
{
    match counts.get(number as usize) {
        Some(count) => *count,
        None => 0,
    }
}

/// Room for the count of a number.
fn widen(counts: &mut Vec<u32>, number: u32) -> Result<(), AllocError>
    ensures same { (n : ℕ) → count_of counts.new.items n ≡ count_of counts.old.items n }
    ensures room { OnOk result (number < length counts.new.items) }
{
    for _ in counts.len()..number as usize + 1 {
        counts.push(0)?;
    }
    Ok(())
}

/// One more of a number. There is no answer where its count is the last of 32 bits.
fn raise(mut counts: Vec<u32>, number: u32) -> Result<Option<Vec<u32>>, AllocError>
    ensures { IfOk result (λ o. Raised counts.items number o) }
{
    widen(&mut counts, number)?;
    let place = number as usize;
    match counts[place].checked_add(1) {
        Some(more) => {
            counts[place] = more;
            Ok(Some(counts))
        }
        None => Ok(None),
    }
}

/// One fewer of a number. There is no answer where there is none.
fn lower(mut counts: Vec<u32>, number: u32) -> Option<Vec<u32>>
    ensures { Lowered counts.items number result }
{
    let place = number as usize;
    if place >= counts.len() {
        return None;
    }
    match counts[place].checked_sub(1) {
        Some(less) => {
            counts[place] = less;
            Some(counts)
        }
        None => None,
    }
}

fn lower_where(counts: Vec<u32>, number: Option<u32>) -> Option<Vec<u32>>
    ensures { Moved (Some counts) number None result }
{
    match number {
        Some(number) => lower(counts, number),
        None => Some(counts),
    }
}

fn raise_where(counts: Vec<u32>, number: Option<u32>) -> Result<Option<Vec<u32>>, AllocError>
    ensures { IfOk result (λ o. Moved (Some counts) None number o) }
{
    match number {
        Some(number) => raise(counts, number),
        None => Ok(Some(counts)),
    }
}

/// One fewer of a number and one more of another. There is no answer where there was none, and where a count would pass an
/// end of its 32 bits.
pub fn moved(
    counts: Option<Vec<u32>>,
    before: Option<u32>,
    after: Option<u32>,
) -> Result<Option<Vec<u32>>, AllocError>
    ensures { IfOk result (λ o. Moved counts before after o) }
{
    let Some(counts) = counts else {
        return Ok(None);
    };
    if before == after {
        return Ok(Some(counts));
    }
    match lower_where(counts, before) {
        Some(counts) => raise_where(counts, after),
        None => Ok(None),
    }
}
