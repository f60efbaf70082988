//! Comparing a text with the entries of a disk.

ghost use Rattle.std.specs.Prelude.{◌≡◌, ◌<◌, ◌+◌, ◌⊎◌, ◌++◌, ◌^◌, ℕ, List, Ok, Some, None, true, false, length, IfOk, IfErr, OnOk, IsErrOf};
ghost use Rattle.cluster_types.specs.Causes.{Rose};
ghost use Rattle.cluster_types.specs.declared.entry.Entry.{Entry as EntryType};
ghost use Rattle.edges.specs.Streams.{IsAtEnd};
ghost use Rattle.database_text.specs.Lines.{line, text};
ghost use Rattle.task_journal.specs.Cursor.{IsOn, bound, to_come};
ghost use Rattle.task_journal.specs.Journal.{StandsFor, Fails, journal};
ghost use Rattle.task_journal.specs.Reads.{OnlyReads};
ghost use Rattle.database_text.specs.Texts.{IsDamaged, IsRefusal, Told, DiffersAt, DiffersFrom};
ghost use Rattle.database_text.specs.Given.{Gave, HasEnded, OfText};
ghost use Rattle.database_text.specs.Compared.{HasPrinted, IsAhead, turns};

use crate::comparison::Comparison;
use crate::database::{add_line, ending_at, whole_on};
use command_words::ending::Ending;
use disk_model::disk::Disk;
use edges::source::{Got, Source};
use std::alloc::{AllocError, Global};
use task_journal::cursor::{Cursor, Placed};
use task_journal::fault::OpenFault;

/// The most octets that are read at once.
const PIECE: usize = 65_536;

/// The entries that are still to be printed, and the number of octets that the lines so far are ahead of the input.
#[derive(Drop)]
struct Reached {
    cursor: Cursor,
    ahead: usize,
}

/// How many octets are missing of those that were wanted, or are too many.
#[derive(Drop)]
struct Printed {
    missing: usize,
    ahead: usize,
}

/// Prints the line of an entry, which stands in `octets` then, and says how many these are.
fn print_line(
    comparison: &mut Comparison,
    octets: &mut Vec<u8>,
    placed: Placed,
) -> Result<usize, AllocError>
    ensures count { IfOk result (λ n. n ≡ length (line placed.entry)) }
    ensures printed { OnOk result (comparison.new ≡ record comparison.old { printed = comparison.old.printed ++ line placed.entry }) }
{
    octets.clear();
    add_line(octets, placed)?;
    comparison.feed_printed(octets.as_slice())?;
    Ok(octets.len())
}

/// Prints lines of entries until these have so many octets, or no entries are left.
fn print<D: Disk>(
    alloc: Global,
    disk: &mut D,
    comparison: &mut Comparison,
    cursor: &mut Cursor,
    wanted: usize,
) -> Result<Printed, OpenFault>
    requires on { D.tells → IsOn cursor.old (D.content disk.old) }
    requires some { 0 < wanted }
    ensures printed { IfOk result (λ p. (list : List EntryType) × Gave D.tells (D.content disk.old) (to_come cursor.old (D.content disk.old)) cursor.new list × HasPrinted comparison.old comparison.new list × (length (text list) + p.missing ≡ wanted + p.ahead)) }
    ensures all { IfOk result (λ p. (p.missing ≡ 0) ⊎ ((p.ahead ≡ 0) × (D.tells → HasEnded (D.content disk.old) cursor.new))) }
    ensures falls { IfOk result (λ p. p.missing ≡ 0 → bound cursor.new < bound cursor.old) }
    ensures small { IfOk result (λ p. p.ahead < 2 ^ 64) }
    ensures fault { D.tells → IfErr result (λ fault. Fails fault (to_come cursor.old (D.content disk.old))) }
    ensures reads { OnlyReads D.content D.image D.moment D.image_since D.faults disk.old disk.new }
    ensures cause { IsErrOf result OpenFault.DiskFault → Rose (D.faults disk.old) (D.faults disk.new) }
{
    let mut octets = Vec::new(alloc);
    let mut missing = wanted;
    while let Some(placed) = cursor.next(alloc, disk)? {
        let count = print_line(comparison, &mut octets, placed)?;
        if missing <= count {
            return Ok(Printed {
                missing: 0,
                ahead: count - missing,
            });
        }
        missing -= count;
    }
    Ok(Printed { missing, ahead: 0 })
}

/// Prints the lines that are missing where the input is so many octets longer, and says whether there are enough.
fn keep_up<D: Disk>(
    alloc: Global,
    disk: &mut D,
    comparison: &mut Comparison,
    reached: &mut Reached,
    octets: usize,
) -> Result<bool, OpenFault>
    requires on { D.tells → IsOn reached.old.cursor (D.content disk.old) }
    requires some { 0 < octets }
    ensures input { OnOk result (comparison.new.input ≡ comparison.old.input) }
    ensures printed { OnOk result ((list : List EntryType) × Gave D.tells (D.content disk.old) (to_come reached.old.cursor (D.content disk.old)) reached.new.cursor list × (comparison.new.printed ≡ comparison.old.printed ++ text list)) }
    ensures enough { result ≡ Ok true → length comparison.new.printed + reached.old.ahead ≡ length comparison.old.printed + octets + reached.new.ahead }
    ensures all { result ≡ Ok false → D.tells → HasEnded (D.content disk.old) reached.new.cursor }
    ensures short { result ≡ Ok false → length comparison.new.printed + reached.old.ahead < length comparison.old.printed + octets }
    ensures falls { result ≡ Ok true → turns reached.new.cursor reached.new.ahead < turns reached.old.cursor reached.old.ahead }
    ensures fault { D.tells → IfErr result (λ fault. Fails fault (to_come reached.old.cursor (D.content disk.old))) }
    ensures reads { OnlyReads D.content D.image D.moment D.image_since D.faults disk.old disk.new }
    ensures cause { IsErrOf result OpenFault.DiskFault → Rose (D.faults disk.old) (D.faults disk.new) }
{
    if octets <= reached.ahead {
        reached.ahead -= octets;
        return Ok(true);
    }
    let wanted = octets - reached.ahead;
    let printed = print(alloc, disk, comparison, &mut reached.cursor, wanted)?;
    reached.ahead = printed.ahead;
    Ok(printed.missing == 0)
}

/// Takes a piece of the input, and gives the place where the texts differ, if that is certain by now.
fn take_piece<D: Disk>(
    alloc: Global,
    disk: &mut D,
    comparison: &mut Comparison,
    reached: &mut Reached,
    piece: &[u8],
) -> Result<Option<u64>, OpenFault>
    requires ahead { IsAhead D.tells (D.content disk.old) comparison.old reached.old.cursor reached.old.ahead }
    requires some { 0 < length piece.now }
    ensures input { OnOk result (comparison.new.input ≡ comparison.old.input ++ piece.now) }
    ensures ahead { result ≡ Ok None → IsAhead D.tells (D.content disk.old) comparison.new reached.new.cursor reached.new.ahead }
    ensures falls { result ≡ Ok None → turns reached.new.cursor reached.new.ahead < turns reached.old.cursor reached.old.ahead }
    ensures differs { (place : ℕ) → result ≡ Ok (Some place) → OfText D.tells (D.content disk.old) (λ lines. (more : List ℕ) → DiffersAt (comparison.new.input ++ more) lines place) }
    ensures fault { D.tells → IfErr result (λ fault. Fails fault (journal (D.content disk.old))) }
    ensures reads { OnlyReads D.content D.image D.moment D.image_since D.faults disk.old disk.new }
    ensures cause { IsErrOf result OpenFault.DiskFault → Rose (D.faults disk.old) (D.faults disk.new) }
{
    comparison.feed_input(piece)?;
    if keep_up(alloc, disk, comparison, reached, piece.len())? {
        return Ok(comparison.difference());
    }
    Ok(comparison.end())
}

/// The place where an input that has ended differs from the text of the entries.
fn place_at_end<D: Disk>(
    alloc: Global,
    disk: &mut D,
    comparison: &mut Comparison,
    reached: &mut Reached,
) -> Result<Option<u64>, OpenFault>
    requires { IsAhead D.tells (D.content disk.old) comparison.old reached.old.cursor reached.old.ahead }
    ensures equal { result ≡ Ok None → (list : List EntryType) × (D.tells → StandsFor (D.content disk.old) list) × (comparison.old.input ≡ text list) }
    ensures differs { (place : ℕ) → result ≡ Ok (Some place) → OfText D.tells (D.content disk.old) (λ lines. DiffersAt comparison.old.input lines place) }
    ensures fault { D.tells → IfErr result (λ fault. Fails fault (journal (D.content disk.old))) }
    ensures reads { OnlyReads D.content D.image D.moment D.image_since D.faults disk.old disk.new }
    ensures cause { IsErrOf result OpenFault.DiskFault → Rose (D.faults disk.old) (D.faults disk.new) }
{
    // One line more shows that the text goes on.
    let _ = keep_up(alloc, disk, comparison, reached, 1)?;
    Ok(comparison.end())
}

/// How a check ends whose texts differ at a place, or don't.
fn ending_of(place: Option<u64>) -> Ending
    ensures done { result ≡ Ending.Done → place ≡ None }
    ensures different { (at : ℕ) → result ≡ Ending.Different at → place ≡ Some at }
    ensures endings { (result ≡ Ending.Done) ⊎ ((at : ℕ) × (result ≡ Ending.Different at)) }
{
    match place {
        Some(place) => Ending::Different(place),
        None => Ending::Done,
    }
}

/// Reads the input, and compares it with the text of the entries of a disk, as far as it must to know whether they differ.
fn read_on<D: Disk, S: Source>(
    alloc: Global,
    disk: &mut D,
    input: &mut S,
) -> Result<Ending, OpenFault>
    ensures done { result ≡ Ok Ending.Done → (list : List EntryType) × (D.tells → StandsFor (D.content disk.old) list) × Told (S.left input.old) (λ octets. octets ≡ text list) }
    ensures end { result ≡ Ok Ending.Done → IsAtEnd (S.left input.new) }
    ensures different { (place : ℕ) → result ≡ Ok (Ending.Different place) → OfText D.tells (D.content disk.old) (λ lines. Told (S.left input.old) (λ octets. DiffersAt octets lines place)) }
    ensures read_fault { result ≡ Ok Ending.ReadFault → Rose (S.faults input.old) (S.faults input.new) }
    ensures endings { IfOk result (λ e. (e ≡ Ending.Done) ⊎ (e ≡ Ending.ReadFault) ⊎ ((place : ℕ) × (e ≡ Ending.Different place))) }
    ensures fault { D.tells → IfErr result (λ fault. Fails fault (journal (D.content disk.old))) }
    ensures reads { OnlyReads D.content D.image D.moment D.image_since D.faults disk.old disk.new }
    ensures cause { IsErrOf result OpenFault.DiskFault → Rose (D.faults disk.old) (D.faults disk.new) }
{
    let mut comparison = Comparison::new(alloc);
    let mut reached = Reached {
        cursor: Cursor::begin(alloc, disk)?,
        ahead: 0,
    };
    let mut piece = [0u8; PIECE];
    loop {
        match input.read(&mut piece) {
            Got::Failed => return Ok(Ending::ReadFault),
            Got::End => {
                let place = place_at_end(alloc, disk, &mut comparison, &mut reached)?;
                return Ok(ending_of(place));
            }
            Got::Bytes(n) => {
                match take_piece(alloc, disk, &mut comparison, &mut reached, &piece[..n])? {
                    Some(place) => return Ok(Ending::Different(place)),
                    None => {}
                }
            }
        }
    }
}

/// Compares the input with the text of the entries of a disk, and says how that ended.
fn compare<D: Disk, S: Source>(alloc: Global, disk: &mut D, input: &mut S) -> Ending
    ensures done { result ≡ Ending.Done → (list : List EntryType) × (D.tells → StandsFor (D.content disk.old) list) × Told (S.left input.old) (λ octets. octets ≡ text list) }
    ensures end { result ≡ Ending.Done → IsAtEnd (S.left input.new) }
    ensures different { (place : ℕ) → result ≡ Ending.Different place → OfText D.tells (D.content disk.old) (λ lines. Told (S.left input.old) (λ octets. DiffersAt octets lines place)) }
    ensures damaged { D.tells → (place : ℕ) → result ≡ Ending.Damaged place → IsDamaged (D.content disk.old) place }
    ensures disk_fault { result ≡ Ending.DiskFault → Rose (D.faults disk.old) (D.faults disk.new) }
    ensures read_fault { result ≡ Ending.ReadFault → Rose (S.faults input.old) (S.faults input.new) }
    ensures endings { IsRefusal result ⊎ (result ≡ Ending.Done) ⊎ (result ≡ Ending.ReadFault) ⊎ ((place : ℕ) × (result ≡ Ending.Different place)) }
    ensures reads { OnlyReads D.content D.image D.moment D.image_since D.faults disk.old disk.new }
{
    match read_on(alloc, disk, input) {
        Ok(ending) => ending,
        Err(fault) => ending_at(fault),
    }
}

/// Compares the octets of the input with the text of the entries that a disk stands for, while it reads both.
///
/// The journal is read twice: first to its end, so that nothing is read of the input where the disk is refused, and then
/// again, while the input is read. So it takes memory for pieces of the disk and of the texts and for an entry, and not for
/// the journal.
///
/// It answers `Done` where they are the same; `Different` where they aren't, with the first offset at which they differ,
/// which is the length of the shorter one where it is a front of the other; `Damaged` where the disk holds no journal or a
/// damaged one, with the place of the first fault; `DiskFault` or `ReadFault` where a call failed; or `OutOfMemory`. The
/// input is read no further than to its first difference, and the disk isn't written. Where another program changes the
/// disk meanwhile, `Damaged` may come when some of the input was read already.
pub fn check<D: Disk, S: Source>(alloc: Global, disk: &mut D, input: &mut S) -> Ending
    ensures done { result ≡ Ending.Done → (list : List EntryType) × (D.tells → StandsFor (D.content disk.old) list) × Told (S.left input.old) (λ octets. octets ≡ text list) }
    ensures end { result ≡ Ending.Done → IsAtEnd (S.left input.new) }
    ensures different { (place : ℕ) → result ≡ Ending.Different place → DiffersFrom D.tells (D.content disk.old) (S.left input.old) place }

    // A disk that is refused is damaged at that place, unless a call of it failed or memory ran out. Nothing is read then.
    ensures damaged { D.tells → (place : ℕ) → result ≡ Ending.Damaged place → IsDamaged (D.content disk.old) place }
    ensures refused { D.tells → (place : ℕ) → IsDamaged (D.content disk.old) place → IsRefusal result × (S.left input.new ≡ S.left input.old) }
    ensures unread { D.tells → (place : ℕ) → result ≡ Ending.Damaged place → S.left input.new ≡ S.left input.old }

    ensures disk_fault { result ≡ Ending.DiskFault → Rose (D.faults disk.old) (D.faults disk.new) }
    ensures read_fault { result ≡ Ending.ReadFault → Rose (S.faults input.old) (S.faults input.new) }
    ensures endings { IsRefusal result ⊎ (result ≡ Ending.Done) ⊎ (result ≡ Ending.ReadFault) ⊎ ((place : ℕ) × (result ≡ Ending.Different place)) }
    ensures reads { OnlyReads D.content D.image D.moment D.image_since D.faults disk.old disk.new }
{
    match whole_on(alloc, disk) {
        Ok(()) => compare(alloc, disk, input),
        Err(ending) => ending,
    }
}
