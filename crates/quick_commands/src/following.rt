//! Following a journal that comes in.

ghost use Rattle.std.specs.Prelude.{◌≡◌, ◌≤◌, ◌<◌, ◌⊎◌, ◌++◌, ℕ, List, [], length, false, Some, Err, All, IfOk, IfErr, OnOk};
ghost use Rattle.cluster_types.specs.Causes.{Rose};
ghost use Rattle.database_text.specs.Texts.{Told};
ghost use Rattle.disk_model.specs.Crashes.{Only, LeavesOnly};
ghost use Rattle.edges.specs.Streams.{Took, IsAtEnd};
ghost use Rattle.journal_standby.specs.Steps.{HasShortSteps};
ghost use Rattle.record_codec.specs.Spelling.{IsWithinLimits};
ghost use Rattle.task_journal.specs.Journal.{StandsFor};
ghost use Rattle.quick_commands.specs.Following.{most_input, IsPrimary, IsRefusedAt, InputEnds, OpenedEnds, IsLonger, MayHaveMore, MayLeaveFollowed, ListEnds, FollowEnds, end_of};

use crate::opening::ending_of_refusal;
use cluster_types::entry::Entries;
use command_words::ending::Ending;
use disk_model::disk::Disk;
use edges::source::{Got, ReadAllError, Source};
use journal_standby::fault::FollowFault;
use journal_standby::image::{head_fault_of, list_of};
use journal_standby::standby::Standby;
use std::alloc::Global;
use task_journal::fault::OpenFault;
use task_journal::opening::Refused;

/// The most octets of an input that is followed.
const MOST_INPUT: usize = 2_147_483_648;

/// Reads an input to its end, or until it is too long.
fn read_input<S: Source>(alloc: Global, input: &mut S) -> Result<Vec<u8>, ReadAllError>
    ensures took { IfOk result (λ v. Took v.items (S.left input.old) (S.left input.new)) }
    ensures end { IfOk result (λ v. length v.items ≤ most_input → IsAtEnd (S.left input.new)) }
    ensures cause { result ≡ Err ReadAllError.Failed → Rose (S.faults input.old) (S.faults input.new) }
{
    let mut octets = Vec::new(alloc);
    let mut piece = [0u8; 65_536];
    while octets.len() <= MOST_INPUT {
        match input.read(&mut piece) {
            Got::Bytes(n) => octets.extend_from_slice(&piece[..n])?,
            Got::End => return Ok(octets),
            Got::Failed => return Err(ReadAllError::Failed),
        }
    }
    Ok(octets)
}

/// Where an input is refused that is too long, of which these are the first octets: where they differ from the head of a
/// journal, or else at the most octets that it may have.
fn refused_at(octets: &[u8]) -> u64
    requires { most_input < length octets.now }
    ensures { (more : List ℕ) → IsRefusedAt (octets.now ++ more) result }
{
    match head_fault_of(octets) {
        Some(place) => place,
        None => MOST_INPUT as u64,
    }
}

/// The list of an input's octets, or how the command ends that can't have it. Of an input that is too long, `octets` are the
/// first ones.
fn list_in(alloc: Global, octets: Vec<u8>) -> Result<Entries, Ending>
    ensures list { IfOk result (IsPrimary octets.items) }
    ensures each { IfOk result (λ list. All IsWithinLimits list) }
    ensures short { IfOk result HasShortSteps }
    ensures refused { (more : List ℕ) → (length octets.items ≤ most_input → more ≡ []) → IfErr result (InputEnds (Some (octets.items ++ more))) }
    ensures read { result ≡ Err Ending.ReadFault → ⊥ }
{
    if octets.len() > MOST_INPUT {
        return Err(Ending::PrimaryRefused(refused_at(octets.as_slice())));
    }
    match list_of(alloc, octets) {
        Ok(list) => Ok(list),
        Err(OpenFault::NotAJournal(place)) => Err(Ending::PrimaryRefused(place)),
        Err(OpenFault::Damaged(place)) => Err(Ending::PrimaryRefused(place)),
        Err(OpenFault::DiskFault) => Err(Ending::OutOfMemory),
        Err(OpenFault::OutOfMemory) => Err(Ending::OutOfMemory),
    }
}

/// Reads the list of an input, or says how the command ends that can't have it.
fn read_primary<S: Source>(alloc: Global, input: &mut S) -> Result<Entries, Ending>
    ensures list { IfOk result (λ list. Told (S.left input.old) (λ octets. IsPrimary octets list)) }
    ensures each { IfOk result (λ list. All IsWithinLimits list) }
    ensures short { IfOk result HasShortSteps }
    ensures end { OnOk result (IsAtEnd (S.left input.new)) }
    ensures refused { IfErr result (InputEnds (S.left input.old)) }
    ensures cause { result ≡ Err Ending.ReadFault → Rose (S.faults input.old) (S.faults input.new) }
{
    match read_input(alloc, input) {
        Ok(octets) => list_in(alloc, octets),
        Err(ReadAllError::Failed) => Err(Ending::ReadFault),
        Err(ReadAllError::OutOfMemory) => Err(Ending::OutOfMemory),
    }
}

/// How the program ends where a list isn't followed.
fn end_of(fault: FollowFault) -> Ending
    ensures { result ≡ end_of fault }
{
    match fault {
        FollowFault::Diverged { place } => Ending::StandbyDiffers(place),
        FollowFault::Reopen => Ending::DiskFault,
        FollowFault::DiskFault => Ending::DiskFault,
        FollowFault::OutOfMemory => Ending::OutOfMemory,
    }
}

/// Follows a primary's list with a standby that is open, and says how that ended.
fn follow_opened<D: Disk>(standby: Standby<D>, primary: &Entries) -> (Ending, D)
    requires works { standby.failed ≡ false }
    requires durable { D.tells → Only (D.content standby.disk) (D.image standby.disk) }
    requires stands { D.tells → StandsFor (D.content standby.disk) standby.list }
    requires each { All IsWithinLimits primary.now }
    requires short { HasShortSteps primary.now }
    ensures ended { OpenedEnds D.tells standby.list primary.now (D.image result.1) result.0 }
    ensures any_moment { D.tells → LeavesOnly D.moment D.image_since standby.disk result.1 (IsLonger standby.list primary.now) }
    ensures later { D.faults standby.disk ≤ D.faults result.1 }
    ensures disk_fault { result.0 ≡ Ending.DiskFault → Rose (D.faults standby.disk) (D.faults result.1) }
{
    let mut standby = standby;
    let end = match standby.follow(primary) {
        Ok(_) => Ending::Done,
        Err(fault) => end_of(fault),
    };
    (end, standby.close())
}

/// Follows a primary's list with the standby of a disk, and says how that ended.
fn follow_list<D: Disk>(alloc: Global, disk: D, primary: &Entries) -> (Ending, D)
    requires each { All IsWithinLimits primary.now }
    requires short { HasShortSteps primary.now }
    ensures ended { ListEnds D.tells (D.content disk) primary.now (D.image disk) (D.image result.1) result.0 }
    ensures any_moment { D.tells → LeavesOnly D.moment D.image_since disk result.1 (MayHaveMore (D.content disk) primary.now (D.image disk)) }
    ensures disk_fault { result.0 ≡ Ending.DiskFault → Rose (D.faults disk) (D.faults result.1) }
{
    match Standby::open(alloc, disk) {
        Ok(standby) => follow_opened(standby, primary),
        Err(Refused { disk, why }) => (ending_of_refusal(why), disk),
    }
}

/// Follows the journal that comes in with the standby of a disk, and says how that ended. The input is read first, and then
/// the disk.
pub fn follow<S: Source, D: Disk>(alloc: Global, input: &mut S, disk: D) -> (Ending, D)
    ensures ended { FollowEnds D.tells (D.content disk) (S.left input.old) (S.left input.new) (D.image disk) (D.image result.1) result.0 }
    ensures any_moment { D.tells → Told (S.left input.old) (λ octets. LeavesOnly D.moment D.image_since disk result.1 (MayLeaveFollowed (D.content disk) octets (D.image disk))) }
    ensures read_fault { result.0 ≡ Ending.ReadFault → Rose (S.faults input.old) (S.faults input.new) }
    ensures disk_fault { result.0 ≡ Ending.DiskFault → Rose (D.faults disk) (D.faults result.1) }
{
    match read_primary(alloc, input) {
        Ok(primary) => follow_list(alloc, disk, &primary),
        Err(end) => (end, disk),
    }
}
