//! Serving a tape over a database while it is read.

ghost use Rattle.std.specs.Prelude.{◌≡◌, ◌≢◌, ◌≤◌, ◌<◌, ◌-◌, ◌^◌, ℕ, List, [], ◌∷◌, length, All, None, OnOk, Err, true, false};
ghost use Rattle.std.specs.Option.{unwrap_or};
ghost use Rattle.cluster_types.specs.Causes.{Rose};
ghost use Rattle.disk_model.specs.Crashes.{LeavesOnly};
ghost use Rattle.edges.specs.Streams.{Added, IsAtEnd, AddedFront};
ghost use Rattle.tape.specs.Spelling.{Fits, all_spelled};
ghost use Rattle.tape.specs.Tape.{blank, tape_after, records};
ghost use Rattle.tape_drive.specs.Drive.{served, outs, outputs, stand_at, drive_output, drive_stop, drive_stand};
ghost use Rattle.tape_drive.specs.Served.{Comes, HoldsSome, IsTouched};
ghost use Rattle.quick_commands.specs.Replays.{IsServed, ReplayEnds, MayLeave};
ghost use Rattle.database_text.specs.Texts.{Told};
ghost use Rattle.quick_commands.specs.Written.{Ended, IsWhole, IsOfTape, ending_at};
ghost use Rattle.quick_commands.specs.Serving.{is_disk_failure, ending_of};

use crate::opening::{config_of, ending_of_refusal};
use cluster_core::size::HistorySize;
use command_words::command::ReplayOptions;
use command_words::ending::Ending;
use disk_model::disk::Disk;
use edges::sink::{Sink, write_all};
use edges::source::{Got, Source};
use hmac_sign::Key;
use load_schemes::chooser::Chooser;
use std::alloc::{AllocError, Global};
use tape::reader::TapeReader;
use tape::record::TapeRecord;
use tape_drive::drive::{Drive, TapeStop};
use tape_drive::fault::DriveError;
use task_journal::opening::Refused;

/// The most octets that are read at once.
const PIECE: usize = 65_536;

/// Why serving ended.
#[derive(Debug, Drop)]
enum ServeError {
    OutOfMemory,
    WriteFailed,
    DiskFailed,
}

impl From<AllocError> for ServeError {
    ghost use Rattle.std.specs.Prelude.{◌≡◌};
    ghost use Rattle.quick_commands.specs.declared.replay.ServeError.{ServeError};

    ghost from_gives = { λ _ e. e ≡ ServeError.OutOfMemory };

    fn from(_: AllocError) -> Self {
        ServeError::OutOfMemory
    }
}

/// Writes all of these octets, or a front of them.
fn put<K: Sink>(output: &mut K, octets: &[u8]) -> Result<(), ServeError>
    ensures ok { OnOk result (Added octets.now (K.written output.old) (K.written output.new)) }
    ensures front { AddedFront octets.now (K.written output.old) (K.written output.new) }
    ensures only { is_disk_failure result ≡ false }
    ensures cause { result ≡ Err ServeError.WriteFailed → Rose (K.faults output.old) (K.faults output.new) }
    ensures later { K.faults output.old ≤ K.faults output.new }
{
    match write_all(output, octets) {
        Ok(()) => Ok(()),
        Err(_) => Err(ServeError::WriteFailed),
    }
}

/// Serves a record, and then writes what it sends.
fn serve_record<D: Disk, K: Sink>(
    drive: &mut Drive<D>,
    key: &Key,
    chooser: &Chooser,
    text: &mut Vec<u8>,
    item: &TapeRecord,
    output: &mut K,
) -> Result<(), ServeError>
    requires fits { Fits item.now }
    requires working { drive.old.failed ≡ false }
    ensures stand { OnOk result (drive.new.stand ≡ served key.now drive.old.stand item.now) }
    ensures ok { OnOk result (Added (all_spelled (outs key.now drive.old.stand item.now)) (K.written output.old) (K.written output.new)) }
    ensures served { IsServed key.now drive.old.stand (item.now ∷ []) (K.written output.old) (K.written output.new) drive.new.stand.history }
    ensures comes { Comes key.now drive.old.stand (item.now ∷ []) drive.new.stand.history }
    ensures any_moment { D.tells → IsTouched D.moment D.image D.image_since drive.old.disk drive.new.disk drive.new.failed (HoldsSome (Comes key.now drive.old.stand (item.now ∷ []))) }
    ensures left { D.tells → drive.new.failed ≡ true → (c : List ℕ) → D.image drive.new.disk c → HoldsSome (IsServed key.now drive.old.stand (item.now ∷ []) (K.written output.old) (K.written output.new)) c }
    ensures failed { drive.new.failed ≡ is_disk_failure result }
    ensures cause { result ≡ Err ServeError.WriteFailed → Rose (K.faults output.old) (K.faults output.new) }
    ensures disk_cause { result ≡ Err ServeError.DiskFailed → Rose (D.faults drive.old.disk) (D.faults drive.new.disk) }
    ensures later { K.faults output.old ≤ K.faults output.new }
    ensures disk_later { D.faults drive.old.disk ≤ D.faults drive.new.disk }
{
    text.clear();
    match drive.serve(text, key, chooser, item) {
        Ok(()) => put(output, text.as_slice()),
        Err(DriveError::OutOfMemory) => Err(ServeError::OutOfMemory),
        Err(DriveError::DiskFault) => Err(ServeError::DiskFailed),
        Err(DriveError::Reopen) => unreachable!(),
    }
}

/// Serves records one after another; what one sends is written before the next one is served.
fn serve_records<D: Disk, K: Sink>(
    drive: &mut Drive<D>,
    key: &Key,
    chooser: &Chooser,
    text: &mut Vec<u8>,
    list: &[TapeRecord],
    output: &mut K,
) -> Result<(), ServeError>
    requires fits { All Fits list.now }
    requires working { drive.old.failed ≡ false }
    ensures stand { OnOk result (drive.new.stand ≡ stand_at key.now drive.old.stand list.now) }
    ensures ok { OnOk result (Added (all_spelled (outputs key.now drive.old.stand list.now)) (K.written output.old) (K.written output.new)) }
    ensures served { IsServed key.now drive.old.stand list.now (K.written output.old) (K.written output.new) drive.new.stand.history }
    ensures any_moment { D.tells → IsTouched D.moment D.image D.image_since drive.old.disk drive.new.disk drive.new.failed (HoldsSome (Comes key.now drive.old.stand list.now)) }
    ensures left { D.tells → drive.new.failed ≡ true → (c : List ℕ) → D.image drive.new.disk c → HoldsSome (IsServed key.now drive.old.stand list.now (K.written output.old) (K.written output.new)) c }
    ensures failed { drive.new.failed ≡ is_disk_failure result }
    ensures cause { result ≡ Err ServeError.WriteFailed → Rose (K.faults output.old) (K.faults output.new) }
    ensures disk_cause { result ≡ Err ServeError.DiskFailed → Rose (D.faults drive.old.disk) (D.faults drive.new.disk) }
    ensures later { K.faults output.old ≤ K.faults output.new }
    ensures disk_later { D.faults drive.old.disk ≤ D.faults drive.new.disk }
{
    for item in list {
        serve_record(drive, key, chooser, text, item, output)?;
    }
    Ok(())
}

/// How the program ends where the tape is stopped so.
fn ending_at(stop: TapeStop) -> Ending
    ensures { result ≡ ending_at stop }
{
    match stop {
        TapeStop::BadTape(place) => Ending::BadTape(place),
        TapeStop::HistoryFull(HistorySize { entries, bytes }) => {
            Ending::HistoryFull { entries, bytes }
        }
    }
}

/// How the program ends at an error.
fn ending_of(error: ServeError) -> Ending
    ensures { result ≡ ending_of error }
{
    match error {
        ServeError::OutOfMemory => Ending::OutOfMemory,
        ServeError::WriteFailed => Ending::WriteFault,
        ServeError::DiskFailed => Ending::DiskFault,
    }
}

/// Reads a tape to its end or to what stops it, and serves it as far as that. There is no ending only behind 2^64 - 1 reads.
fn serve_tape<S: Source, K: Sink, D: Disk>(
    alloc: Global,
    drive: &mut Drive<D>,
    key: &Key,
    chooser: &Chooser,
    input: &mut S,
    output: &mut K,
) -> Option<Ending>
    requires goes { drive.old.stand.stop ≡ None }
    requires working { drive.old.failed ≡ false }
    ensures end { unwrap_or result Ending.OutOfMemory ≡ Ending.Done → IsAtEnd (S.left input.new) }
    ensures ended { Told (S.left input.old) (λ octets. Ended (unwrap_or result Ending.OutOfMemory) (drive_output key.now drive.old.stand octets) (drive_stop key.now drive.old.stand octets) (K.written output.old) (K.written output.new)) }
    ensures history { Told (S.left input.old) (λ octets. IsWhole (unwrap_or result Ending.OutOfMemory) (drive.new.stand.history ≡ (drive_stand key.now drive.old.stand octets).history)) }
    ensures served { Told (S.left input.old) (λ octets. IsServed key.now drive.old.stand (records blank octets) (K.written output.old) (K.written output.new) drive.new.stand.history) }
    ensures any_moment { D.tells → Told (S.left input.old) (λ octets. IsTouched D.moment D.image D.image_since drive.old.disk drive.new.disk drive.new.failed (HoldsSome (Comes key.now drive.old.stand (records blank octets)))) }
    ensures left { D.tells → drive.new.failed ≡ true → Told (S.left input.old) (λ octets. (c : List ℕ) → D.image drive.new.disk c → HoldsSome (IsServed key.now drive.old.stand (records blank octets) (K.written output.old) (K.written output.new)) c) }
    ensures failed { drive.new.failed ≡ true → unwrap_or result Ending.OutOfMemory ≡ Ending.DiskFault }
    ensures read_fault { unwrap_or result Ending.OutOfMemory ≡ Ending.ReadFault → Rose (S.faults input.old) (S.faults input.new) }
    ensures write_fault { unwrap_or result Ending.OutOfMemory ≡ Ending.WriteFault → Rose (K.faults output.old) (K.faults output.new) }
    ensures disk_fault { unwrap_or result Ending.OutOfMemory ≡ Ending.DiskFault → Rose (D.faults drive.old.disk) (D.faults drive.new.disk) }
    ensures later { D.faults drive.old.disk ≤ D.faults drive.new.disk }
    ensures comes { IsOfTape (unwrap_or result Ending.OutOfMemory) }
    ensures last { result ≡ None → Told (S.left input.old) (λ octets. 2 ^ 64 - 1 ≤ length octets) }
{
    let mut tape = TapeReader::new(alloc);
    let mut text = Vec::new(alloc);
    let mut piece = [0u8; PIECE];
    for _ in 0..u64::MAX {
        match input.read(&mut piece) {
            Got::Failed => return Some(Ending::ReadFault),
            Got::End => {
                match tape.fault() {
                    Some(place) => return Some(Ending::BadTape(place)),
                    None => return Some(Ending::Done),
                }
            }
            Got::Bytes(n) => {
                let Ok(list) = tape.feed(&piece[..n]) else {
                    return Some(Ending::OutOfMemory);
                };
                let list = list.as_slice();
                if let Err(error) = serve_records(drive, key, chooser, &mut text, list, output) {
                    return Some(ending_of(error));
                }
            }
        }
        if let Some(stop) = drive.stop() {
            return Some(ending_at(stop));
        }
        if tape.ended() {
            if let Some(place) = tape.fault() {
                return Some(Ending::BadTape(place));
            }
        }
    }
    None
}

/// Serves a tape with these options, over the database of a disk, which it hands back.
pub fn replay<S: Source, K: Sink, D: Disk>(
    alloc: Global,
    options: &ReplayOptions,
    chooser: &Chooser,
    input: &mut S,
    output: &mut K,
    disk: D,
) -> (Ending, D)
    ensures ended { ReplayEnds D.tells (D.content disk) options.now (S.left input.old) (S.left input.new) (K.written output.old) (K.written output.new) (D.image disk) (D.image result.1) result.0 }
    ensures any_moment { D.tells → Told (S.left input.old) (λ octets. LeavesOnly D.moment D.image_since disk result.1 (MayLeave (D.content disk) options.now octets (D.image disk))) }
    ensures read_fault { result.0 ≡ Ending.ReadFault → Rose (S.faults input.old) (S.faults input.new) }
    ensures write_fault { result.0 ≡ Ending.WriteFault → Rose (K.faults output.old) (K.faults output.new) }
    ensures disk_fault { result.0 ≡ Ending.DiskFault → Rose (D.faults disk) (D.faults result.1) }
{
    let Ok(key) = Key::new(alloc, options.key.as_slice()) else {
        return (Ending::OutOfMemory, disk);
    };
    match Drive::begin(alloc, disk, config_of(options), chooser) {
        Ok(mut drive) => {
            let ended = serve_tape(alloc, &mut drive, &key, chooser, input, output);
            let ending = ended.unwrap_or(Ending::OutOfMemory);
            (ending, drive.close())
        }
        Err(Refused { disk, why }) => (ending_of_refusal(why), disk),
    }
}
