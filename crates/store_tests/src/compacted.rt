//! Journals that are written at once, read again, and cut off by a write that fails.

ghost use Rattle.std.specs.Prelude.{◌<◌};

use database_text::fault::WriteError;
use database_text::writing::write_journal;
use disk_model::memory::MemDisk;
use edges::memory::MemSink;
use std::alloc::Global;
use std::process::Abort;
use task_journal::reading::read_journal;

/// The journal of one Open under the default options.
const ONE_OPEN: [u8; 60] = [
    0x49, 0x50, 0x43, 0x4a, 0x52, 0x4e, 0x4c, 0x31, 0x00, 0x00, 0x00, 0x01, 0x02, 0x00, 0x00, 0x00,
    0x00, 0x00, 0x00, 0x00, 0x00, 0x00, 0x00, 0x00, 0x00, 0x00, 0x00, 0x00, 0x00, 0x00, 0x00, 0xa7,
    0x00, 0x00, 0x00, 0x00, 0x12, 0x00, 0x00, 0x00, 0x01, 0x01, 0x00, 0x00, 0x00, 0x00, 0x00, 0x00,
    0x00, 0x00, 0x01, 0x00, 0x00, 0x00, 0x01, 0x00, 0x00, 0x00, 0x0a, 0x00,
];

/// The record of a hand-out of a task to an engine.
const HAND: &[u8] = &[7, 4, b't', b'a', b's', b'k', 0, 0, 0, 1];

/// The journal of an Open and so many hand-outs, in one batch.
fn journal<R: Abort>(rt: &R, alloc: Global, hands: u32) -> Vec<u8>
    requires { hands < 100000 }
{
    let mut octets = Vec::from_slice(alloc, &ONE_OPEN[..33]).expect(rt, "memory is ample");
    octets
        .extend_from_slice(&(18 + 10 * hands).to_be_bytes())
        .expect(rt, "memory is ample");
    octets
        .extend_from_slice(&(1 + hands).to_be_bytes())
        .expect(rt, "memory is ample");
    octets
        .extend_from_slice(&ONE_OPEN[41..59])
        .expect(rt, "memory is ample");
    for _ in 0..hands {
        octets.extend_from_slice(HAND).expect(rt, "memory is ample");
    }
    octets.push(0).expect(rt, "memory is ample");
    octets
}

/// How writing the journal of what octets stand for ends where calls of these numbers fail, whether a front of the same
/// octets was written, and how many.
fn written<R: Abort>(
    rt: &R,
    alloc: Global,
    octets: &[u8],
    failing: &[u64],
) -> (Result<(), WriteError>, bool, usize) {
    let mut disk = MemDisk::new(alloc, octets).expect(rt, "memory is ample");
    let (entries, _) = read_journal(alloc, &mut disk).expect(rt, "a journal");
    let mut output = MemSink::new(alloc, failing).expect(rt, "memory is ample");
    let result = write_journal(alloc, entries.as_slice(), &mut output);
    let written = output.written();
    (result, octets.starts_with(written), written.len())
}

#[test]
fn a_journal_without_entries_is_a_head(rt: HostRuntime) {
    let mut octets = Vec::from_slice(rt.alloc(), &ONE_OPEN[..31]).expect(&rt, "memory is ample");
    octets
        .extend_from_slice(&[0, 0])
        .expect(&rt, "memory is ample");
    assert!(rt; written(&rt, rt.alloc(), &octets, &[]) == (Ok(()), true, 33));
}

#[test]
fn a_journal_is_that_of_one_batch(rt: HostRuntime) {
    // The first piece ends with the first record that comes to 65,536 octets.
    for (hands, call, result, count) in [
        (0, 0, Ok(()), 60),
        (10_000, 0, Ok(()), 100_060),
        (10_000, 1, Err(WriteError::WriteFailed), 0),
        (10_000, 2, Err(WriteError::WriteFailed), 65_539),
        (10_000, 3, Ok(()), 100_060),
    ] {
        let octets = journal(&rt, rt.alloc(), hands);
        assert!(rt; written(&rt, rt.alloc(), &octets, &[call]) == (result, true, count));
    }
}
