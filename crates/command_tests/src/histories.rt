//! A line of each kind, written by hand from the table of kinds, and texts that are compared in pieces.

ghost use Rattle.std.specs.Prelude.{◌≡◌, IfOk, option_map};
ghost use Rattle.database_text.specs.Comparison.{counted, end_difference};
ghost use Rattle.database_text.specs.Lines.{text};

use cluster_types::config::{Channel, Scheme};
use cluster_types::entry::{Entry, Input};
use cluster_types::message::Buffers;
use cluster_types::octets::Octets;
use cluster_types::shared_message::SharedMessage;
use cluster_types::text::Text;
use cluster_types::verdict::{Cause, Verdict};
use database_text::comparison::Comparison;
use database_text::lines::put_line;
use std::alloc::{AllocError, Global};
use std::process::Abort;

fn open(scheme: Scheme) -> Entry {
    Entry::Input(Input::Open {
        moment: 253_402_300_799_999,
        scheme,
        hwm: 0,
        misses: 4_294_967_295,
    })
}

fn up(channel: Channel, identity: Octets) -> Entry {
    Entry::Input(Input::Up {
        conn: 3,
        channel,
        moment: 10,
        word: 18_446_744_073_709_551_615,
        identity,
    })
}

fn octets<R: Abort>(rt: &R, alloc: Global, from: &[u8]) -> Octets {
    Octets::new(alloc, from).expect(rt, "memory is ample")
}

fn id_of<R: Abort>(rt: &R, alloc: Global, from: &str) -> Text {
    Text::new(alloc, from).expect(rt, "memory is ample")
}

/// Two buffers, of which the first is empty.
fn two_buffers<R: Abort>(rt: &R, alloc: Global) -> Buffers {
    let mut buffers = Buffers::new(alloc);
    buffers.push(Octets::empty()).expect(rt, "memory is ample");
    buffers
        .push(octets(rt, alloc, b"\x00\xff"))
        .expect(rt, "memory is ample");
    buffers
}

fn message_in(message: SharedMessage) -> Entry {
    Entry::Input(Input::In {
        conn: 2,
        moment: 5,
        word: 6,
        message,
    })
}

/// A message with a target and two buffers.
fn whole_message<R: Abort>(rt: &R, alloc: Global) -> Entry {
    let buffers = two_buffers(rt, alloc);
    let message = SharedMessage::new(alloc, b"e", b"{}", b"{ }", b"{}", b"{\"a\":1}", buffers);
    message_in(message.expect(rt, "memory is ample"))
}

/// A message without a target or buffers.
fn short_message<R: Abort>(rt: &R, alloc: Global) -> Entry {
    let buffers = Buffers::new(alloc);
    let message = SharedMessage::new(alloc, b"", b"{}", b"{}", b"{}", b"{}", buffers);
    message_in(message.expect(rt, "memory is ample"))
}

fn settle<R: Abort>(rt: &R, alloc: Global, id: &str, verdict: Verdict, cause: Cause) -> Entry {
    Entry::Settle {
        id: id_of(rt, alloc, id),
        verdict,
        cause,
    }
}

/// Entries of each kind.
fn entries<R: Abort>(rt: &R, alloc: Global) -> [Entry; 20] {
    [
        open(Scheme::Lru),
        open(Scheme::LeastLoad),
        open(Scheme::PlainRandom),
        open(Scheme::TwoBin),
        up(Channel::Hub, octets(rt, alloc, b"\x00\xff")),
        up(Channel::Task, octets(rt, alloc, b"client")),
        up(Channel::Mux, Octets::empty()),
        up(Channel::Engine, octets(rt, alloc, b"e")),
        Entry::Input(Input::Down {
            conn: 3,
            moment: 1000,
            word: 7,
        }),
        whole_message(rt, alloc),
        short_message(rt, alloc),
        Entry::Input(Input::Beat { moment: 1, word: 2 }),
        Entry::Input(Input::Time { moment: 3, word: 4 }),
        Entry::Hand {
            id: id_of(rt, alloc, "t1"),
            engine: 0,
        },
        settle(rt, alloc, "t1", Verdict::Completed, Cause::Reply),
        settle(rt, alloc, "é", Verdict::Failed, Cause::EngineError),
        settle(rt, alloc, "", Verdict::Failed, Cause::ImpossibleDependency),
        settle(rt, alloc, "t1", Verdict::Failed, Cause::InvalidDependency),
        settle(rt, alloc, "t1", Verdict::Failed, Cause::TaskTimeout),
        Entry::Lose {
            engine: 4_294_967_295,
        },
    ]
}

/// The text of these entries.
const TEXT: &str = "\
open 253402300799999 lru 0 4294967295
open 253402300799999 leastload 0 4294967295
open 253402300799999 plainrandom 0 4294967295
open 253402300799999 twobin 0 4294967295
up 3 hub 10 18446744073709551615 00ff
up 3 task 10 18446744073709551615 636c69656e74
up 3 mux 10 18446744073709551615 -
up 3 engine 10 18446744073709551615 65
down 3 1000 7
in 2 5 6 65 7b7d 7b207d 7b7d 7b2261223a317d - 00ff
in 2 5 6 - 7b7d 7b7d 7b7d 7b7d
beat 1 2
time 3 4
hand 7431 0
settle 7431 completed Reply
settle c3a9 failed EngineError
settle - failed ImpossibleDependency
settle 7431 failed InvalidDependency
settle 7431 failed TaskTimeout
lose 4294967295
";

/// The first place at which octets aren't the text of entries.
fn place_of_difference(
    alloc: Global,
    octets: &[u8],
    entries: &[Entry],
) -> Result<Option<u64>, AllocError>
    ensures { IfOk result (λ place. place ≡ option_map counted (end_difference 0 octets.now (text entries.now))) }
{
    let mut comparison = Comparison::new(alloc);
    comparison.feed_input(octets)?;
    for entry in entries {
        let mut line = Vec::new(alloc);
        put_line(&mut line, entry)?;
        comparison.feed_printed(line.as_slice())?;
    }
    Ok(comparison.end())
}

/// The lines of these entries.
fn printed<R: Abort>(rt: &R, alloc: Global, entries: &[Entry]) -> Vec<u8> {
    let mut printed = Vec::new(alloc);
    for entry in entries {
        put_line(&mut printed, entry).expect(rt, "memory is ample");
    }
    printed
}

#[test]
fn entries_have_their_lines(rt: HostRuntime) {
    let entries = entries(&rt, rt.alloc());
    let printed = printed(&rt, rt.alloc(), &entries);
    assert!(rt; printed.as_slice() == TEXT.as_bytes(), "{printed:?}");
    assert_eq!(rt;
        place_of_difference(rt.alloc(), TEXT.as_bytes(), &entries),
        Ok(None)
    );
}

/// The pieces of an input and of what is printed, the difference within both, and that of the whole texts.
type Row = (
    &'static [&'static [u8]],
    &'static [&'static [u8]],
    Option<u64>,
    Option<u64>,
);

const ROWS: &[Row] = &[
    (&[], &[], None, None),
    (
        &[b"ab", b"", b"cd", b"ef"],
        &[b"a", b"bcde", b"f"],
        None,
        None,
    ),
    (&[b"a", b"b", b"c"], &[b"abc"], None, None),
    (
        &[b"abcdef"],
        &[b"a", b"b", b"c", b"d", b"x", b"f"],
        Some(4),
        Some(4),
    ),
    (&[b"x", b"bc"], &[b"abc", b"d"], Some(0), Some(0)),
    (&[b"abc"], &[b"ab"], None, Some(2)),
    (&[b"a"], &[b"ab", b"c"], None, Some(1)),
    (&[], &[b"a"], None, Some(0)),
];

/// Takes the pieces in turn.
fn compared<R: Abort>(rt: &R, alloc: Global, input: &[&[u8]], printed: &[&[u8]]) -> Comparison {
    let mut comparison = Comparison::new(alloc);
    for turn in 0..input.len().max(printed.len()) {
        if let Some(piece) = input.get(turn) {
            comparison.feed_input(piece).expect(rt, "memory is ample");
        }
        if let Some(piece) = printed.get(turn) {
            comparison.feed_printed(piece).expect(rt, "memory is ample");
        }
    }
    comparison
}

#[test]
fn texts_are_compared_in_pieces(rt: HostRuntime) {
    for (input, printed, difference, end) in ROWS {
        let comparison = compared(&rt, rt.alloc(), input, printed);
        assert_eq!(rt;
            comparison.difference(),
            *difference,
            "{input:?} {printed:?}"
        );
        assert_eq!(rt; comparison.end(), *end, "{input:?} {printed:?}");
    }
}
