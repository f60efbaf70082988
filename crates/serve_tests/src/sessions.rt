//! A link from its handshake to its end, over a desk on a disk in memory.

ghost use Rattle.std.specs.Prelude.{◌≡◌, ◌≤◌, [], All};
ghost use Rattle.std.specs.Vec.{vec_capacity};
ghost use Rattle.zmtp_peer.specs.Limits.{IsShortMessage, IsShortIdentity};

use crate::controller::{AMPLE, Held, OWN, new_chooser, new_desk, new_key};
use cluster_types::config::Channel;
use disk_model::memory::MemDisk;
use edges::memory::{MemSink, MemSource};
use history_lock::lock::Pass;
use link_messages::end::SessionEnd;
use link_messages::greeting::{Greeted, greet};
use session_threads::admission::{AdmitEnd, Admitted, PassPool, SessionPasses, admit};
use session_threads::connection::ServedConnection;
use session_threads::context::{SessionContext, TypesOf};
use session_threads::reading::read_session;
use session_threads::writing::write_session;
use std::alloc::Global;
use std::process::Abort;
use std::sync::Wait;
use thread_edges::clock::ListClock;
use thread_edges::gate::OpenGate;
use thread_edges::words::ListWords;

/// The registration of the engine `e0`, signed under the key `k`.
const JOIN: &[u8] =
    b"\x01\x09<IDS|MSG>\x01@3549f2a96cf35bac1fff6b249a8cf48461be3ba2d296ae29a930f967679b268d\x01\x84{\"msg_id\":\"e0-0\",\"session\":\"e0\",\"username\":\"e0\",\"date\":\"1970-01-01T00:00:00.007Z\",\"msg_type\":\"registration_request\",\"version\":\"5.3\"}\x01\x02{}\x01\x02{}\0\x0d{\"uuid\":\"e0\"}";

/// How the answer to it begins.
const ANSWER: &[u8] = b"\x01\x09<IDS|MSG>\x01@";

/// What sessions stand on here.
type OpenTypes<R> = TypesOf<MemDisk, ListClock, ListWords, OpenGate, R>;

/// A link over these octets whose handshake is done.
fn greeted<R: Wait + Abort>(
    rt: &R,
    alloc: Global,
    reader: &mut MemSource,
    writer: &mut MemSink,
) -> Greeted
    ensures identity { IsShortIdentity result.identity }
    ensures messages { All IsShortMessage result.early }
{
    match greet(rt, alloc, reader, writer) {
        Ok(greeted) => greeted,
        Err(end) => panic!(rt; "{end:?}"),
    }
}

/// A pool with this pass alone.
fn pool_of<R: Abort>(rt: &R, alloc: Global, pass: Pass<Held>) -> PassPool<Held>
    ensures pass { result.pass ≡ pass }
    ensures none { result.kept.items ≡ [] }
    ensures spare { 2 ≤ vec_capacity result.kept }
{
    let kept = Vec::with_capacity(alloc, 2).expect(rt, "memory is ample");
    PassPool { pass, kept }
}

/// How a link went: how its reader and its writer ended, and what was written to it.
#[derive(Drop)]
struct Course {
    read: SessionEnd,
    wrote: SessionEnd,
    writer: MemSink,
}

/// How a link goes whose other side sends these octets and ends, where the reads and the writes of these numbers fail.
fn course_of<R: Wait + Abort + Drop>(
    rt: &R,
    alloc: Global,
    octets: &[u8],
    reads: &[u64],
    writes: &[u64],
) -> Course {
    let chooser = new_chooser(rt, alloc);
    let key = new_key(rt, alloc);
    let (desk, pass) = new_desk(rt, alloc, AMPLE);
    let gate = OpenGate::new();
    let context = SessionContext::<OpenTypes<R>> {
        rt,
        alloc,
        desk: &desk,
        key: &key,
        gate: &gate,
    };
    let mut reader = MemSource::new(alloc, octets, reads).expect(rt, "memory is ample");
    let mut writer = MemSink::new(alloc, writes).expect(rt, "memory is ample");
    let greeted = greeted(rt, alloc, &mut reader, &mut writer);
    let mut pool = pool_of(rt, alloc, pass);
    let channel = Channel::Engine;
    let identity = greeted.identity.as_slice();
    let Ok(admitted) = admit(&context, &chooser, &mut pool, channel, identity) else {
        panic!(rt; "no link is admitted");
    };
    let Admitted {
        conn: number,
        passes,
    } = admitted;
    let SessionPasses {
        mut reading,
        mut writing,
    } = passes;
    let connection = ServedConnection { number, channel };
    let read = read_session(
        &context,
        &chooser,
        &mut reader,
        greeted,
        &mut reading,
        connection,
    );
    desk.flush(rt, &mut reading).expect(rt, "a flush");
    let wrote = write_session(&context, &mut writer, &mut writing, number);
    Course {
        read,
        wrote,
        writer,
    }
}

/// What is written to a link whose other side sends these octets and ends.
fn served<R: Wait + Abort + Drop>(rt: &R, alloc: Global, octets: &[u8]) -> MemSink {
    let Course {
        read,
        wrote,
        writer,
    } = course_of(rt, alloc, octets, &[], &[]);
    assert_eq!(rt; read, SessionEnd::Ended);
    assert_eq!(rt; wrote, SessionEnd::Closed);
    writer
}

/// These texts, one behind the other.
fn joined<R: Abort>(rt: &R, alloc: Global, texts: &[&[u8]]) -> Vec<u8> {
    let mut octets = Vec::new(alloc);
    for text in texts {
        octets.extend_from_slice(text).expect(rt, "memory is ample");
    }
    octets
}

#[test]
fn a_link_without_messages(rt: HostRuntime) {
    let link = served(&rt, rt.alloc(), OWN);
    assert_eq!(rt; link.written(), OWN);
}

#[test]
fn a_link_with_a_registration(rt: HostRuntime) {
    let alloc = rt.alloc();
    let octets = joined(&rt, alloc, &[OWN, JOIN]);
    let link = served(&rt, alloc, octets.as_slice());
    let front = joined(&rt, alloc, &[OWN, ANSWER]);
    assert!(rt; link.written().starts_with(front.as_slice()));
}

#[test]
fn a_stream_ends_inside_a_message(rt: HostRuntime) {
    let alloc = rt.alloc();
    let octets = joined(&rt, alloc, &[OWN, JOIN, &JOIN[..40]]);
    let link = served(&rt, alloc, octets.as_slice());
    let front = joined(&rt, alloc, &[OWN, ANSWER]);
    assert!(rt; link.written().starts_with(front.as_slice()));
}

#[test]
fn a_read_fails(rt: HostRuntime) {
    let alloc = rt.alloc();
    let octets = joined(&rt, alloc, &[OWN, JOIN]);
    let link = course_of(&rt, alloc, octets.as_slice(), &[2], &[]);
    assert_eq!(rt; link.read, SessionEnd::LinkFault);
    assert_eq!(rt; link.wrote, SessionEnd::Closed);
}

#[test]
fn a_write_fails(rt: HostRuntime) {
    let alloc = rt.alloc();
    let octets = joined(&rt, alloc, &[OWN, JOIN]);
    let link = course_of(&rt, alloc, octets.as_slice(), &[], &[3]);
    assert_eq!(rt; link.read, SessionEnd::Ended);
    assert_eq!(rt; link.wrote, SessionEnd::LinkFault);
    assert_eq!(rt; link.writer.written(), OWN);
}

#[test]
fn a_link_without_passes(rt: HostRuntime) {
    let alloc = rt.alloc();
    let chooser = new_chooser(&rt, alloc);
    let key = new_key(&rt, alloc);
    let (desk, mut pass) = new_desk(&rt, alloc, AMPLE);
    let Ok(little) = desk.split(&mut pass, 1) else {
        panic!(rt; "no pass is split off");
    };
    let gate = OpenGate::new();
    let context = SessionContext::<OpenTypes<HostRuntime>> {
        rt: &rt,
        alloc,
        desk: &desk,
        key: &key,
        gate: &gate,
    };
    let mut pool = pool_of(&rt, alloc, little);
    let admitted = admit(&context, &chooser, &mut pool, Channel::Hub, b"");
    assert!(rt; matches!(admitted, Err(AdmitEnd::NoPass)));
}
