//! Calls of a desk, one after another.

ghost use Rattle.std.specs.Prelude.{◌≡◌};
ghost use Rattle.history_lock.specs.Names.{IsIdle, lock_id};
ghost use Rattle.record_codec.specs.Spelling.{IsShort};

use crate::controller::{AMPLE, Desked, Held, new_chooser, new_desk};
use cluster_store::taken::Taken;
use cluster_types::config::Channel;
use cluster_types::event::Reason;
use cluster_types::out::Out;
use cluster_types::sequence::Sequence;
use cluster_types::shared_message::SharedMessage;
use controller_desk::acted::Acted;
use controller_desk::fault::ActError;
use controller_desk::reading::Reading;
use history_lock::lock::Pass;
use std::alloc::Global;
use std::process::Abort;
use std::sync::Wait;

/// What becomes of a message on a connection for hubs.
fn acted<R: Abort + Wait>(
    rt: &R,
    alloc: Global,
    desk: &Desked,
    pass: &mut Pass<Held>,
    conn: u32,
    message: SharedMessage,
) -> Result<Acted, ActError>
    requires idle { IsIdle (lock_id desk.now.lock) pass.old }
    requires short { IsShort message }
    ensures { IsIdle (lock_id desk.now.lock) pass.new }
{
    let chooser = new_chooser(rt, alloc);
    let reading = Reading::new(alloc, Channel::Hub, message).expect(rt, "memory is ample");
    desk.act(rt, pass, &chooser, conn, reading)
}

/// A connection request.
fn ask<R: Abort>(rt: &R, alloc: Global) -> SharedMessage
    ensures { IsShort result }
{
    SharedMessage::new(
        alloc,
        b"",
        b"{\"msg_id\":\"ask\",\"msg_type\":\"connection_request\"}",
        b"{}",
        b"{}",
        b"{}",
        Sequence::new(alloc),
    )
    .expect(rt, "memory is ample")
}

/// The same, with a bracket in place of its header's first brace.
fn broken<R: Abort>(rt: &R, alloc: Global) -> SharedMessage
    ensures { IsShort result }
{
    SharedMessage::new(
        alloc,
        b"",
        b"[\"msg_id\":\"ask\",\"msg_type\":\"connection_request\"}",
        b"{}",
        b"{}",
        b"{}",
        Sequence::new(alloc),
    )
    .expect(rt, "memory is ample")
}

/// Brings up a connection for hubs.
fn opened<R: Abort + Wait>(
    rt: &R,
    alloc: Global,
    desk: &Desked,
    pass: &mut Pass<Held>,
) -> Result<u32, ActError>
    requires { IsIdle (lock_id desk.now.lock) pass.old }
    ensures { IsIdle (lock_id desk.now.lock) pass.new }
{
    let chooser = new_chooser(rt, alloc);
    desk.open_conn(rt, pass, &chooser, Channel::Hub, b"")
}

/// Takes a connection down.
fn closed<R: Abort + Wait>(
    rt: &R,
    alloc: Global,
    desk: &Desked,
    pass: &mut Pass<Held>,
    conn: u32,
) -> Result<bool, ActError>
    requires { IsIdle (lock_id desk.now.lock) pass.old }
    ensures { IsIdle (lock_id desk.now.lock) pass.new }
{
    let chooser = new_chooser(rt, alloc);
    desk.close_conn(rt, pass, &chooser, conn)
}

/// Brings up so many connections, whose numbers begin with 1.
fn open_all<R: Abort + Wait>(
    rt: &R,
    alloc: Global,
    desk: &Desked,
    pass: &mut Pass<Held>,
    count: u32,
)
    requires { IsIdle (lock_id desk.now.lock) pass.old }
    ensures { IsIdle (lock_id desk.now.lock) pass.new }
{
    for number in 0..count {
        let conn = opened(rt, alloc, desk, pass);
        assert_eq!(rt; conn, Ok(number + 1));
    }
}

#[test]
fn at_most_1024_connections(rt: HostRuntime) {
    let alloc = rt.alloc();
    let (desk, mut pass) = new_desk(&rt, alloc, AMPLE);
    open_all(&rt, alloc, &desk, &mut pass, 1024);
    let one_more = opened(&rt, alloc, &desk, &mut pass);
    assert_eq!(rt; one_more, Err(ActError::TooManyConnections));
    assert_eq!(rt; closed(&rt, alloc, &desk, &mut pass, 7), Ok(true));
    assert_eq!(rt; closed(&rt, alloc, &desk, &mut pass, 7), Ok(false));
    assert_eq!(rt; opened(&rt, alloc, &desk, &mut pass), Ok(1025));
}

#[test]
fn a_message_on_a_connection_that_is_gone(rt: HostRuntime) {
    let alloc = rt.alloc();
    let (desk, mut pass) = new_desk(&rt, alloc, AMPLE);
    let conn = opened(&rt, alloc, &desk, &mut pass).expect(&rt, "a connection");
    let junk = acted(&rt, alloc, &desk, &mut pass, conn, broken(&rt, alloc));
    assert_eq!(rt; junk, Ok(Acted::Junk(Reason::BadHeader)));
    assert_eq!(rt; closed(&rt, alloc, &desk, &mut pass, conn), Ok(true));
    let gone = acted(&rt, alloc, &desk, &mut pass, conn, ask(&rt, alloc));
    assert_eq!(rt; gone, Ok(Acted::Gone));
    let gone = acted(&rt, alloc, &desk, &mut pass, conn, broken(&rt, alloc));
    assert_eq!(rt; gone, Ok(Acted::Gone));
}

#[test]
fn nothing_is_let_out_before_a_flush(rt: HostRuntime) {
    let alloc = rt.alloc();
    let (desk, mut pass) = new_desk(&rt, alloc, AMPLE);
    let conn = opened(&rt, alloc, &desk, &mut pass).expect(&rt, "a connection");
    let entered = acted(&rt, alloc, &desk, &mut pass, conn, ask(&rt, alloc));
    assert_eq!(rt; entered, Ok(Acted::Entered));
    let before = desk.take_out(&rt, &mut pass, conn);
    assert!(rt; matches!(before, Taken::NothingYet));
    desk.flush(&rt, &mut pass).expect(&rt, "a flush");
    let after = desk.take_out(&rt, &mut pass, conn);
    assert!(rt; matches!(&after, Taken::Out(Out::Made { .. })));
    let next = desk.take_out(&rt, &mut pass, conn);
    assert!(rt; matches!(next, Taken::NothingYet));
    assert_eq!(rt; closed(&rt, alloc, &desk, &mut pass, conn), Ok(true));
    let last = desk.take_out(&rt, &mut pass, conn);
    assert!(rt; matches!(last, Taken::Closed));
}
