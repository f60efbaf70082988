//! Links that are served beside each other, to their end.

ghost use Rattle.std.specs.Prelude.{◌≡◌, ◌≤◌, []};
ghost use Rattle.std.specs.Arc.{arc_value};
ghost use Rattle.history_lock.specs.Names.{IsIdle, lock_id, room_of};
ghost use Rattle.record_codec.specs.Spelling.{IsShort};

use crate::controller::{
    AMPLE, ASK, Desked, Held, OWN, Types, hub_ports, in_one_piece, in_two_pieces, new_chooser,
    new_desk, new_gate, new_key, port_of,
};
use crate::gate::{CountGate, Step};
use cluster_store::taken::Taken;
use cluster_types::config::Channel;
use cluster_types::out::Out;
use cluster_types::sequence::Sequence;
use cluster_types::shared_message::SharedMessage;
use controller_desk::acted::Acted;
use controller_desk::reading::Reading;
use controller_threads::end::ServeEnd;
use controller_threads::ports::Ports;
use controller_threads::serving::serve;
use controller_threads::shared::Serving;
use history_lock::lock::Pass;
use std::alloc::Global;
use std::process::Abort;
use std::sync::{Arc, Wait};
use std::thread::Threads;
use std::time;
use thread_edges::gate::Point;
use thread_edges::memory::MemListener;
use thread_edges::spawner::Spawner;

/// The registration of the engine `e0`, signed under the key `k`, as all messages here.
const JOIN: &[u8] =
    b"\x01\x09<IDS|MSG>\x01@d2f52e7ee3d1bb06564157fe40e43ed04a1d7379b14330f3fc557ded7a84af38\x016{\"msg_id\":\"join-e0\",\"msg_type\":\"registration_request\"}\x01\x02{}\x01\x02{}\0\x0d{\"uuid\":\"e0\"}";

/// The task `a`.
const TASK: &[u8] =
    b"\x01\x09<IDS|MSG>\x01@869cf3a0adf8201e285e6b6dadd3139f73a97c417b5c38e27ce23d08cabbed7b\x01+{\"msg_id\":\"a\",\"msg_type\":\"execute_request\"}\x01\x02{}\x01\x02{}\0\x0e{\"code\":\"6*7\"}";

/// The reply to it.
const REPLY: &[u8] =
    b"\x01\x09<IDS|MSG>\x01@ccf2684f44c6addbd4cf5d17047d3afe17bc21b53fc7c6815868a25cc6993321\x01*{\"msg_id\":\"r1\",\"msg_type\":\"execute_reply\"}\x01\x0e{\"msg_id\":\"a\"}\x01\x02{}\0\x1d{\"status\":\"ok\",\"result\":\"42\"}";

/// What a result request for `a` is answered then.
const RESULT: &[u8] =
    b"{\"status\":\"ok\",\"pending\":[],\"completed\":[\"a\"],\"results\":{\"a\":{\"engine\":0,\"verdict\":\"completed\",\"cause\":\"Reply\",\"header\":{\"msg_id\":\"r1\",\"msg_type\":\"execute_reply\"},\"metadata\":{},\"content\":{\"status\":\"ok\",\"result\":\"42\"},\"buffers\":0}}}";

/// Serves ports in threads until all links have ended, and gives the pass.
pub fn served_to_the_end<
    R: Abort + Wait + Threads + time::Clock + Drop + Copy + Send + Sync + 'static,
>(
    rt: &R,
    alloc: Global,
    ports: Ports<MemListener>,
    desk: &Arc<Desked, Global>,
    pass: Pass<Held>,
    gate: &Arc<CountGate<R>, Global>,
) -> Pass<Held>
    requires idle { IsIdle (lock_id (arc_value desk.now).lock) pass }
    requires room { 3 ≤ room_of pass }
    ensures { IsIdle (lock_id (arc_value desk.now).lock) result }
{
    let key = new_key(rt, alloc);
    let served = Arc::try_clone(desk).expect(rt, "memory is ample");
    let gate = Arc::try_clone(gate).expect(rt, "memory is ample");
    let mut spawner = Spawner::beside(alloc, *rt).expect(rt, "memory is ample");
    let serving = Serving::<Types<R>> {
        rt: *rt,
        alloc,
        desk: served,
        key,
        gate,
    };
    match serve(serving, ports, pass, &mut spawner) {
        ServeEnd::Ended { pass, .. } => pass,
        _ => panic!(rt; "the controller ends before its links"),
    }
}

/// Whether nothing is left to take for a connection, which isn't live.
fn is_closed<R: Wait>(rt: &R, desk: &Desked, pass: &mut Pass<Held>, conn: u32) -> bool
    requires { IsIdle (lock_id desk.now.lock) pass.old }
    ensures { IsIdle (lock_id desk.now.lock) pass.new }
{
    matches!(desk.take_out(rt, pass, conn), Taken::Closed)
}

/// The number of the next connection, on the channel for hubs.
pub fn next_number<R: Abort + Wait>(
    rt: &R,
    alloc: Global,
    desk: &Desked,
    pass: &mut Pass<Held>,
) -> u32
    requires { IsIdle (lock_id desk.now.lock) pass.old }
    ensures { IsIdle (lock_id desk.now.lock) pass.new }
{
    let chooser = new_chooser(rt, alloc);
    match desk.open_conn(rt, pass, &chooser, Channel::Hub, b"") {
        Ok(conn) => conn,
        Err(error) => panic!(rt; "{error:?}"),
    }
}

/// How many of the connections 1 to 5 have an out that was written once, and nothing left to take.
fn answered_once<R: Abort + Wait + time::Clock + Drop>(
    rt: &R,
    desk: &Desked,
    pass: &mut Pass<Held>,
    gate: &CountGate<R>,
) -> u32
    requires { IsIdle (lock_id desk.now.lock) pass.old }
    ensures { IsIdle (lock_id desk.now.lock) pass.new }
{
    let mut answered: u32 = 0;
    for conn in 1..6 {
        if gate.passes(Point::Wrote, conn) == 1 && is_closed(rt, desk, pass, conn) {
            answered = answered.saturating_add(1);
        }
    }
    answered
}

#[test]
fn five_links(rt: HostRuntime) {
    let alloc = rt.alloc();
    let (desk, pass) = new_desk(&rt, alloc, AMPLE);
    let desk = Arc::new(alloc, desk).expect(&rt, "memory is ample");
    let held = [(Point::Beat, 0), (Point::Time, 0)];
    let gate = new_gate(&rt, alloc, &held, (Point::Wrote, 5), &[]);
    let link = in_one_piece(&rt, alloc, ASK);
    let ports = hub_ports(&rt, alloc, &[&link, &link, &link, &link, &link]);
    let mut pass = served_to_the_end(&rt, alloc, ports, &desk, pass, &gate);
    assert!(rt; !gate.gave_up());
    assert_eq!(rt; answered_once(&rt, &desk, &mut pass, &gate), 5);
    assert_eq!(rt; next_number(&rt, alloc, &desk, &mut pass), 6);
}

#[test]
fn a_link_that_is_held(rt: HostRuntime) {
    let alloc = rt.alloc();
    let (desk, pass) = new_desk(&rt, alloc, AMPLE);
    let desk = Arc::new(alloc, desk).expect(&rt, "memory is ample");
    let gate = new_gate(&rt, alloc, &[(Point::Read, 1)], (Point::Wrote, 2), &[]);
    let link = in_one_piece(&rt, alloc, ASK);
    let ports = hub_ports(&rt, alloc, &[&link, &link]);
    let mut pass = served_to_the_end(&rt, alloc, ports, &desk, pass, &gate);
    assert!(rt; !gate.gave_up());
    assert_eq!(rt;
        (gate.passes(Point::Wrote, 1), gate.passes(Point::Wrote, 2)),
        (1, 1)
    );
    assert!(rt; is_closed(&rt, &desk, &mut pass, 1) && is_closed(&rt, &desk, &mut pass, 2));
}

/// A link stays open for two hundred flushes, of which only the first makes something safe for it.
#[test]
fn a_writer_without_news(rt: HostRuntime) {
    let alloc = rt.alloc();
    let (desk, pass) = new_desk(&rt, alloc, AMPLE);
    let desk = Arc::new(alloc, desk).expect(&rt, "memory is ample");
    let step = Step {
        held: (Point::Read, 1, 2),
        until: (Point::Flush, 0, 200),
    };
    let gate = new_gate(&rt, alloc, &[], (Point::Wrote, 7), &[step]);
    let link = in_two_pieces(&rt, alloc, ASK, b"");
    let ports = hub_ports(&rt, alloc, &[&link]);
    let mut pass = served_to_the_end(&rt, alloc, ports, &desk, pass, &gate);
    assert!(rt; !gate.gave_up());
    assert!(rt; gate.passes(Point::Idle, 1) <= 20);
    assert_eq!(rt; gate.passes(Point::Wrote, 1), 1);
    assert!(rt; is_closed(&rt, &desk, &mut pass, 1));
}

/// The result request for `a`.
fn result_request<R: Abort>(rt: &R, alloc: Global) -> SharedMessage
    ensures { IsShort result }
{
    SharedMessage::new(
        alloc,
        b"",
        b"{\"msg_id\":\"ask\",\"msg_type\":\"result_request\"}",
        b"{}",
        b"{}",
        b"{\"msg_ids\":[\"a\"]}",
        Sequence::new(alloc),
    )
    .expect(rt, "memory is ample")
}

/// Whether a controller answers so what became of the task `a`.
fn has_result<R: Abort + Wait>(
    rt: &R,
    alloc: Global,
    desk: &Desked,
    pass: &mut Pass<Held>,
    wanted: &[u8],
) -> bool
    requires { IsIdle (lock_id desk.now.lock) pass.old }
    ensures { IsIdle (lock_id desk.now.lock) pass.new }
{
    let chooser = new_chooser(rt, alloc);
    let conn = next_number(rt, alloc, desk, pass);
    let reading = Reading::new(alloc, Channel::Hub, result_request(rt, alloc)).expect(
        rt,
        "memory is ample",
    );
    let acted = desk.act(rt, pass, &chooser, conn, reading);
    assert_eq!(rt; acted, Ok(Acted::Entered));
    desk.flush(rt, pass).expect(rt, "a flush");
    let taken = desk.take_out(rt, pass, conn);
    match &taken {
        Taken::Out(Out::Made { content, .. }) => content.as_slice() == wanted,
        _ => false,
    }
}

/// The steps by which the task `a` goes to the engine on connection 1 and comes back to the client on connection 2: the reply
/// isn't read before the task was written, and the client's stream doesn't end before the reply was. No beat comes before.
fn steps() -> [Step; 4] {
    [
        Step {
            held: (Point::Read, 1, 2),
            until: (Point::Wrote, 1, 2),
        },
        Step {
            held: (Point::Read, 2, 2),
            until: (Point::Wrote, 2, 1),
        },
        Step {
            held: (Point::Beat, 0, 1),
            until: (Point::Wrote, 2, 1),
        },
        Step {
            held: (Point::Time, 0, 1),
            until: (Point::Wrote, 2, 1),
        },
    ]
}

/// Ports with an engine and a client. Ahead of the client comes a link that ends at once.
fn engine_and_client<R: Abort>(rt: &R, alloc: Global) -> Ports<MemListener> {
    let cut = Vec::from_slice(alloc, &OWN[..12]).expect(rt, "memory is ample");
    let engine = in_two_pieces(rt, alloc, JOIN, REPLY);
    let client = in_two_pieces(rt, alloc, TASK, b"");
    Ports {
        hub: port_of(rt, alloc, &[], &[]),
        task: port_of(rt, alloc, &[&cut, &client], &[]),
        mux: port_of(rt, alloc, &[], &[]),
        engine: port_of(rt, alloc, &[&engine], &[]),
    }
}

#[test]
fn a_task(rt: HostRuntime) {
    let alloc = rt.alloc();
    let (desk, pass) = new_desk(&rt, alloc, AMPLE);
    let desk = Arc::new(alloc, desk).expect(&rt, "memory is ample");
    let gate = new_gate(
        &rt,
        alloc,
        &[(Point::Accepted, 0)],
        (Point::Wrote, 1),
        &steps(),
    );
    let ports = engine_and_client(&rt, alloc);
    let mut pass = served_to_the_end(&rt, alloc, ports, &desk, pass, &gate);
    assert!(rt; !gate.gave_up());
    assert_eq!(rt; gate.passes(Point::Wrote, 2), 1);
    assert!(rt; is_closed(&rt, &desk, &mut pass, 1) && is_closed(&rt, &desk, &mut pass, 2));
    assert!(rt; has_result(&rt, alloc, &desk, &mut pass, RESULT));
}
