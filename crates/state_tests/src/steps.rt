//! Steps of a small cluster.

ghost use Rattle.cluster_types.specs.declared.entry.Entry.{Entry};
ghost use Rattle.cluster_state.specs.Plain.{InTime};

use crate::common::new_chooser;
use cluster_core::machine::{Core, Made};
use cluster_core::plan::PlanError;
use cluster_core::size::HistorySize;
use cluster_types::config::{Channel, Scheme};
use cluster_types::entry::Input;
use cluster_types::octets::Octets;
use cluster_types::sequence::Sequence;
use cluster_types::shared_message::SharedMessage;
use load_schemes::chooser::Chooser;
use std::alloc::Global;
use std::process::Abort;

pub(crate) fn open() -> Input
    ensures { InTime (Entry.Input result) }
{
    Input::Open {
        moment: 0,
        scheme: Scheme::LeastLoad,
        hwm: 1,
        misses: 10,
    }
}

pub(crate) fn up<R: Abort>(rt: &R, alloc: Global, conn: u32, channel: Channel) -> Input
    ensures { InTime (Entry.Input result) }
{
    let identity = Octets::new(alloc, b"e").expect(rt, "memory is ample");
    Input::Up {
        conn,
        channel,
        moment: 0,
        word: 0,
        identity,
    }
}

fn down(conn: u32) -> Input
    ensures { InTime (Entry.Input result) }
{
    Input::Down {
        conn,
        moment: 0,
        word: 0,
    }
}

fn message<R: Abort>(rt: &R, alloc: Global, header: &[u8], content: &[u8]) -> SharedMessage {
    let buffers = Sequence::new(alloc);
    SharedMessage::new(alloc, b"", header, b"{}", b"{}", content, buffers).expect(
        rt,
        "memory is ample",
    )
}

fn said<R: Abort>(rt: &R, alloc: Global, conn: u32, header: &[u8], content: &[u8]) -> Input
    ensures { InTime (Entry.Input result) }
{
    let message = message(rt, alloc, header, content);
    Input::In {
        conn,
        moment: 0,
        word: 0,
        message,
    }
}

/// What a step made, where the input may come.
pub(crate) fn made<R: Abort>(
    rt: &R,
    core: &mut Core,
    chooser: &Chooser,
    input: Input,
) -> Result<Option<Made>, PlanError>
    requires { InTime (Entry.Input input) }
{
    let meaning = core.understand(&input).expect(rt, "memory is ample");
    let may = core
        .may_take(&input, &meaning.event)
        .expect(rt, "memory is ample");
    if !may {
        return Ok(None);
    }
    let plan = core.plan(chooser, input, meaning)?;
    Ok(Some(core.apply(plan)))
}

/// How many outs and kept entries a step made, where the input may come.
fn step<R: Abort>(
    rt: &R,
    core: &mut Core,
    chooser: &Chooser,
    input: Input,
) -> Result<Option<(usize, usize)>, PlanError>
    requires { InTime (Entry.Input input) }
{
    match made(rt, core, chooser, input) {
        Ok(Some(made)) => Ok(Some((made.outs.len(), made.kept.len()))),
        Ok(None) => Ok(None),
        Err(error) => Err(error),
    }
}

/// The same of a step that has room.
pub(crate) fn taken<R: Abort>(
    rt: &R,
    core: &mut Core,
    chooser: &Chooser,
    input: Input,
) -> Option<(usize, usize)>
    requires { InTime (Entry.Input input) }
{
    step(rt, core, chooser, input).expect(rt, "a step")
}

/// A core in which `e0` has joined on connection 1.
fn joined<R: Abort>(rt: &R, alloc: Global, chooser: &Chooser) -> Core {
    let mut core = Core::new(alloc);
    let _ = taken(rt, &mut core, chooser, open());
    let _ = taken(rt, &mut core, chooser, up(rt, alloc, 1, Channel::Engine));
    let join = said(
        rt,
        alloc,
        1,
        b"{\"msg_id\":\"j\",\"msg_type\":\"registration_request\"}",
        b"{\"uuid\":\"e0\"}",
    );
    let _ = taken(rt, &mut core, chooser, join);
    core
}

/// How many entries a core has.
fn history_len(core: &Core) -> usize {
    core.history().len()
}

/// A request is accepted, and handed out at once.
fn hands_out<R: Abort>(rt: &R, alloc: Global, chooser: &Chooser) -> bool {
    let mut core = joined(rt, alloc, chooser);
    let _ = taken(rt, &mut core, chooser, up(rt, alloc, 2, Channel::Task));
    let submit = said(
        rt,
        alloc,
        2,
        b"{\"msg_id\":\"a\",\"msg_type\":\"execute_request\"}",
        b"{\"code\":\"6*7\"}",
    );
    let made = taken(rt, &mut core, chooser, submit);
    made == Some((1, 2)) && history_len(&core) == 6
}

/// What lives is told, and what can't come is refused.
fn connections<R: Abort>(rt: &R, alloc: Global, chooser: &Chooser) -> bool {
    let mut core = joined(rt, alloc, chooser);
    let again = taken(rt, &mut core, chooser, up(rt, alloc, 1, Channel::Hub));
    let unknown = taken(rt, &mut core, chooser, down(7));
    let before = core.is_live(1) && core.live_conns() == 1 && !core.stopping();
    let ended = taken(rt, &mut core, chooser, down(1));
    let after = !core.is_live(1) && core.live_conns() == 0;
    again.is_none() && unknown.is_none() && ended == Some((0, 1)) && before && after
}

/// A shutdown is answered, isn't kept, and is remembered.
fn stops<R: Abort>(rt: &R, alloc: Global, chooser: &Chooser) -> bool {
    let mut core = joined(rt, alloc, chooser);
    let _ = taken(rt, &mut core, chooser, up(rt, alloc, 2, Channel::Hub));
    let ask = said(
        rt,
        alloc,
        2,
        b"{\"msg_id\":\"s\",\"msg_type\":\"shutdown_request\"}",
        b"{}",
    );
    let made = taken(rt, &mut core, chooser, ask);
    made == Some((1, 0)) && core.stopping()
}

/// Three connections come up after the Open, and the fourth would pass the limit: each record has 24 octets.
fn is_full<R: Abort>(rt: &R, alloc: Global, chooser: &Chooser) -> bool {
    let mut core = Core::new(alloc);
    core.set_limits(HistorySize {
        entries: 3,
        bytes: 1000,
    });
    let _ = taken(rt, &mut core, chooser, open());
    for conn in 1..4 {
        let _ = taken(rt, &mut core, chooser, up(rt, alloc, conn, Channel::Hub));
    }
    let refused = step(rt, &mut core, chooser, up(rt, alloc, 4, Channel::Hub));
    let full = PlanError::HistoryFull {
        entries: 4,
        bytes: 96,
    };
    let size = HistorySize {
        entries: 3,
        bytes: 72,
    };
    refused == Err(full) && core.size() == size && core.live_conns() == 3
}

#[test]
fn steps(rt: HostRuntime) {
    let alloc = rt.alloc();
    let chooser = new_chooser(&rt, alloc);
    assert!(rt; hands_out(&rt, alloc, &chooser));
    assert!(rt; connections(&rt, alloc, &chooser));
    assert!(rt; stops(&rt, alloc, &chooser));
    assert!(rt; is_full(&rt, alloc, &chooser));
}
