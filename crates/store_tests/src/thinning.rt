//! Thin histories of a small cluster.

ghost use Rattle.std.specs.Prelude.{◌≡◌, IfOk};
ghost use Rattle.cluster_types.specs.declared.entry.Entry.{Entry};
ghost use Rattle.cluster_state.specs.Plain.{InTime};

use crate::choosing::new_chooser;
use cluster_core::machine::Core;
use cluster_types::config::{Channel, Scheme};
use cluster_types::entry::{Entries, Entry, Input};
use cluster_types::message::Buffers;
use cluster_types::octets::Octets;
use cluster_types::shared_message::SharedMessage;
use database_text::thinning::thinned;
use load_schemes::chooser::Chooser;
use std::alloc::{AllocError, Global};
use std::process::Abort;

/// What is said on a connection: 1 is that of an engine, 2 one for tasks, 3 one of the hub.
#[derive(Clone, Copy)]
struct Said {
    conn: u32,
    header: &'static [u8],
    parent: &'static [u8],
    content: &'static [u8],
}

/// The engine `e0` joins.
const JOIN: Said = Said {
    conn: 1,
    header: b"{\"msg_id\":\"j\",\"msg_type\":\"registration_request\"}",
    parent: b"{}",
    content: b"{\"uuid\":\"e0\"}",
};

/// The task `a`.
const SUBMIT: Said = Said {
    conn: 2,
    header: b"{\"msg_id\":\"a\",\"msg_type\":\"execute_request\"}",
    parent: b"{}",
    content: b"{\"code\":\"6*7\"}",
};

/// The reply to it.
const REPLY: Said = Said {
    conn: 1,
    header: b"{\"msg_id\":\"r1\",\"msg_type\":\"execute_reply\"}",
    parent: b"{\"msg_id\":\"a\"}",
    content: b"{\"status\":\"ok\",\"execution_count\":1}",
};

/// It is resubmitted, as `resubmit:2`.
const AGAIN: Said = Said {
    conn: 3,
    header: b"{\"msg_id\":\"s\",\"msg_type\":\"resubmit_request\"}",
    parent: b"{}",
    content: b"{\"msg_ids\":[\"a\"]}",
};

/// The copy fails.
const FAILURE: Said = Said {
    conn: 1,
    header: b"{\"msg_id\":\"r2\",\"msg_type\":\"execute_reply\"}",
    parent: b"{\"msg_id\":\"resubmit:2\"}",
    content: b"{\"status\":\"error\",\"ename\":\"Zero\"}",
};

/// The task `a` is purged.
const PURGE: Said = Said {
    conn: 3,
    header: b"{\"msg_id\":\"p\",\"msg_type\":\"purge_request\"}",
    parent: b"{}",
    content: b"{\"msg_ids\":[\"a\"]}",
};

/// All that is settled is purged.
const PURGE_ALL: Said = Said {
    conn: 3,
    header: b"{\"msg_id\":\"q\",\"msg_type\":\"purge_request\"}",
    parent: b"{}",
    content: b"{\"msg_ids\":\"all\"}",
};

/// An Open under the default options.
fn open() -> Input
    ensures { InTime (Entry.Input result) }
{
    Input::Open {
        moment: 0,
        scheme: Scheme::LeastLoad,
        hwm: 1,
        misses: 10,
    }
}

/// A connection comes up.
fn up<R: Abort>(rt: &R, alloc: Global, conn: u32, channel: Channel) -> Input
    ensures { InTime (Entry.Input result) }
{
    let identity = Octets::new(alloc, b"c").expect(rt, "memory is ample");
    Input::Up {
        conn,
        channel,
        moment: 0,
        word: 0,
        identity,
    }
}

/// The input of what is said, with a buffer.
fn input_of<R: Abort>(rt: &R, alloc: Global, said: Said) -> Input
    ensures { InTime (Entry.Input result) }
{
    let mut buffers = Buffers::new(alloc);
    let raw = Octets::new(alloc, b"raw").expect(rt, "memory is ample");
    buffers.push(raw).expect(rt, "memory is ample");
    let message = SharedMessage::new(
        alloc,
        b"",
        said.header,
        said.parent,
        b"{}",
        said.content,
        buffers,
    )
    .expect(rt, "memory is ample");
    Input::In {
        conn: said.conn,
        moment: 0,
        word: 0,
        message,
    }
}

/// Takes the step of an input, where it may come.
fn step<R: Abort>(rt: &R, core: &mut Core, chooser: &Chooser, input: Input)
    requires { InTime (Entry.Input input) }
{
    let meaning = core.understand(&input).expect(rt, "memory is ample");
    let may = core
        .may_take(&input, &meaning.event)
        .expect(rt, "memory is ample");
    if may {
        let plan = core.plan(chooser, input, meaning).expect(rt, "a step");
        let _made = core.apply(plan);
    }
}

/// A core after this was said.
fn core_after<R: Abort>(rt: &R, alloc: Global, chooser: &Chooser, words: &[Said]) -> Core {
    let mut core = Core::new(alloc);
    step(rt, &mut core, chooser, open());
    step(rt, &mut core, chooser, up(rt, alloc, 1, Channel::Engine));
    step(rt, &mut core, chooser, up(rt, alloc, 2, Channel::Task));
    step(rt, &mut core, chooser, up(rt, alloc, 3, Channel::Hub));
    for said in words {
        let input = input_of(rt, alloc, *said);
        step(rt, &mut core, chooser, input);
    }
    core
}

/// A copy of a list, whose entries share what they hold.
fn copied(alloc: Global, list: &[Entry]) -> Result<Entries, AllocError>
    ensures { IfOk result (λ copied. copied ≡ list.now) }
{
    let mut copied = Entries::new(alloc);
    for entry in list {
        copied.push(entry.clone()?)?;
    }
    Ok(copied)
}

/// The thin history of a core.
fn thin_of(alloc: Global, core: &Core) -> Result<Entries, AllocError> {
    let entries = copied(alloc, core.history())?;
    thinned(alloc, &entries)
}

/// A content that a message has, and whether it has buffers.
type Content<'a> = (&'a [u8], bool);

/// Whether the messages of some entries have these contents, one after another.
fn is_saying(entries: &[Entry], contents: &[Content]) -> bool {
    let mut left = contents;
    for entry in entries {
        if let Entry::Input(Input::In { message, .. }) = entry {
            let buffers = !message.buffers().is_empty();
            match left {
                [(content, whole), behind @ ..]
                    if *content == message.content() && *whole == buffers => {
                    left = behind;
                }
                _ => return false,
            }
        }
    }
    left.is_empty()
}

/// Whether the thin history after this was said has as many entries as the whole one, with these contents.
fn thins_to<R: Abort>(
    rt: &R,
    alloc: Global,
    chooser: &Chooser,
    words: &[Said],
    contents: &[Content],
) -> bool {
    let core = core_after(rt, alloc, chooser, words);
    let thin = thin_of(alloc, &core).expect(rt, "memory is ample");
    thin.len() == core.history().len() && is_saying(thin.as_slice(), contents)
}

/// What a request that is let go has in place of its content.
const GONE: Content = (b"{}", false);

/// The same of an ok reply.
const OK: Content = (b"{\"status\":\"ok\"}", false);

/// The same of a reply that tells of an error.
const ERROR: Content = (b"{\"status\":\"error\"}", false);

/// The content of what was said, with its buffer.
const fn whole(said: Said) -> Content<'static> {
    (said.content, true)
}

#[test]
fn thin_histories(rt: HostRuntime) {
    let alloc = rt.alloc();
    let chooser = new_chooser(&rt, alloc);
    let purged = thins_to(
        &rt,
        alloc,
        &chooser,
        &[JOIN, SUBMIT, REPLY, PURGE],
        &[whole(JOIN), GONE, OK, whole(PURGE)],
    );
    assert!(rt; purged);
    // The copy isn't purged, so the content stays that it has from the original.
    let copied = thins_to(
        &rt,
        alloc,
        &chooser,
        &[JOIN, SUBMIT, REPLY, AGAIN, PURGE],
        &[whole(JOIN), whole(SUBMIT), OK, whole(AGAIN), whole(PURGE)],
    );
    assert!(rt; copied);
    let both = thins_to(
        &rt,
        alloc,
        &chooser,
        &[JOIN, SUBMIT, REPLY, AGAIN, PURGE, FAILURE, PURGE_ALL],
        &[
            whole(JOIN),
            GONE,
            OK,
            whole(AGAIN),
            whole(PURGE),
            ERROR,
            whole(PURGE_ALL),
        ],
    );
    assert!(rt; both);
    let unpurged = thins_to(
        &rt,
        alloc,
        &chooser,
        &[JOIN, SUBMIT, REPLY, AGAIN],
        &[whole(JOIN), whole(SUBMIT), whole(REPLY), whole(AGAIN)],
    );
    assert!(rt; unpurged);
}
