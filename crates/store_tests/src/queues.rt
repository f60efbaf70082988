//! Outs that wait in queues.

ghost use Rattle.std.specs.Prelude.{◌≡◌};

use crate::stores::{Answer, is_answer};
use cluster_store::queues::Queues;
use cluster_types::out::{Out, Outs};
use cluster_types::sequence::Sequence;
use cluster_types::shared_message::SharedMessage;
use std::alloc::Global;
use std::process::Abort;

/// Outs to these connections, in order.
fn outs_to<R: Abort>(rt: &R, alloc: Global, conns: &[u32]) -> Outs {
    let mut outs = Sequence::new(alloc);
    for conn in conns {
        let buffers = Sequence::new(alloc);
        let message = SharedMessage::new(alloc, b"", b"{}", b"{}", b"{}", b"{}", buffers).expect(
            rt,
            "memory is ample",
        );
        let out = Out::Pass {
            conn: *conn,
            message,
        };
        outs.push(out).expect(rt, "memory is ample");
    }
    outs
}

/// Takes, one after another, where outs to the connections 1, 2 and 1 wait for three entries to be safe: the connection,
/// how many entries are safe, whether the connection is live, and the answer.
const TAKES: &[(u32, u64, bool, Answer)] = &[
    (1, 2, true, Answer::NothingYet),
    (1, 3, true, Answer::Out),
    (2, 2, false, Answer::NothingYet),
    (2, 3, false, Answer::Out),
    (2, 3, false, Answer::Closed),
    (1, 3, true, Answer::Out),
    (1, 3, true, Answer::NothingYet),
    (1, 3, false, Answer::Closed),
];

#[test]
fn queues(rt: HostRuntime) {
    let alloc = rt.alloc();
    let mut queues = Queues::new(alloc);
    let outs = outs_to(&rt, alloc, &[1, 2, 1]);
    queues
        .make_rooms(outs.as_slice())
        .expect(&rt, "memory is ample");
    queues.push_all(outs, 3);
    for (conn, mark, live, answer) in TAKES {
        let has_news = queues.has_news(*conn, *mark, *live);
        assert_eq!(rt; has_news, *answer != Answer::NothingYet);
        assert!(rt; is_answer(&queues.hand_out(*conn, *mark, *live), *answer));
    }
}
