//! Octets that threads share.

use cluster_types::octets::Octets;
use cluster_types::sequence::Sequence;
use cluster_types::shared_message::SharedMessage;
use std::alloc::Global;
use std::process::Abort;
use std::thread;

#[test]
fn threads_share_octets(rt: HostRuntime) {
    let whole = Octets::new(rt.alloc(), b"header").expect(&rt, "memory is ample");
    let same = whole.clone().expect(&rt, "memory is ample");
    let other = thread::spawn(&rt, move || same).expect(&rt, "a thread");
    assert!(rt; other.join(&rt).is(&whole));
}

/// A message with a target and five parts.
fn message<R: Abort>(rt: &R, alloc: Global) -> SharedMessage {
    let buffers = Sequence::new(alloc);
    SharedMessage::new(alloc, b"e", b"{1}", b"{}", b"{22}", b"{333}", buffers).expect(
        rt,
        "memory is ample",
    )
}

/// The message without its target and with another header.
fn changed<R: Abort>(rt: &R, alloc: Global, message: SharedMessage) -> SharedMessage {
    let message = message.without_target(alloc).expect(rt, "memory is ample");
    message
        .with_header(alloc, b"{4}")
        .expect(rt, "memory is ample")
}

#[test]
fn parts_are_found(rt: HostRuntime) {
    let message = changed(&rt, rt.alloc(), message(&rt, rt.alloc()));
    assert_eq!(rt; message.target(), b"".as_slice());
    assert_eq!(rt; message.header(), b"{4}".as_slice());
    assert_eq!(rt; message.parent(), b"{}".as_slice());
    assert_eq!(rt; message.metadata(), b"{22}".as_slice());
    assert_eq!(rt; message.content(), b"{333}".as_slice());
    assert!(rt; message.buffers().is_empty());
}
