//! What the tests of several modules share.

ghost use Rattle.std.specs.Prelude.{◌≡◌, ◌<◌, length};
ghost use Rattle.cluster_defs.specs.Scheduling.{pick};

use cluster_types::config::Scheme;
use cluster_types::sequence::Sequence;
use cluster_types::shared_message::SharedMessage;
use cluster_types::text::Text;
use load_schemes::chooser::{Choose, Chooser};
use load_schemes::place::place_of;
use place_sets::counts::count;
use std::alloc::Global;
use std::process::Abort;

pub(crate) fn text<R: Abort>(rt: &R, alloc: Global, name: &str) -> Text {
    Text::new(alloc, name).expect(rt, "memory is ample")
}

/// A message with this header, whose other parts are empty objects.
pub(crate) fn message<R: Abort>(rt: &R, alloc: Global, header: &[u8]) -> SharedMessage {
    let buffers = Sequence::new(alloc);
    SharedMessage::new(alloc, b"", header, b"{}", b"{}", b"{}", buffers).expect(
        rt,
        "memory is ample",
    )
}

/// Whether a number has this count.
pub(crate) fn counts_are(counts: &Option<Vec<u32>>, number: u32, wanted: u32) -> bool {
    match counts {
        Some(counts) => count(counts, number) == wanted,
        None => false,
    }
}

/// A chooser that places tasks as a controller does.
pub(crate) fn new_chooser<R: Abort>(rt: &R, alloc: Global) -> Chooser {
    let choose: Choose = Box::new(
        alloc,
        |scheme: Scheme, loads: &[u32], word: u64| -> usize
            requires { 0 < length loads.now }
            ensures { result ≡ pick scheme loads.now word }
        { place_of(scheme, loads, word) },
    )
    .expect(rt, "memory is ample");
    Chooser::new(choose)
}
