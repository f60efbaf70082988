//! The chooser of the tests.

ghost use Rattle.std.specs.Prelude.{◌≡◌, ◌<◌, length};
ghost use Rattle.cluster_defs.specs.Scheduling.{pick};

use cluster_types::config::Scheme;
use load_schemes::chooser::{Choose, Chooser};
use load_schemes::place::place_of;
use std::alloc::Global;
use std::process::Abort;

/// A chooser that places tasks as a controller does.
pub(crate) fn new_chooser<R: Abort>(rt: &R, alloc: Global) -> Chooser {
    let choose: Choose = Box::new(
        alloc,
        |scheme: Scheme, loads: &[u32], word: u64| -> usize
            requires { 0 < length loads.now }
            ensures { result ≡ pick scheme loads.now word }
        { place_of(scheme, loads, word) },
    )
    .expect(rt, "memory is ample");
    Chooser::new(choose)
}
