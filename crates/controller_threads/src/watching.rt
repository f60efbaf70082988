//! The watch over links that haven't signed anything.

use crate::naming::Naming;
use crate::port::Port;
use crate::shared::Shared;
use session_threads::context::SessionTypes;
use std::alloc::Global;
use std::sync::{Arc, Wait};
use thread_edges::spawner::Job;

/// Ends the links that are past their time, once a second, until no links are left.
#[derive(Drop)]
pub struct Watching<P: Port, T: SessionTypes, N: Naming> {
    pub shared: Arc<Shared<P, T, N>, Global>,
}

impl<P: Port + Drop, T: SessionTypes, N: Naming> Job for Watching<P, T, N> {
    fn run(self) {
        let Watching { shared } = self;
        let rt = &shared.serving.rt;
        for _ in rt.forever() {
            shared.await_second();
            if shared.is_ending() {
                return;
            }
            shared.pending.count_second(rt);
        }
        unreachable!()
    }
}
