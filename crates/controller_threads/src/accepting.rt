//! The acceptors.

use crate::handed::{AcceptedLink, Handed, failed_port};
use crate::naming::Naming;
use crate::port::Port;
use crate::ports::ended_port;
use crate::shared::Shared;
use cluster_types::config::Channel;
use session_threads::context::{LockedOf, SessionTypes};
use std::alloc::Global;
use std::sync::{Arc, Wait};
use thread_edges::gate::{Gate, Point};
use thread_edges::links::Accepted;
use thread_edges::spawner::Job;

/// Accepts the links of a port.
#[derive(Drop)]
pub struct Accepting<P: Port, T: SessionTypes, N: Naming> {
    pub shared: Arc<Shared<P, T, N>, Global>,
    pub channel: Channel,
    pub port: P,
}

impl<P: Port + Drop, T: SessionTypes, N: Naming> Shared<P, T, N> {
    /// Enters a link among those that haven't signed anything, and hands it over. Where the system or the memory has nothing
    /// for it, it is dropped.
    fn hand_link(&self, channel: Channel, reader: P::In, writer: P::Out) {
        let Some(closer) = P::closer(&writer) else {
            return;
        };
        let Ok(number) = self.pending.enter(&self.serving.rt, closer) else {
            return;
        };
        self.hand(Handed::Accepted(AcceptedLink {
            channel,
            number,
            reader,
            writer,
        }));
    }

    /// Ends a link that hasn't signed anything.
    pub fn end_pending(&self, number: u64) {
        self.pending.close(&self.serving.rt, number);
    }

    /// Hands over the links of a port, until it ends or fails.
    fn accept_links(&self, channel: Channel, mut port: P) -> Handed<P, LockedOf<T>, N> {
        for _ in self.serving.rt.forever() {
            match port.accept(&self.serving.rt) {
                Accepted::Pair(reader, writer) => self.hand_link(channel, reader, writer),
                Accepted::End => return Handed::PortEnded(channel, ended_port(port)),
                Accepted::Failed => return Handed::PortFailed(failed_port(channel, port)),
            }
            self.serving.gate.pass(&self.serving.rt, Point::Accepted, 0);
        }
        unreachable!()
    }
}

impl<P: Port + Drop, T: SessionTypes, N: Naming> Job for Accepting<P, T, N> {
    fn run(self) {
        let Accepting {
            shared,
            channel,
            port,
        } = self;
        let handed = shared.accept_links(channel, port);
        shared.hand(handed);
    }
}
