//! A port of a controller.

ghost use Rattle.std.specs.Prelude.{List, ℕ, Option};
ghost use Rattle.thread_edges.specs.Links.{Accepts, LinkCause};

use crate::closing::{Closer, Closing};
use edges::sink::Sink;
use edges::source::Source;
use std::sync::Wait;
use thread_edges::links::{Accepted, Listener};

/// A listener, whose links only those who start jobs move to other threads.
pub trait Port {
    type In: Source + Drop;

    type Out: Sink + Drop;

    /// What ends a link.
    type Closer: Closer + Drop;

    /// The links that still come, where the port tells.
    ghost links: { Self → Option (List (Self.In × Self.Out)) };

    /// How often an accept has failed.
    ghost faults: { Self → ℕ };

    /// Waits for the next link.
    fn accept<R: Wait>(&mut self, rt: &R) -> Accepted<Self::In, Self::Out>
        ensures accepts { Accepts result (links self.old) (links self.new) }
        ensures cause { LinkCause result (faults self.old) (faults self.new) };

    /// What ends the link of this writing half. `None` where the system has nothing for it.
    fn closer(writer: &Self::Out) -> Option<Self::Closer>;

    /// Ends the link of this writing half.
    fn close(writer: &Self::Out);
}

impl<L: Listener> Port for L
where
    L::Out: Closing,
{
    type In = L::In;

    type Out = L::Out;

    type Closer = <L::Out as Closing>::Closer;

    ghost links = { L.links };

    ghost faults = { L.faults };

    fn accept<R: Wait>(&mut self, rt: &R) -> Accepted<L::In, L::Out> {
        Listener::accept(self, rt)
    }

    fn closer(writer: &L::Out) -> Option<<L::Out as Closing>::Closer> {
        writer.closer()
    }

    fn close(writer: &L::Out) {
        writer.close();
    }
}
