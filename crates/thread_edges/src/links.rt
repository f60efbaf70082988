//! Links to other machines, accepted or dialled.

ghost use Rattle.std.specs.Prelude.{◌≡◌, ◌≢◌, List, ℕ, Option, Some, None};
ghost use Rattle.thread_edges.specs.Links.{Accepts, Dialling, IsFresh, LinkCause, dialled_once};

use edges::sink::Sink;
use edges::source::Source;
use std::sync::Wait;

/// A link, or why there is none.
#[derive(Drop)]
pub enum Accepted<I, O> {
    Pair(I, O),
    End,
    Failed,
}

pub trait Listener {
    type In: Source + Drop + Send + 'static;

    type Out: Sink + Drop + Send + 'static;

    /// The links that still come, where the listener tells.
    ghost links: { Self → Option (List (Self.In × Self.Out)) };

    /// How often an accept has failed.
    ghost faults: { Self → ℕ };

    /// Waits for the next link.
    fn accept<R: Wait>(&mut self, rt: &R) -> Accepted<Self::In, Self::Out>
        ensures accepts { Accepts result (links self.old) (links self.new) }
        ensures fresh { IsFresh Self.In.faults Self.Out.faults Self.Out.written result }
        ensures cause { LinkCause result (faults self.old) (faults self.new) };
}

pub trait Dialer {
    type In: Source + Drop + Send + 'static;

    type Out: Sink + Drop + Send + 'static;

    /// The links that still come, where the dialer tells.
    ghost links: { Self → Option (List (Self.In × Self.Out)) };

    /// How often a dial has failed.
    ghost faults: { Self → ℕ };

    /// How often it was told to dial, and over which channel last.
    ghost dialled: { Self → Dialling };

    /// Makes a link to the controller, over this one of its channels.
    fn dial(&mut self, channel: u8) -> Accepted<Self::In, Self::Out>
        ensures accepts { Accepts result (links self.old) (links self.new) }
        ensures answers { result ≢ Accepted.End }
        ensures fresh { IsFresh Self.In.faults Self.Out.faults Self.Out.written result }
        ensures cause { LinkCause result (faults self.old) (faults self.new) }
        ensures channel { dialled self.new ≡ dialled_once channel (dialled self.old) };
}
