//! The message that isn't whole.

ghost use Rattle.std.specs.Prelude.{◌≡◌, ◌+◌, ◌++◌, ◌∷◌, [], length, nat_lt, OnOk};
ghost use Rattle.zmtp_peer.specs.Message.{body_octets};
ghost use Rattle.cluster_types.specs.Limits.{message_limit};

use cluster_types::limits::MESSAGE_OCTETS;
use edges::frames::Frames;
use std::alloc::{AllocError, Global};
use std::marker::Model;

/// The bodies that came of a message, which contracts see as a list, and how many octets they have together.
#[derive(Drop)]
pub struct Parts {
    frames: Frames,
    octets: u64,
}

impl Model for Parts {
    ghost use Rattle.std.specs.Prelude.{◌≡◌, ◌-◌, ◌^◌, List, ℕ, min};
    ghost use Rattle.zmtp_peer.specs.Message.{body_octets};

    ghost Value = { List (List ℕ) };

    ghost view = { λ p. p.frames };

    ghost invariant = { λ p. p.octets ≡ min (body_octets p.frames) (2 ^ 64 - 1) };
}

impl Parts {
    /// No bodies. Takes no memory.
    pub fn new(alloc: Global) -> Parts
        ensures { result ≡ [] }
    {
        Parts {
            frames: Frames::new(alloc),
            octets: 0,
        }
    }

    pub fn len(&self) -> usize
        ensures { result ≡ length self.now }
    {
        self.frames.len()
    }

    /// Whether the message has too many octets with so many more.
    pub fn passes_with(&self, size: u64) -> bool
        ensures { result ≡ nat_lt message_limit (body_octets self.now + size) }
    {
        self.octets.saturating_add(size) > MESSAGE_OCTETS
    }

    /// Adds a body.
    pub fn push(&mut self, body: &[u8]) -> Result<(), AllocError>
        ensures { OnOk result (self.new ≡ self.old ++ body.now ∷ []) }
    {
        self.frames.push(body)?;
        self.octets = self.octets.saturating_add(body.len() as u64);
        Ok(())
    }

    /// Takes all bodies out.
    pub fn take(&mut self, alloc: Global) -> Frames
        ensures taken { result ≡ self.old }
        ensures left { self.new ≡ [] }
    {
        self.octets = 0;
        std::mem::replace(&mut self.frames, Frames::new(alloc))
    }
}
