//! Frames, and what stands between them.

ghost use Rattle.std.specs.Prelude.{◌≡◌};

use crate::fault::FrameFault;
use cluster_types::sequence::Sequence;
use std::marker::Model;

/// The octets of a body, in memory of their own, so that a reader that has to can take them back.
#[derive(Debug, Drop)]
pub struct Body {
    octets: Vec<u8>,
}

impl Model for Body {
    ghost use Rattle.std.specs.Prelude.{List, ℕ};

    ghost Value = { List ℕ };

    ghost view = { λ b. b.octets.items };
}

impl Body {
    /// These octets, which takes no memory.
    pub fn from_vec(octets: Vec<u8>) -> Body
        ensures { result ≡ octets.items }
    {
        Body { octets }
    }

    /// The octets as a `Vec`, which takes no memory.
    pub fn into_vec(self) -> Vec<u8>
        ensures { result.items ≡ self }
    {
        let Body { octets } = self;
        octets
    }

    pub fn as_slice(&self) -> &[u8]
        ensures { result.now ≡ self.now }
    {
        self.octets.as_slice()
    }
}

/// What a flags octet says, and its place.
#[derive(Clone, Copy, Debug, PartialEq, Eq)]
pub struct Head {
    pub at: u64,
    pub more: bool,
    pub command: bool,
}

/// A whole frame. `at` is the place of its flags octet.
#[derive(Debug, Drop)]
pub struct Frame {
    pub at: u64,
    pub more: bool,
    pub command: bool,
    pub body: Body,
}

pub type FrameList = Sequence<Frame>;

/// A frame that isn't whole. Its size is there once all octets of the size came.
#[derive(Clone, Copy, Debug, PartialEq, Eq)]
pub struct Begun {
    pub at: u64,
    pub more: bool,
    pub command: bool,
    pub size: Option<u64>,
}

/// What stands unfinished between two octets. `left` octets of the size or of the body are still to come.
#[derive(Clone, Copy, Debug, PartialEq, Eq)]
pub enum Stage {
    Between,
    Sizing { head: Head, left: u64, size: u64 },
    Filling { head: Head, size: u64, left: u64 },
    Ended { fault: FrameFault, begun: Begun },
}

/// What a piece of a stream gave: the frames that it ends, the frame that isn't whole, and the first fault.
#[derive(Debug, Drop)]
pub struct Fed {
    pub frames: FrameList,
    pub begun: Option<Begun>,
    pub fault: Option<FrameFault>,
}
