//! What inputs mean.

ghost use Rattle.std.specs.Prelude.{◌≡◌, [], None, IfOk};

use cluster_types::event::Event;
use cluster_types::text::Text;
use std::alloc::{AllocError, Global};

/// What the message of an input means, and its type.
#[derive(Debug)]
pub struct Meaning {
    /// None for an input without a message, and for a message that is junk or on no connection.
    pub event: Option<Event>,
    /// The `msg_type` of the message, where it means something; empty elsewhere.
    pub msg_type: Text,
}

// Written out, so that what lets one go is proved over one call, and not case by case.
impl Drop for Meaning {
    fn drop(self) {
        let Meaning { event, msg_type } = self;
        drop(event);
        drop(msg_type);
    }
}

impl Meaning {
    /// That of an input which means nothing.
    pub(crate) fn none(alloc: Global) -> Result<Meaning, AllocError>
        ensures event { IfOk result (λ m. m.event ≡ None) }
        ensures kind { IfOk result (λ m. m.msg_type ≡ []) }
    {
        Ok(Meaning {
            event: None,
            msg_type: Text::new(alloc, "")?,
        })
    }

    /// What it means alone.
    pub(crate) fn into_event(self) -> Option<Event>
        ensures { result ≡ self.event }
    {
        let Meaning { event, msg_type } = self;
        drop(msg_type);
        event
    }
}
