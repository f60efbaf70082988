//! Messages that were read before their turn comes.

ghost use Rattle.std.specs.Prelude.{◌≡◌, IfOk};
ghost use Rattle.controller_desk.specs.Readings.{IsMeaning};

use cluster_intake::fault::IntakeError;
use cluster_intake::understand;
use cluster_intake::understood::Understood;
use cluster_types::config::Channel;
use cluster_types::event::Reason;
use cluster_types::shared_message::SharedMessage;
use json::Scratch;
use std::alloc::{AllocError, Global};

/// A message, with what it means on a channel.
#[derive(Drop)]
pub struct Reading {
    pub message: SharedMessage,
    pub channel: Channel,
    pub meaning: Result<Understood, Reason>,
    ghost right: { IsMeaning channel message meaning },
}

/// What a message means on a channel.
fn meaning_on(
    alloc: Global,
    channel: Channel,
    message: &SharedMessage,
) -> Result<Result<Understood, Reason>, AllocError>
    ensures { IfOk result (λ m. IsMeaning channel message.now m) }
{
    let mut scratch = Scratch::new(alloc);
    match understand(alloc, channel, message, &mut scratch) {
        Ok(understood) => Ok(Ok(understood)),
        Err(IntakeError::Junk(reason)) => Ok(Err(reason)),
        Err(IntakeError::OutOfMemory) => Err(AllocError),
    }
}

impl Reading {
    /// Reads a message for a channel. It is slow beside a turn, and needs none.
    pub fn new(
        alloc: Global,
        channel: Channel,
        message: SharedMessage,
    ) -> Result<Reading, AllocError>
        ensures { IfOk result (λ r. (r.message ≡ message) × (r.channel ≡ channel)) }
    {
        let meaning = meaning_on(alloc, channel, &message)?;
        Ok(Reading {
            message,
            channel,
            meaning,
        })
    }

    /// The same message, read for this channel.
    pub(crate) fn for_channel(self, alloc: Global, channel: Channel) -> Result<Reading, AllocError>
        ensures { IfOk result (λ r. (r.message ≡ self.message) × (r.channel ≡ channel)) }
    {
        if self.channel == channel {
            return Ok(self);
        }
        let Reading { message, .. } = self;
        Reading::new(alloc, channel, message)
    }
}
