//! Engines.

ghost use Rattle.std.specs.Prelude.{◌≡◌, ◌≤◌, ◌↔◌, true, false, IfOk, OnOk, OnErr, IsErr, IsTrue, IsErrOf};
ghost use Rattle.cluster_types.specs.Limits.{last_moment};
ghost use Rattle.engine_core.specs.State.{is_uuid, new_engine, standing};
ghost use Rattle.engine_core.specs.Answer.{plain_message, registration, Replied, Answers};

use crate::contents::registration_content;
use crate::error::EngineError;
use crate::headers::engine_header;
use crate::kernel::Kernel;
use crate::kinds::request_in;
use cluster_types::message::Buffers;
use cluster_types::shared_message::SharedMessage;
use cluster_types::text::Text;
use jupyter_header::contents::empty_object;
use jupyter_header::kinds::reply_type;
use std::alloc::{AllocError, Global};
use std::marker::Model;

/// An arithmetic engine of a cluster.
#[derive(Debug, Drop)]
pub struct Engine {
    alloc: Global,
    uuid: Text,
    kernel: Kernel,
    replies: u64,
    spent: bool,
}

impl Model for Engine {
    ghost use Rattle.engine_core.specs.State.{State};

    ghost Value = { State };

    ghost view = { λ e. record { uuid = e.uuid; kernel = e.kernel; replies = e.replies; spent = e.spent } };
}

/// A message without identity frames and buffers, and with the metadata `{}`.
fn plain_message(
    alloc: Global,
    header: &[u8],
    parent: &[u8],
    content: &[u8],
) -> Result<SharedMessage, AllocError>
    ensures { IfOk result (λ m. m ≡ plain_message header.now parent.now content.now) }
{
    SharedMessage::new(
        alloc,
        b"",
        header,
        parent,
        empty_object(),
        content,
        Buffers::new(alloc),
    )
}

impl Engine {
    /// An engine without names, which counted nothing. The uuid has 1 to 200 octets, or else it is `BadUuid`.
    pub fn new(alloc: Global, uuid: &str) -> Result<Engine, EngineError>
        ensures ok { IfOk result (λ engine. engine ≡ new_engine uuid.now) }
        ensures bad { IsErrOf result EngineError.BadUuid ↔ (is_uuid uuid.now ≡ false) }
    {
        if uuid.is_empty() || uuid.len() > 200 {
            return Err(EngineError::BadUuid);
        }
        Ok(Engine {
            alloc,
            uuid: Text::new(alloc, uuid)?,
            kernel: Kernel::new(alloc),
            replies: 0,
            spent: false,
        })
    }

    /// The registration_request of the engine, at a moment in milliseconds since 1970 began.
    pub fn join(&self, moment: u64) -> Result<SharedMessage, AllocError>
        requires { moment ≤ last_moment }
        ensures { IfOk result (λ message. message ≡ registration self.now.uuid moment) }
    {
        let header = engine_header(self.alloc, &self.uuid, 0, "registration_request", moment)?;
        let content = registration_content(self.alloc, &self.uuid)?;
        plain_message(
            self.alloc,
            header.as_slice(),
            empty_object(),
            content.as_slice(),
        )
    }

    /// The reply to a message, at a moment in milliseconds since 1970 began; none where the message is no request.
    ///
    /// An engine that ran out of memory in an answer is spent: what it has evaluated is unknown, and each later answer
    /// is want of memory again.
    pub fn answer(
        &mut self,
        message: &SharedMessage,
        moment: u64,
    ) -> Result<Option<SharedMessage>, AllocError>
        requires { moment ≤ last_moment }
        ensures ok { IfOk result (λ reply. Answers (standing self.old) message.now moment reply (standing self.new)) }
        ensures stays { OnOk result ((self.old.spent ≡ false) × (self.new.spent ≡ false)) }
        ensures err { OnErr result ((self.new.spent ≡ true) × (self.new.uuid ≡ self.old.uuid)) }
        ensures spent { IsTrue self.old.spent → IsErr result × (self.new ≡ self.old) }
    {
        if self.spent {
            return Err(AllocError);
        }
        let answer = self.answer_to(message, moment);
        self.spent = answer.is_err();
        answer
    }

    /// The reply to a message, if it is a request.
    fn answer_to(
        &mut self,
        message: &SharedMessage,
        moment: u64,
    ) -> Result<Option<SharedMessage>, AllocError>
        requires { moment ≤ last_moment }
        ensures ok { IfOk result (λ reply. Answers (standing self.old) message.now moment reply (standing self.new)) }
        ensures uuid { self.new.uuid ≡ self.old.uuid }
        ensures spent { self.new.spent ≡ self.old.spent }
    {
        let Some(msg_type) = request_in(self.alloc, message.header())? else {
            return Ok(None);
        };
        let reply = self.reply_to(&msg_type, message, moment)?;
        Ok(Some(reply))
    }

    /// The reply to a request.
    fn reply_to(
        &mut self,
        msg_type: &Text,
        message: &SharedMessage,
        moment: u64,
    ) -> Result<SharedMessage, AllocError>
        requires { moment ≤ last_moment }
        ensures ok { IfOk result (λ reply. Replied msg_type.now (standing self.old) message.now moment reply (standing self.new)) }
        ensures uuid { self.new.uuid ≡ self.old.uuid }
        ensures spent { self.new.spent ≡ self.old.spent }
    {
        let content = self.kernel.answer(self.alloc, msg_type, message.content())?;
        self.replies = self.replies.saturating_add(1);
        let kind = reply_type(self.alloc, msg_type)?;
        let header = engine_header(self.alloc, &self.uuid, self.replies, kind.as_str(), moment)?;
        plain_message(
            self.alloc,
            header.as_slice(),
            message.header(),
            content.as_slice(),
        )
    }
}
