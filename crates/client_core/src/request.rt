//! The messages that a client makes.

ghost use Rattle.std.specs.Prelude.{◌≡◌, ◌≤◌, IfOk};
ghost use Rattle.cluster_types.specs.Limits.{last_moment};
ghost use Rattle.client_core.specs.Messages.{message_under};
ghost use Rattle.client_core.specs.Sending.{request_of};

use cluster_types::sequence::Sequence;
use cluster_types::shared_message::SharedMessage;
use edges::date::{Moment, date_text};
use jupyter_header::contents::empty_object;
use jupyter_header::write::header_of;
use std::alloc::{AllocError, Global};

/// What a client sends beside its session, the id and the moment.
#[derive(Clone, Copy, Debug)]
pub struct Request<'a> {
    /// The engine, where it is sent to one alone, else empty.
    pub target: &'a str,
    pub msg_type: &'a str,
    /// A JSON object.
    pub metadata: &'a str,
    /// A JSON object.
    pub content: &'a str,
}

/// The message of a client with this session, under this id, at a moment in milliseconds since 1970-01-01T00:00:00Z.
pub fn message_under(
    alloc: Global,
    session: &str,
    id: &str,
    moment: u64,
    request: &Request<'_>,
) -> Result<SharedMessage, AllocError>
    requires { moment ≤ last_moment }
    ensures { IfOk result (λ m. m ≡ message_under session.now id.now moment (request_of request.now)) }
{
    let date = date_text(alloc, Moment { millis: moment })?;
    let header = header_of(alloc, id, session, session, request.msg_type, date.as_str())?;
    SharedMessage::new(
        alloc,
        request.target.as_bytes(),
        header.as_slice(),
        empty_object(),
        request.metadata.as_bytes(),
        request.content.as_bytes(),
        Sequence::new(alloc),
    )
}
