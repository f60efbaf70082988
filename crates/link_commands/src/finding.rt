//! The answer among the messages of a stream.

ghost use Rattle.std.specs.Prelude.{◌≡◌, IfOk};
ghost use Rattle.link_commands.specs.Asking.{id_in, are_same, answer_of, answer_in, taken_by};

use client_core::answers::task_in;
use cluster_defs::fault::ReadError;
use cluster_types::shared_message::SharedMessage;
use cluster_types::text::Text;
use edges::frames::Frames;
use hmac_sign::Key;
use json::Scratch;
use jupyter_header::header::read_header;
use link_messages::message::signed;
use std::alloc::{AllocError, Global};
use zmtp_peer::fault::PeerFault;

/// What a piece of a stream gives of what ends a session.
#[derive(Debug, Drop)]
pub enum Conclusion {
    Answer(SharedMessage),
    Fault(PeerFault),
    Nothing,
}

/// The answer, else the fault.
pub fn taken_by(answer: Option<SharedMessage>, fault: Option<PeerFault>) -> Conclusion
    ensures { result ≡ taken_by answer fault }
{
    match answer {
        Some(message) => Conclusion::Answer(message),
        None => match fault {
            Some(fault) => Conclusion::Fault(fault),
            None => Conclusion::Nothing,
        },
    }
}

/// The id that the header of a request gives, where it reads.
#[tactic(auto, unfolding(crate::specs::Asking::id_in))]
pub fn id_in(alloc: Global, header: &[u8]) -> Result<Option<Text>, AllocError>
    ensures { IfOk result (λ id. id ≡ id_in header.now) }
{
    let mut scratch = Scratch::new(alloc);
    match read_header(alloc, header, &mut scratch) {
        Ok(header) => Ok(Some(header.msg_id)),
        Err(ReadError::OutOfMemory) => Err(AllocError),
        Err(_) => Ok(None),
    }
}

/// Whether both are there and the same.
fn are_same(one: &Option<Text>, other: &Option<Text>) -> bool
    ensures { result ≡ are_same one.now other.now }
{
    match one {
        Some(one) => match other {
            Some(other) => one.is(other),
            None => false,
        },
        None => false,
    }
}

/// The answer that frames are to the request of an id.
fn answer_of(
    alloc: Global,
    key: &Key,
    id: &Option<Text>,
    frames: &Frames,
    scratch: &mut Scratch,
) -> Result<Option<SharedMessage>, AllocError>
    ensures { IfOk result (λ answer. answer ≡ answer_of key.now id.now frames.now) }
{
    let message = match signed(alloc, key, frames)? {
        Some(message) => message,
        None => return Ok(None),
    };
    let task = task_in(alloc, message.parent(), scratch)?;
    if are_same(id, &task) {
        Ok(Some(message))
    } else {
        Ok(None)
    }
}

/// The first answer among messages to the request of an id.
#[tactic(auto, unfolding(crate::specs::Asking::answer_in))]
pub fn answer_in(
    alloc: Global,
    key: &Key,
    id: &Option<Text>,
    messages: &[Frames],
) -> Result<Option<SharedMessage>, AllocError>
    ensures { IfOk result (λ answer. answer ≡ answer_in key.now id.now messages.now) }
{
    let mut scratch = Scratch::new(alloc);
    for frames in messages {
        let answer = answer_of(alloc, key, id, frames, &mut scratch)?;
        match answer {
            Some(message) => return Ok(Some(message)),
            None => {}
        }
    }
    Ok(None)
}
