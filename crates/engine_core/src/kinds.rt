//! What types of request ask an engine for.

ghost use Rattle.std.specs.Prelude.{◌≡◌, Ok, IfOk};
ghost use Rattle.cluster_defs.specs.Header.{read_header};
ghost use Rattle.engine_core.specs.Answer.{kind_of, request_in};

use cluster_defs::fault::ReadError;
use cluster_defs::header::Header;
use cluster_types::text::Text;
use json::Scratch;
use jupyter_header::header::read_header;
use jupyter_header::kinds::is_request;
use std::alloc::{AllocError, Global};

/// What a request asks an engine for, by its type.
#[derive(Clone, Copy, Debug, PartialEq, Eq)]
pub enum RequestKind {
    /// `execute_request`
    Execute,
    /// `beat_request`
    Beat,
    /// A type that engines don't support.
    Other,
}

/// What a type of request asks for.
pub fn kind_of(msg_type: &str) -> RequestKind
    ensures { result ≡ kind_of msg_type.now }
{
    match msg_type {
        "execute_request" => RequestKind::Execute,
        "beat_request" => RequestKind::Beat,
        _ => RequestKind::Other,
    }
}

/// The type of a request, by its header.
fn request_type(header: Header) -> Option<Text>
    ensures { result ≡ request_in (Ok header) }
{
    if is_request(&header.msg_type) {
        Some(header.msg_type)
    } else {
        None
    }
}

/// The type of the request that a message with this header is, if it is one.
pub fn request_in(alloc: Global, header: &[u8]) -> Result<Option<Text>, AllocError>
    ensures { IfOk result (λ found. found ≡ request_in (read_header header.now)) }
{
    let mut scratch = Scratch::new(alloc);
    match read_header(alloc, header, &mut scratch) {
        Ok(header) => Ok(request_type(header)),
        Err(ReadError::OutOfMemory) => Err(AllocError),
        Err(_) => Ok(None),
    }
}
