//! The header of a message.

ghost use Rattle.std.specs.Prelude.{◌≡◌, ◌⊎◌, Ok, Err, IfOk, IfErr, codes};
ghost use Rattle.cluster_defs.specs.Header.{read_header};

use crate::fields::{id_field, text_field};
use crate::object::read_object;
use cluster_defs::fault::ReadError;
use cluster_defs::header::Header;
use json::Scratch;
use std::alloc::Global;

/// The header that the octets are.
///
/// The ids are `msg_id` and `msg_type`, in this order; `session` and `username` may be absent or anything.
#[tactic(auto, unfolding(cluster_defs::specs::Header::read_header))]
pub fn read_header(alloc: Global, octets: &[u8], scratch: &mut Scratch) -> Result<Header, ReadError>
    ensures ok { IfOk result (λ h. read_header octets.now ≡ Ok h) }
    ensures err { IfErr result (λ e. (e ≡ ReadError.OutOfMemory) ⊎ (read_header octets.now ≡ Err e)) }
{
    let value = read_object(alloc, octets, scratch)?;
    Ok(Header {
        msg_id: id_field(alloc, &value, "msg_id")?,
        msg_type: id_field(alloc, &value, "msg_type")?,
        session: text_field(alloc, &value, "session")?,
        username: text_field(alloc, &value, "username")?,
    })
}
