//! The headers of an engine's messages.

ghost use Rattle.std.specs.Prelude.{◌≡◌, ◌≤◌, IfOk, string_bytes};
ghost use Rattle.cluster_types.specs.Limits.{last_moment};
ghost use Rattle.engine_core.specs.Headers.{message_id, engine_header};

use cluster_types::octets::Octets;
use cluster_types::text::Text;
use edges::date::{Moment, date_text};
use jupyter_header::write::header_of;
use std::alloc::{AllocError, Global};

/// The id of an engine's message with a number.
#[tactic(auto, unfolding(crate::specs::Headers::message_id))]
fn message_id(alloc: Global, uuid: &Text, number: u64) -> Result<String, AllocError>
    ensures { IfOk result (λ s. string_bytes s ≡ message_id uuid.now number) }
{
    let digits = number.to_string(alloc)?;
    let mut id = String::from_str(alloc, uuid.as_str())?;
    id.push_str("-")?;
    id.push_str(digits.as_str())?;
    Ok(id)
}

/// The header of an engine's message. The registration has the number 0, and the replies count from 1. The moment is
/// in milliseconds since 1970 began.
pub fn engine_header(
    alloc: Global,
    uuid: &Text,
    number: u64,
    msg_type: &str,
    moment: u64,
) -> Result<Octets, AllocError>
    requires { moment ≤ last_moment }
    ensures { IfOk result (λ o. o ≡ engine_header uuid.now number msg_type.now moment) }
{
    let id = message_id(alloc, uuid, number)?;
    let date = date_text(alloc, Moment { millis: moment })?;
    header_of(
        alloc,
        id.as_str(),
        uuid.as_str(),
        uuid.as_str(),
        msg_type,
        date.as_str(),
    )
}
