//! The ids of requests.

ghost use Rattle.std.specs.Prelude.{◌≡◌, IfOk};
ghost use Rattle.client_core.specs.Identifier.{client_id};

use cluster_types::text::Text;
use std::alloc::{AllocError, Global};
use uuid::{Builder, Uuid};

/// The UUID of version 4 of random octets, with hyphens and in lower case.
#[tactic(auto, unfolding(crate::specs::Identifier::client_id))]
pub fn client_id(alloc: Global, random: [u8; 16]) -> Result<Text, AllocError>
    ensures { IfOk result (λ id. id ≡ client_id random) }
{
    let mut buffer = Uuid::encode_buffer();
    let uuid = Builder::from_random_bytes(random).into_uuid();
    let text = uuid.hyphenated().encode_lower(&mut buffer);
    Text::new(alloc, text)
}
