//! Ids that are made of numbers.

ghost use Rattle.std.specs.Prelude.{◌≡◌, ◌<◌, ◌≤◌, ◌+◌, ◌^◌, ◌↔◌, ℕ, Some, bytes_eq, IfSome, IfOk, option_map};
ghost use Rattle.uuid.specs.Text.{parsed};
ghost use Rattle.client_core.specs.Numbers.{numbered, numbered_id, numbered_ids, last_number};

use crate::identifier::client_id;
use cluster_types::message::Ids;
use cluster_types::text::Text;
use std::alloc::{AllocError, Global};
use uuid::{Builder, Uuid};

/// The sixteen octets of a number, the high ones first.
#[tactic(auto, unfolding(crate::specs::Numbers::numbered))]
pub fn numbered(number: u64) -> [u8; 16]
    ensures { result ≡ numbered number }
{
    u128::from(number).to_be_bytes()
}

/// The id of a number.
pub fn numbered_id(alloc: Global, number: u64) -> Result<Text, AllocError>
    ensures { IfOk result (λ id. id ≡ numbered_id number) }
{
    client_id(alloc, numbered(number))
}

/// The ids of these many numbers from a first one on.
pub fn numbered_ids(alloc: Global, first: u64, count: usize) -> Result<Ids, AllocError>
    requires { first + count ≤ 2 ^ 32 }
    ensures { IfOk result (λ ids. ids ≡ numbered_ids first count) }
{
    let mut ids = Ids::new(alloc);
    for place in 0..count {
        ids.push(numbered_id(alloc, first + place as u64)?)?;
    }
    Ok(ids)
}

/// Whether this is the id of a number.
#[tactic(auto, unfolding(crate::specs::Identifier::client_id))]
fn is_numbered(id: &str, number: u64) -> bool
    ensures { result ≡ bytes_eq id.now (numbered_id number) }
{
    let mut buffer = Uuid::encode_buffer();
    let uuid = Builder::from_random_bytes(numbered(number)).into_uuid();
    let text = uuid.hyphenated().encode_lower(&mut buffer);
    id == text
}

/// The number in the last four octets of a UUID.
fn last_number(octets: &[u8; 16]) -> u32
    ensures { result ≡ last_number octets.now }
{
    u32::from_be_bytes([octets[12], octets[13], octets[14], octets[15]])
}

/// The number in the last four octets of the UUID that a text is.
fn number_read(id: &str) -> Option<u32>
    ensures { result ≡ option_map last_number (parsed id.now) }
{
    match Uuid::try_parse(id) {
        Ok(uuid) => Some(last_number(uuid.as_bytes())),
        Err(_) => None,
    }
}

/// The number below 2^32 of which this is the id.
pub fn number_of(id: &str) -> Option<u64>
    ensures small { IfSome result (λ n. n < 2 ^ 32) }
    ensures number { (n : ℕ) → n < 2 ^ 32 → (result ≡ Some n) ↔ (id.now ≡ numbered_id n) }
{
    let number = u64::from(number_read(id)?);
    if is_numbered(id, number) {
        Some(number)
    } else {
        None
    }
}
