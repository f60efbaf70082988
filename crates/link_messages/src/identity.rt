//! The identity of a connection.

ghost use Rattle.std.specs.Prelude.{◌≡◌, IfOk};
ghost use Rattle.link_messages.specs.Identity.{numbered_identity, identity_or_number, up_of};

use cluster_types::config::Channel;
use cluster_types::entry::Input;
use cluster_types::octets::Octets;
use std::alloc::{AllocError, Global};

#[tactic(auto, unfolding(crate::specs::Identity::numbered_identity))]
fn numbered_identity(alloc: Global, conn: u32) -> Result<Octets, AllocError>
    ensures { IfOk result (λ i. i ≡ numbered_identity conn) }
{
    let number = conn.to_string(alloc)?;
    let mut text = String::from_str(alloc, "conn-")?;
    text.push_str(number.as_str())?;
    Octets::new(alloc, text.as_bytes())
}

/// The identity of a connection: `conn-` and its number where the one that came is empty.
pub fn identity_or_number(alloc: Global, conn: u32, identity: &[u8]) -> Result<Octets, AllocError>
    ensures { IfOk result (λ i. i ≡ identity_or_number conn identity.now) }
{
    if identity.len() == 0 {
        return numbered_identity(alloc, conn);
    }
    Octets::new(alloc, identity)
}

/// The input of a connection that comes up on a channel. One whose identity is empty is called `conn-` and its number.
pub fn up_of(
    alloc: Global,
    conn: u32,
    channel: Channel,
    moment: u64,
    word: u64,
    identity: &[u8],
) -> Result<Input, AllocError>
    ensures { IfOk result (λ i. i ≡ up_of conn channel moment word identity.now) }
{
    let identity = identity_or_number(alloc, conn, identity)?;
    Ok(Input::Up {
        conn,
        channel,
        moment,
        word,
        identity,
    })
}
