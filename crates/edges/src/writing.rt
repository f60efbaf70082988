//! Writing fields.

ghost use Rattle.std.specs.Prelude.{◌≡◌, ◌<◌, ◌^◌, ◌∷◌, [], ◌++◌, length, OnOk, OnErr};
ghost use Rattle.edges.specs.Spelling.{be64, be32, str8, blob, channel_code};

use cluster_types::config::Channel;
use std::alloc::AllocError;

/// Appends these octets and those. Where memory is wanting, `into` is as it was.
pub fn put_both(into: &mut Vec<u8>, first: &[u8], second: &[u8]) -> Result<(), AllocError>
    ensures ok { OnOk result (into.new.items ≡ into.old.items ++ (first.now ++ second.now)) }
    ensures err { OnErr result (into.new.items ≡ into.old.items) }
{
    let before = into.len();
    into.extend_from_slice(first)?;
    if let Err(error) = into.extend_from_slice(second) {
        into.truncate(before);
        return Err(error);
    }
    Ok(())
}

/// Appends a number in four octets. Where memory is wanting, `into` is as it was.
#[tactic(auto, unfolding(crate::specs::Spelling::be32))]
pub fn put_number32(into: &mut Vec<u8>, n: u32) -> Result<(), AllocError>
    ensures ok { OnOk result (into.new.items ≡ into.old.items ++ be32 n) }
    ensures err { OnErr result (into.new.items ≡ into.old.items) }
{
    into.extend_from_slice(&n.to_be_bytes())
}

/// Appends a number in eight octets. Where memory is wanting, `into` is as it was.
#[tactic(auto, unfolding(crate::specs::Spelling::be64))]
pub fn put_number64(into: &mut Vec<u8>, n: u64) -> Result<(), AllocError>
    ensures ok { OnOk result (into.new.items ≡ into.old.items ++ be64 n) }
    ensures err { OnErr result (into.new.items ≡ into.old.items) }
{
    into.extend_from_slice(&n.to_be_bytes())
}

/// Appends at most 255 octets behind their length. Where memory is wanting, `into` is as it was.
pub fn put_str8(into: &mut Vec<u8>, text: &[u8]) -> Result<(), AllocError>
    requires { length text.now < 256 }
    ensures ok { OnOk result (into.new.items ≡ into.old.items ++ str8 text.now) }
    ensures err { OnErr result (into.new.items ≡ into.old.items) }
{
    put_both(into, &[text.len() as u8], text)
}

/// Appends octets behind their length. Where memory is wanting, `into` is as it was.
#[tactic(auto, unfolding(crate::specs::Spelling::be32))]
pub fn put_blob(into: &mut Vec<u8>, octets: &[u8]) -> Result<(), AllocError>
    requires { length octets.now < 2 ^ 32 }
    ensures ok { OnOk result (into.new.items ≡ into.old.items ++ blob octets.now) }
    ensures err { OnErr result (into.new.items ≡ into.old.items) }
{
    put_both(into, &(octets.len() as u32).to_be_bytes(), octets)
}

/// The code of a channel.
fn code_of_channel(channel: Channel) -> u8
    ensures { result ≡ channel_code channel }
{
    match channel {
        Channel::Hub => 0,
        Channel::Task => 1,
        Channel::Mux => 2,
        Channel::Engine => 3,
    }
}

/// Appends the code of a channel. Where memory is wanting, `into` is as it was.
pub fn put_channel(into: &mut Vec<u8>, channel: Channel) -> Result<(), AllocError>
    ensures ok { OnOk result (into.new.items ≡ into.old.items ++ channel_code channel ∷ []) }
    ensures err { OnErr result (into.new.items ≡ into.old.items) }
{
    into.push(code_of_channel(channel))?;
    Ok(())
}
