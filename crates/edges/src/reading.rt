//! Reading fields at the front of octets.

ghost use Rattle.std.specs.Int.{w32, w64};
ghost use Rattle.edges.specs.Reading.{IsRead, number_at, octet_at, front_at, str8_at, blob_at, channel_at};

use crate::stop::Stop;
use cluster_types::config::Channel;

/// One octet.
pub fn octet(octets: &[u8]) -> Result<(u8, &[u8]), Stop>
    ensures { IsRead (λ x. (x.0, x.1.now)) result (octet_at octets.now) }
{
    match octets {
        [] => Err(Stop::Short(1)),
        [x, rest @ ..] => Ok((*x, rest)),
    }
}

/// A number in four octets.
pub fn number32(octets: &[u8]) -> Result<(u32, &[u8]), Stop>
    ensures { IsRead (λ x. (x.0, x.1.now)) result (number_at w32 octets.now) }
{
    if octets.len() < 4 {
        return Err(Stop::Short(4 - octets.len()));
    }
    let (front, rest) = octets.split_at(4);
    let number = u32::from_be_bytes([front[0], front[1], front[2], front[3]]);
    Ok((number, rest))
}

/// A number in eight octets.
pub fn number64(octets: &[u8]) -> Result<(u64, &[u8]), Stop>
    ensures { IsRead (λ x. (x.0, x.1.now)) result (number_at w64 octets.now) }
{
    if octets.len() < 8 {
        return Err(Stop::Short(8 - octets.len()));
    }
    let (front, rest) = octets.split_at(8);
    let number = u64::from_be_bytes([
        front[0], front[1], front[2], front[3], front[4], front[5], front[6], front[7],
    ]);
    Ok((number, rest))
}

/// So many octets, which stay where they are.
pub fn front(n: usize, octets: &[u8]) -> Result<(&[u8], &[u8]), Stop>
    ensures { IsRead (λ x. (x.0.now, x.1.now)) result (front_at n octets.now) }
{
    if octets.len() < n {
        return Err(Stop::Short(n - octets.len()));
    }
    Ok(octets.split_at(n))
}

/// At most 255 octets behind their length.
#[tactic(auto, unfolding(crate::specs::Reading::str8_at))]
pub fn str8(octets: &[u8]) -> Result<(&[u8], &[u8]), Stop>
    ensures { IsRead (λ x. (x.0.now, x.1.now)) result (str8_at octets.now) }
{
    let (n, rest) = octet(octets)?;
    front(n as usize, rest)
}

/// Octets behind their length, which is below 2^32.
#[tactic(auto, unfolding(crate::specs::Reading::blob_at))]
pub fn blob(octets: &[u8]) -> Result<(&[u8], &[u8]), Stop>
    ensures { IsRead (λ x. (x.0.now, x.1.now)) result (blob_at octets.now) }
{
    let (n, rest) = number32(octets)?;
    front(n as usize, rest)
}

/// A channel, by its code.
#[tactic(auto, unfolding(crate::specs::Reading::channel_at))]
pub fn channel(octets: &[u8]) -> Result<(Channel, &[u8]), Stop>
    ensures { IsRead (λ x. (x.0, x.1.now)) result (channel_at octets.now) }
{
    let (code, rest) = octet(octets)?;
    match code {
        0 => Ok((Channel::Hub, rest)),
        1 => Ok((Channel::Task, rest)),
        2 => Ok((Channel::Mux, rest)),
        3 => Ok((Channel::Engine, rest)),
        _ => Err(Stop::Bad),
    }
}
