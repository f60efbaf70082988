//! The connections that are up on a tape.

ghost use Rattle.std.specs.Prelude.{◌≡◌, ◌==◌, ◌++◌, ◌∷◌, [], not, filter, is_none, option_map, length, ◌<◌, IfOk, IfSome, OnOk, Some, None};
ghost use Rattle.std.specs.Option.{is_some, option_copied};
ghost use Rattle.zmtp_peer.specs.PeerStream.{begins};
ghost use Rattle.tape_drive.specs.Links.{link_on, is_bare, is_zmtp, new_link, heard, heard_on, given, given_on, IsShort, IsShortGiven};
ghost use Rattle.tape_drive.specs.Places.{place_from};

use cluster_types::config::Channel;
use std::alloc::{AllocError, Global};
use std::marker::Model;
use zmtp_peer::peer::Peer;
use zmtp_peer::phase::PeerFed;

/// A connection that is up. A bare one has no peer.
#[derive(Drop)]
pub struct TapeLink {
    conn: u32,
    channel: Channel,
    peer: Option<Peer>,
}

impl Model for TapeLink {
    ghost use Rattle.std.specs.Prelude.{option_map};
    ghost use Rattle.tape_drive.specs.Links.{Link as Known};

    ghost Value = { Known };

    ghost view = { λ l. record { conn = l.conn; channel = l.channel; talk = option_map (λ p. p.talk) l.peer } };
}

impl TapeLink {
    /// A connection on which nothing came. It takes no memory.
    pub fn new(alloc: Global, conn: u32, channel: Channel, bare: bool) -> TapeLink
        ensures { result ≡ new_link conn channel bare }
    {
        if bare {
            return TapeLink {
                conn,
                channel,
                peer: None,
            };
        }
        TapeLink {
            conn,
            channel,
            peer: Some(Peer::new(alloc)),
        }
    }

    fn has_number(&self, conn: u32) -> bool
        ensures { result ≡ (self.now.conn == conn) }
    {
        self.conn == conn
    }

    /// Whether messages come on it as they are.
    fn is_bare(&self) -> bool
        ensures { result ≡ is_none self.now.talk }
    {
        self.peer.is_none()
    }

    fn channel(&self) -> Channel
        ensures { result ≡ self.now.channel }
    {
        self.channel
    }

    /// Takes octets, and says what they give where it speaks ZMTP.
    fn feed(&mut self, octets: &[u8]) -> Result<Option<PeerFed>, AllocError>
        ensures link { OnOk result (self.new ≡ heard octets.now self.old) }
        ensures given { IfOk result (λ g. g ≡ option_map (λ t. given t octets.now) self.old.talk) }
        ensures short { IfOk result (λ g. IfSome g IsShort) }
    {
        match &mut self.peer {
            Some(peer) => {
                let fed = peer.feed(octets)?;
                Ok(Some(fed))
            }
            None => Ok(None),
        }
    }
}

/// The link of a number.
fn link_on(links: &[TapeLink], conn: u32) -> Option<&TapeLink>
    ensures { option_copied result ≡ link_on links.now conn }
{
    links.iter().find(|l| l.has_number(conn))
}

/// Whether a connection is up.
pub fn is_up(links: &[TapeLink], conn: u32) -> bool
    ensures { result ≡ is_some (link_on links.now conn) }
{
    link_on(links, conn).is_some()
}

/// Whether a bare connection is up.
pub fn is_bare(links: &[TapeLink], conn: u32) -> bool
    ensures { result ≡ is_bare (link_on links.now conn) }
{
    match link_on(links, conn) {
        Some(link) => link.is_bare(),
        None => false,
    }
}

/// Whether a connection that speaks ZMTP is up.
pub fn is_zmtp(links: &[TapeLink], conn: u32) -> bool
    ensures { result ≡ is_zmtp (link_on links.now conn) }
{
    match link_on(links, conn) {
        Some(link) => !link.is_bare(),
        None => false,
    }
}

/// The place of the link of a number.
fn place_of(links: &[TapeLink], conn: u32) -> Option<usize>
    ensures place { result ≡ place_from 0 conn links.now }
    ensures within { IfSome result (λ p. p < length links.now) }
{
    for (place, link) in links.iter().enumerate() {
        if link.has_number(conn) {
            return Some(place);
        }
    }
    None
}

/// Takes octets on the link of a number, and says what they give where it speaks ZMTP.
pub fn hear_on(
    links: &mut [TapeLink],
    conn: u32,
    octets: &[u8],
) -> Result<Option<(Channel, PeerFed)>, AllocError>
    ensures links { OnOk result (links.new ≡ heard_on conn octets.now links.old) }
    ensures given { IfOk result (λ g. g ≡ given_on octets.now (link_on links.old conn)) }
    ensures short { IfOk result IsShortGiven }
{
    let Some(place) = place_of(links, conn) else {
        return Ok(None);
    };
    let link = &mut links[place];
    let channel = link.channel();
    match link.feed(octets)? {
        Some(fed) => Ok(Some((channel, fed))),
        None => Ok(None),
    }
}

/// Takes off the link of a number.
pub fn drop_link(links: &mut Vec<TapeLink>, conn: u32)
    ensures { links.new.items ≡ filter (λ l. not (l.conn == conn)) links.old.items }
{
    links.retain(|l| !l.has_number(conn));
}
