//! A link that hasn't signed anything.

ghost use Rattle.std.specs.Prelude.{◌≡◌};
ghost use Rattle.pending_links.specs.Pending.{is_late, with_greeting, with_octets, seconds_of};

/// How many seconds a link has for its greeting.
pub const GREETING_SECONDS: u64 = 10;

/// How many seconds a link has for its first signed message.
pub const SIGNING_SECONDS: u64 = 60;

/// A link that hasn't signed anything.
#[derive(Clone, Copy, Debug, PartialEq, Eq)]
pub struct PendingLink {
    pub number: u64,
    /// The second in which it came.
    pub since: u64,
    /// Whether its greeting is done.
    pub greeted: bool,
    /// How many octets are kept of it.
    pub octets: u64,
}

/// How many seconds such a link has.
fn seconds_of(greeted: bool) -> u64
    ensures { result ≡ seconds_of greeted }
{
    if greeted {
        SIGNING_SECONDS
    } else {
        GREETING_SECONDS
    }
}

/// Whether a link is past its time.
pub fn is_late(link: &PendingLink, now: u64) -> bool
    ensures { result ≡ is_late now link.now }
{
    seconds_of(link.greeted) <= now.saturating_sub(link.since)
}

/// A link, with its greeting done where it has this number.
pub fn with_greeting(link: PendingLink, number: u64) -> PendingLink
    ensures { result ≡ with_greeting number link }
{
    if link.number == number {
        PendingLink {
            greeted: true,
            ..link
        }
    } else {
        link
    }
}

/// A link, with so many octets where it has this number.
pub fn with_octets(link: PendingLink, number: u64, octets: u64) -> PendingLink
    ensures { result ≡ with_octets number octets link }
{
    if link.number == number {
        PendingLink { octets, ..link }
    } else {
        link
    }
}
