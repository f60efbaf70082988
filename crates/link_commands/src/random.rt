//! Random octets.

ghost use Rattle.std.specs.Prelude.{◌≡◌, ◌++◌};
ghost use Rattle.link_commands.specs.Actions.{AreDrawn};
ghost use Rattle.edges.specs.Spelling.{be64};

use thread_edges::words::Words;

/// The octets of two words, one behind the other.
#[tactic(auto, unfolding(edges::specs::Spelling::be64))]
fn octets_of(first: u64, second: u64) -> [u8; 16]
    ensures { result ≡ be64 first ++ be64 second }
{
    let mut octets = [0u8; 16];
    octets[..8].copy_from_slice(&first.to_be_bytes());
    octets[8..].copy_from_slice(&second.to_be_bytes());
    octets
}

/// The octets of the next two words.
pub fn drawn<W: Words>(words: &mut W) -> [u8; 16]
    ensures { AreDrawn result (W.coming words.old) (W.coming words.new) }
{
    let first = words.next();
    let second = words.next();
    octets_of(first, second)
}
