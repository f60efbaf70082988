//! The parts of a text.

ghost use Rattle.std.specs.Prelude.{◌≡◌, ◌==◌, ◌<◌, map, IfOk};
ghost use Rattle.std.specs.List.{slice_split};

use cluster_types::sequence::Sequence;
use cluster_types::text::Text;
use std::alloc::{AllocError, Global};

/// The parts of a text between the places where an ASCII character stands, as they lie in it.
fn pieces(alloc: Global, text: &str, separator: char) -> Result<Vec<&str>, AllocError>
    requires { separator < 128 }
    ensures { IfOk result (λ pieces. map (λ piece. piece.now) pieces.items ≡ slice_split (λ c. c == separator) text.now) }
{
    text.split(separator).collect(alloc)
}

/// These texts, copied.
fn copied(alloc: Global, pieces: &[&str]) -> Result<Sequence<Text>, AllocError>
    ensures { IfOk result (λ texts. texts ≡ map (λ piece. piece.now) pieces.now) }
{
    let mut texts = Sequence::new(alloc);
    for piece in pieces {
        texts.push(Text::new(alloc, piece)?)?;
    }
    Ok(texts)
}

/// The parts of a text between the places where an ASCII character stands.
pub fn parts(alloc: Global, text: &str, separator: char) -> Result<Sequence<Text>, AllocError>
    requires { separator < 128 }
    ensures { IfOk result (λ parts. parts ≡ slice_split (λ c. c == separator) text.now) }
{
    let pieces = pieces(alloc, text, separator)?;
    copied(alloc, &pieces)
}
