//! What the definitions say together.

ghost use Rattle.std.specs.Prelude.{ℕ, List, ◌≡◌, ◌↔◌, Ok};
ghost use Rattle.cluster_types.specs.declared.message.Message.{Message};
ghost use Rattle.jupyter_parts.specs.Signed.{IsSigned, read_parts};

/// Frames are read as a message exactly where they are a signed form of it.
pub fn read_where_signed()
    ensures { (key : List ℕ) (frames : List (List ℕ)) (message : Message) → IsSigned key frames message ↔ (read_parts key frames ≡ Ok message) }
{}
