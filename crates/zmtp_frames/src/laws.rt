//! Laws of streams of frames.

ghost use Rattle.std.specs.Prelude.{◌≡◌, ◌≤◌, List, ℕ, Bool, false, length, slice_index, [], Some, ◌<◌, ◌++◌};
ghost use Rattle.zmtp_frames.specs.declared.frame.Frame.{Frame};
ghost use Rattle.zmtp_frames.specs.Grammar.{AreFrames, IsFrame, IsReadingOf, place_after};
ghost use Rattle.cluster_types.specs.Limits.{body_limit};
ghost use Rattle.zmtp_frames.specs.Stream.{Reading, start, reading_after, frames};
ghost use Rattle.zmtp_frames.specs.Written.{written, written_properties};
ghost use Rattle.zmtp_frames.specs.Command.{metadata, MayStand};
ghost use Rattle.zmtp_frames.specs.declared.metadata.Property.{Property};

/// It doesn't matter how a stream is cut.
pub fn any_pieces()
    ensures { (r : Reading) (xs ys : List ℕ) → (reading_after r (xs ++ ys) ≡ reading_after (reading_after r xs) ys) × (frames r (xs ++ ys) ≡ frames r xs ++ frames (reading_after r xs) ys) }
{}

/// Octets that stand for frames give these frames, and nothing is begun behind them.
pub fn frames_are_read()
    ensures { (place : ℕ) (octets : List ℕ) (list : List Frame) → AreFrames place octets list → (frames (start place) octets ≡ list) × (reading_after (start place) octets ≡ start (place_after place octets)) }
{}

/// All octets are those of the frames given, and then those of the frame that isn't whole or that has the fault.
pub fn frames_given_stand()
    ensures { (place : ℕ) (octets : List ℕ) → IsReadingOf place octets (reading_after (start place) octets) (frames (start place) octets) }
{}

/// What is written for a frame stands for it.
pub fn written_stands()
    ensures { (at : ℕ) (more : Bool) (body : List ℕ) → length body ≤ body_limit → IsFrame (written more body) (record { at = at; more = more; command = false; body = body }) }
{}

/// The metadata of READY is read as the properties that were written.
pub fn metadata_is_read()
    ensures { (list : List Property) → MayStand [] list → metadata (written_properties list) ≡ Some list }
{}

/// What is read as metadata are these properties, written one behind another.
pub fn metadata_stands()
    ensures { (octets : List ℕ) (list : List Property) → ((i : ℕ) → slice_index octets i < 256) → metadata octets ≡ Some list → (octets ≡ written_properties list) × MayStand [] list }
{}
