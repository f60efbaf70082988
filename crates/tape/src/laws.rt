//! Laws of tapes.

ghost use Rattle.std.specs.Prelude.{◌<◌, List, ℕ, All, slice_index};
ghost use Rattle.tape.specs.Spelling.{Fits};
ghost use Rattle.tape.specs.Tape.{Tape, records};

/// Each record that octets end has a spelling, however the tape stands before them.
pub fn records_fit()
    ensures { (t : Tape) (octets : List ℕ) → ((i : ℕ) → slice_index t.rest i < 256) → ((i : ℕ) → slice_index octets i < 256) → All Fits (records t octets) }
{}
