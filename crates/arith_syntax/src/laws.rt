//! Laws of the grammar.

ghost use Rattle.std.specs.Prelude.{◌≡◌, ◌≢◌, ℕ, List};
ghost use Rattle.arith_syntax.specs.Tree.{Tree};
ghost use Rattle.arith_syntax.specs.Grammar.{Grammar, FirstFault};

use crate::error::SyntaxError;

/// A text has one program, or one first fault, and not both.
pub fn one_reading()
    ensures program { (text : List ℕ) (a b : List Tree) → Grammar text a → Grammar text b → a ≡ b }
    ensures fault { (text : List ℕ) (d e : SyntaxError) → FirstFault text d → FirstFault text e → d ≢ SyntaxError.OutOfMemory → e ≢ SyntaxError.OutOfMemory → d ≡ e }
    ensures apart { (text : List ℕ) (trees : List Tree) (e : SyntaxError) → Grammar text trees → FirstFault text e → e ≢ SyntaxError.OutOfMemory → ⊥ }
{}
