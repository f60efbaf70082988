//! Why a text has no value.

ghost use Rattle.std.specs.Prelude.{◌≡◌, IfOk, string_bytes};
ghost use Rattle.engine_core.specs.Faults.{ename, evalue};

use arith_eval::error::ArithError;
use arith_syntax::error::SyntaxError;
use std::alloc::{AllocError, Global};

/// Why a text has no value.
#[derive(Debug, Drop)]
pub enum Fault {
    /// The text is no program.
    Syntax(SyntaxError),
    /// Its program has no value.
    Arithmetic(ArithError),
}

impl Fault {
    /// The fault's name, a reply's `ename`.
    pub fn ename(&self) -> &'static str
        ensures { result.now ≡ ename self.now }
    {
        match self {
            Fault::Syntax(SyntaxError::BadToken(_)) => "BadToken",
            Fault::Syntax(SyntaxError::BadSyntax(_)) => "BadSyntax",
            Fault::Syntax(SyntaxError::TooDeep(_)) => "TooDeep",
            Fault::Syntax(SyntaxError::ConstantTooLarge(_)) => "ConstantTooLarge",
            Fault::Syntax(SyntaxError::TooLong) => "TooLong",
            Fault::Arithmetic(ArithError::NameError(_)) => "NameError",
            Fault::Arithmetic(ArithError::ZeroDivision) => "ZeroDivision",
            Fault::Arithmetic(ArithError::ShiftRange(_)) => "ShiftRange",
            Fault::Syntax(SyntaxError::OutOfMemory) | Fault::Arithmetic(ArithError::OutOfMemory) =>
                "OutOfMemory",
        }
    }

    /// What the fault is about, a reply's `evalue`: a place counted in octets from 0, a name, a shift count, or nothing.
    pub fn evalue(&self, alloc: Global) -> Result<String, AllocError>
        ensures { IfOk result (λ s. string_bytes s ≡ evalue self.now) }
    {
        match self {
            Fault::Syntax(
                SyntaxError::BadToken(place)
                | SyntaxError::BadSyntax(place)
                | SyntaxError::TooDeep(place)
                | SyntaxError::ConstantTooLarge(place),
            ) => place.to_string(alloc),
            Fault::Arithmetic(ArithError::NameError(name)) => {
                String::from_str(alloc, name.as_str())
            }
            Fault::Arithmetic(ArithError::ShiftRange(count)) => count.to_string(alloc),
            _ => Ok(String::new(alloc)),
        }
    }
}
