//! Programs.

ghost use Rattle.std.specs.Prelude.{◌≡◌};
ghost use Rattle.std.specs.List.{AllByRecursion};
ghost use Rattle.arith_syntax.specs.Grammar.{Fits};
ghost use Rattle.arith_syntax.specs.Written.{all_written, trees_of, IsWhole};

use crate::instruction::Instruction;
use std::marker::Model;

/// A program: its expressions in order, which contracts see as a list of trees.
#[derive(Debug, Drop)]
pub struct Program {
    code: Vec<Instruction>,
}

impl Model for Program {
    ghost use Rattle.std.specs.Prelude.{List};
    ghost use Rattle.arith_syntax.specs.Tree.{Tree};
    ghost use Rattle.arith_syntax.specs.Written.{trees_of, IsWhole};
    ghost use Rattle.arith_syntax.specs.Apart.{program_code};
    ghost use Rattle.std.specs.Coded.{coded_list};
    ghost use Rattle.arith_syntax.specs.contracts.instruction.Instruction as instruction;

    ghost Value = { List Tree };

    ghost coded = { program_code (coded_list instruction.the_row.coded) };

    ghost view = { λ p. trees_of p.code.items };

    ghost invariant = { λ p. IsWhole p.code.items };
}

impl Program {
    /// The program that these instructions are written from.
    pub fn from_code(code: Vec<Instruction>) -> Program
        requires { IsWhole code.items }
        ensures { result ≡ trees_of code.items }
    {
        Program { code }
    }

    /// The instructions of its expressions, each expression ended by `Finish`.
    pub fn instructions(&self) -> &[Instruction]
        ensures written { result.now ≡ all_written self.now }
        ensures fits { AllByRecursion (Fits 64) self.now }
    {
        self.code.as_slice()
    }
}
