//! The value of a program.

ghost use Rattle.arith_eval.specs.Names.{value_in, FirstStand};
ghost use Rattle.arith_eval.specs.Value.{value_of_program, Evaluates};

use crate::error::ArithError;
use crate::machine::Machine;
use crate::namespace::Namespace;
use arith_syntax::program::Program;
use std::alloc::Global;

/// The value of a program, that of its last expression, or 0 where it has none. Assignments that were made before a
/// fault stand. After want of memory the first of the program's assignments stand, up to some place in the order of
/// evaluation, and nothing else is changed.
pub fn run(alloc: Global, program: &Program, names: &mut Namespace) -> Result<i64, ArithError>
    ensures value { Evaluates result (value_of_program program.now (value_in names.old)) (value_in names.new) }
    ensures names { FirstStand (value_of_program program.now (value_in names.old)).made (value_in names.old) (value_in names.new) }
{
    let mut machine = Machine::new(alloc);
    for instruction in program.instructions() {
        machine.step(instruction, names)?;
    }
    Ok(machine.last())
}
