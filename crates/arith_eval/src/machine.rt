//! A stack machine that runs a program's instructions.

ghost use Rattle.std.specs.Prelude.{◌≡◌, ◌<◌, ◌≤◌, ◌+◌, ◌^◌, [], ◌∷◌, Ok, OnOk, OnErr};
ghost use Rattle.arith_eval.specs.Names.{value_in};
ghost use Rattle.arith_eval.specs.Value.{is_zero, value_of_name, binary, unary};
ghost use Rattle.arith_eval.specs.Machine.{Machine as State, Turns, Moves, IsBeforeOrBehind, at_rest, act, step, pass, top, below, infix_act, combine_act, pushed, stored};

use crate::error::ArithError;
use crate::namespace::Namespace;
use crate::operation::{binary, truth, unary};
use arith_syntax::instruction::Instruction;
use arith_syntax::operators::BinaryOperator;
use cluster_types::text::Text;
use std::alloc::{AllocError, Global};
use std::marker::Model;

/// The values of what was read so far.
#[derive(Drop)]
pub struct Machine {
    stack: Vec<i64>,
    skip: usize,
    last: i64,
}

impl Model for Machine {
    ghost use Rattle.std.specs.Prelude.{reverse};
    ghost use Rattle.arith_eval.specs.Machine.{Machine as State};

    ghost Value = { State };

    ghost view = { λ m. record { stack = reverse m.stack.items; skip = m.skip; last = m.last } };
}

impl Machine {
    /// A machine before its first instruction.
    pub fn new(alloc: Global) -> Machine
        ensures { result ≡ at_rest }
    {
        Machine {
            stack: Vec::new(alloc),
            skip: 0,
            last: 0,
        }
    }

    /// The value of the last expression.
    pub fn last(&self) -> i64
        ensures { result ≡ self.now.last }
    {
        self.last
    }

    /// Runs one instruction.
    pub fn step(
        &mut self,
        instruction: &Instruction,
        names: &mut Namespace,
    ) -> Result<(), ArithError>
        requires { self.old.skip < 2 ^ 63 }
        ensures moves { Moves result self.new (value_in names.old) (value_in names.new) (step instruction.now self.old (value_in names.old)) }
        ensures names { OnErr result (IsBeforeOrBehind (value_in names.old) (value_in names.new) (step instruction.now self.old (value_in names.old))) }
        ensures skip { self.new.skip ≤ self.old.skip + 1 }
    {
        if self.skip > 0 {
            self.skip = pass(instruction, self.skip);
            return Ok(());
        }
        self.act(instruction, names)
    }

    /// Runs an instruction that is not passed over.
    fn act(&mut self, instruction: &Instruction, names: &mut Namespace) -> Result<(), ArithError>
        requires { self.old.skip ≡ 0 }
        ensures moves { Moves result self.new (value_in names.old) (value_in names.new) (act instruction.now self.old.stack self.old.last (value_in names.old)) }
        ensures names { OnErr result (IsBeforeOrBehind (value_in names.old) (value_in names.new) (act instruction.now self.old.stack self.old.last (value_in names.old))) }
        ensures skip { self.new.skip ≤ 1 }
    {
        match instruction {
            Instruction::Push(value) => self.push(value.cast_signed())?,
            Instruction::Load(name) | Instruction::Target(name, Some(_)) => self.load(name, names)?,
            Instruction::Apply(operator) => {
                let value = self.pop();
                self.push(unary(*operator, value))?;
            }
            Instruction::Infix(operator) => self.begin_second(*operator)?,
            Instruction::Combine(operator) => self.combine(*operator)?,
            Instruction::Then => {
                let condition = self.pop();
                self.skip = if condition == 0 { 1 } else { 0 };
            }
            Instruction::Else => self.skip = 1,
            Instruction::Store(name, None) => {
                let value = self.pop();
                self.store(name, value, names)?;
            }
            Instruction::Store(name, Some(operator)) => {
                self.store_combined(name, *operator, names)?;
            }
            Instruction::Finish => self.last = self.pop(),
            Instruction::Target(_, None)
            | Instruction::Choose
            | Instruction::Open
            | Instruction::Close
            | Instruction::Sign(_) => {}
        }
        Ok(())
    }

    /// Pushes a value.
    fn push(&mut self, value: i64) -> Result<(), AllocError>
        ensures stack { OnOk result (self.new.stack ≡ value ∷ self.old.stack) }
        ensures skip { self.new.skip ≡ self.old.skip }
        ensures last { self.new.last ≡ self.old.last }
    {
        self.stack.push(value)?;
        Ok(())
    }

    /// Pops the newest value, of which there is one in every program.
    fn pop(&mut self) -> i64
        ensures value { result ≡ top self.old.stack }
        ensures stack { self.new.stack ≡ below self.old.stack }
        ensures skip { self.new.skip ≡ self.old.skip }
        ensures last { self.new.last ≡ self.old.last }
    {
        self.stack.pop().unwrap_or(0)
    }

    /// Pushes the value of a name.
    fn load(&mut self, name: &Text, names: &Namespace) -> Result<(), ArithError>
        requires { self.old.skip ≡ 0 }
        ensures turns { Turns result self.new (pushed (value_of_name (value_in names.now) name.now) self.old.stack self.old.last) }
        ensures skip { self.new.skip ≡ 0 }
    {
        match names.get(name) {
            Some(value) => {
                self.push(value)?;
                Ok(())
            }
            None => Err(ArithError::NameError(name.clone()?)),
        }
    }

    /// Acts between the operands of an operator.
    fn begin_second(&mut self, operator: BinaryOperator) -> Result<(), ArithError>
        requires { self.old.skip ≡ 0 }
        ensures turns { Turns result self.new (infix_act operator self.old.stack self.old.last) }
        ensures skip { self.new.skip ≤ 1 }
    {
        match operator {
            BinaryOperator::LogicalAnd => {
                if self.pop() == 0 {
                    self.decide(0)?;
                }
                Ok(())
            }
            BinaryOperator::LogicalOr => {
                if self.pop() != 0 {
                    self.decide(1)?;
                }
                Ok(())
            }
            _ => Ok(()),
        }
    }

    /// The first operand decides, and the second is passed over.
    fn decide(&mut self, value: i64) -> Result<(), AllocError>
        ensures stack { OnOk result (self.new.stack ≡ value ∷ self.old.stack) }
        ensures skip { self.new.skip ≡ 1 }
        ensures last { self.new.last ≡ self.old.last }
    {
        self.skip = 1;
        self.push(value)
    }

    /// Acts behind the operands of an operator.
    fn combine(&mut self, operator: BinaryOperator) -> Result<(), ArithError>
        requires { self.old.skip ≡ 0 }
        ensures turns { Turns result self.new (combine_act operator self.old.stack self.old.last) }
        ensures skip { self.new.skip ≡ 0 }
    {
        match operator {
            BinaryOperator::LogicalAnd | BinaryOperator::LogicalOr => {
                let second = self.pop();
                self.push(truth(second != 0))?;
                Ok(())
            }
            _ => {
                let value = self.pop_combined(operator)?;
                self.push(value)?;
                Ok(())
            }
        }
    }

    /// Pops two values, and gives theirs under an operator.
    fn pop_combined(&mut self, operator: BinaryOperator) -> Result<i64, ArithError>
        ensures value { result ≡ binary operator (top (below self.old.stack)) (top self.old.stack) }
        ensures stack { self.new.stack ≡ below (below self.old.stack) }
        ensures skip { self.new.skip ≡ self.old.skip }
        ensures last { self.new.last ≡ self.old.last }
    {
        let second = self.pop();
        let first = self.pop();
        binary(operator, first, second)
    }

    /// Gives a name a value, which is pushed too.
    fn store(&mut self, name: &Text, value: i64, names: &mut Namespace) -> Result<(), ArithError>
        requires { self.old.skip ≡ 0 }
        ensures moves { Moves result self.new (value_in names.old) (value_in names.new) (stored name.now (Ok value) self.old.stack self.old.last (value_in names.old)) }
        ensures names { OnErr result (IsBeforeOrBehind (value_in names.old) (value_in names.new) (stored name.now (Ok value) self.old.stack self.old.last (value_in names.old))) }
        ensures skip { self.new.skip ≡ 0 }
    {
        names.set(name, value)?;
        self.push(value)?;
        Ok(())
    }

    /// Gives a name the value of an assignment with an operator.
    fn store_combined(
        &mut self,
        name: &Text,
        operator: BinaryOperator,
        names: &mut Namespace,
    ) -> Result<(), ArithError>
        requires { self.old.skip ≡ 0 }
        ensures moves { Moves result self.new (value_in names.old) (value_in names.new) (stored name.now (binary operator (top (below self.old.stack)) (top self.old.stack)) (below (below self.old.stack)) self.old.last (value_in names.old)) }
        ensures names { OnErr result (IsBeforeOrBehind (value_in names.old) (value_in names.new) (stored name.now (binary operator (top (below self.old.stack)) (top self.old.stack)) (below (below self.old.stack)) self.old.last (value_in names.old))) }
        ensures skip { self.new.skip ≡ 0 }
    {
        let value = self.pop_combined(operator)?;
        self.store(name, value, names)
    }
}

/// How many choices are passed over behind an instruction that is passed over itself.
fn pass(instruction: &Instruction, skip: usize) -> usize
    requires few { skip < 2 ^ 63 }
    ensures value { result ≡ pass instruction.now skip }
    ensures more { result ≤ skip + 1 }
{
    match instruction {
        Instruction::Infix(BinaryOperator::LogicalAnd | BinaryOperator::LogicalOr)
        | Instruction::Then => skip + 1,
        Instruction::Combine(BinaryOperator::LogicalAnd | BinaryOperator::LogicalOr)
        | Instruction::Choose => skip.saturating_sub(1),
        Instruction::Else if skip == 1 => 0,
        _ => skip,
    }
}
