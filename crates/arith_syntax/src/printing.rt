//! A program as a text.

ghost use Rattle.std.specs.Prelude.{◌≡◌, ◌≤◌, [], ◌∷◌, ◌++◌, length, flat_map, string_bytes, IfOk, OnOk};
ghost use Rattle.arith_syntax.specs.Grammar.{Grammar};
ghost use Rattle.arith_syntax.specs.Printing.{operator_text, sign_text, assignment_text, printed, instruction_text};

use crate::instruction::Instruction;
use crate::operators::{BinaryOperator, UnaryOperator};
use crate::program::Program;
use std::alloc::{AllocError, Global};

/// The text of a program, a line for each expression and a space behind each token. `parse` of it gives the same
/// program again where it has at most 65,536 octets.
pub fn print(alloc: Global, program: &Program) -> Result<String, AllocError>
    ensures text { IfOk result (λ t. string_bytes t ≡ printed program.now) }
    ensures grammar { IfOk result (λ t. length (string_bytes t) ≤ 65536 → Grammar (string_bytes t) program.now) }
{
    let mut text = String::new(alloc);
    for instruction in program.instructions() {
        put(alloc, &mut text, instruction)?;
    }
    Ok(text)
}

/// Appends the text of an instruction.
fn put(alloc: Global, text: &mut String, instruction: &Instruction) -> Result<(), AllocError>
    ensures { OnOk result (string_bytes text.new ≡ string_bytes text.old ++ instruction_text instruction.now) }
{
    match instruction {
        Instruction::Push(value) => put_spaced(text, value.to_string(alloc)?.as_str()),
        Instruction::Load(name) => put_spaced(text, name.as_str()),
        Instruction::Open => put_spaced(text, "("),
        Instruction::Close => put_spaced(text, ")"),
        Instruction::Sign(operator) => put_spaced(text, sign_text(*operator)),
        Instruction::Infix(operator) => put_spaced(text, operator_text(*operator)),
        Instruction::Then => put_spaced(text, "?"),
        Instruction::Else => put_spaced(text, ":"),
        Instruction::Target(name, operator) => {
            put_spaced(text, name.as_str())?;
            put_assignment(text, *operator)
        }
        Instruction::Finish => put_text(text, "\n"),
        Instruction::Apply(_)
        | Instruction::Combine(_)
        | Instruction::Choose
        | Instruction::Store(_, _) => Ok(()),
    }
}

/// Appends a text.
fn put_text(text: &mut String, more: &str) -> Result<(), AllocError>
    ensures { OnOk result (string_bytes text.new ≡ string_bytes text.old ++ more.now) }
{
    text.push_str(more)
}

/// Appends a text and a space.
fn put_spaced(text: &mut String, more: &str) -> Result<(), AllocError>
    ensures { OnOk result (string_bytes text.new ≡ string_bytes text.old ++ (more.now ++ 32 ∷ [])) }
{
    text.push_str(more)?;
    text.push_str(" ")?;
    Ok(())
}

/// Appends an assignment operator and a space.
fn put_assignment(text: &mut String, operator: Option<BinaryOperator>) -> Result<(), AllocError>
    ensures { OnOk result (string_bytes text.new ≡ string_bytes text.old ++ (assignment_text operator ++ 32 ∷ [])) }
{
    if let Some(operator) = operator {
        text.push_str(operator_text(operator))?;
    }
    put_spaced(text, "=")
}

/// The text of a unary operator.
fn sign_text(operator: UnaryOperator) -> &'static str
    ensures { result.now ≡ sign_text operator }
{
    match operator {
        UnaryOperator::Plus => "+",
        UnaryOperator::Minus => "-",
        UnaryOperator::Complement => "~",
        UnaryOperator::Not => "!",
    }
}

/// The text of a binary operator.
fn operator_text(operator: BinaryOperator) -> &'static str
    ensures { result.now ≡ operator_text operator }
{
    match operator {
        BinaryOperator::LogicalOr => "||",
        BinaryOperator::LogicalAnd => "&&",
        BinaryOperator::BitOr => "|",
        BinaryOperator::BitXor => "^",
        BinaryOperator::BitAnd => "&",
        BinaryOperator::EqualTo => "==",
        BinaryOperator::NotEqualTo => "!=",
        BinaryOperator::LessThan => "<",
        BinaryOperator::LessOrEqual => "<=",
        BinaryOperator::GreaterThan => ">",
        BinaryOperator::GreaterOrEqual => ">=",
        BinaryOperator::ShiftLeft => "<<",
        BinaryOperator::ShiftRight => ">>",
        BinaryOperator::Add => "+",
        BinaryOperator::Subtract => "-",
        BinaryOperator::Multiply => "*",
        BinaryOperator::Divide => "/",
        BinaryOperator::Remainder => "%",
    }
}
