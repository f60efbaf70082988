//! What texts give in a namespace.

ghost use Rattle.std.specs.Prelude.{◌≡◌, ℕ, List, Ok, IfOk};
ghost use Rattle.arith_syntax.specs.Grammar.{Grammar};
ghost use Rattle.arith_eval.specs.Names.{value_in};
ghost use Rattle.engine_core.specs.Evaluation.{Gives, GiveAll};

use crate::fault::Fault;
use crate::request::Expression;
use arith_eval::error::ArithError;
use arith_eval::namespace::Namespace;
use arith_eval::run::run;
use arith_syntax::error::SyntaxError;
use arith_syntax::parser::parse;
use arith_syntax::program::Program;
use cluster_types::sequence::Sequence;
use cluster_types::text::Text;
use std::alloc::{AllocError, Global};

/// What an expression gave under its name.
#[derive(Debug, Drop)]
pub struct Shown {
    pub name: Text,
    pub value: Result<i64, Fault>,
}

/// What a program gives.
fn run_program(
    alloc: Global,
    program: &Program,
    names: &mut Namespace,
) -> Result<Result<i64, Fault>, AllocError>
    ensures { (text : List ℕ) → Grammar text program.now → IfOk result (λ value. Gives text (value_in names.old) value (value_in names.new)) }
{
    match run(alloc, program, names) {
        Ok(value) => Ok(Ok(value)),
        Err(ArithError::OutOfMemory) => Err(AllocError),
        Err(error) => Ok(Err(Fault::Arithmetic(error))),
    }
}

/// What a text gives. What it assigns before a fault stays.
pub fn evaluate(
    alloc: Global,
    text: &str,
    names: &mut Namespace,
) -> Result<Result<i64, Fault>, AllocError>
    ensures { IfOk result (λ value. Gives text.now (value_in names.old) value (value_in names.new)) }
{
    match parse(alloc, text) {
        Ok(program) => run_program(alloc, &program, names),
        Err(SyntaxError::OutOfMemory) => Err(AllocError),
        Err(error) => Ok(Err(Fault::Syntax(error))),
    }
}

/// What an expression gives, under its name.
fn show(alloc: Global, expression: &Expression, names: &mut Namespace) -> Result<Shown, AllocError>
    ensures name { IfOk result (λ shown. shown.name ≡ expression.now.name) }
    ensures gives { IfOk result (λ shown. Gives expression.now.code (value_in names.old) shown.value (value_in names.new)) }
{
    let value = evaluate(alloc, expression.code.as_str(), names)?;
    Ok(Shown {
        name: expression.name.clone()?,
        value,
    })
}

/// What expressions give one after another, in one namespace.
pub fn evaluate_all(
    alloc: Global,
    expressions: &[Expression],
    names: &mut Namespace,
) -> Result<Sequence<Shown>, AllocError>
    ensures { IfOk result (λ shown. GiveAll expressions.now (value_in names.old) shown (value_in names.new)) }
{
    let mut shown = Sequence::new(alloc);
    for expression in expressions {
        shown.push(show(alloc, expression, names)?)?;
    }
    Ok(shown)
}
