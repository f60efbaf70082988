//! Reading a program token by token, by operator precedence.

ghost use Rattle.std.specs.Prelude.{◌≡◌, ◌≤◌, ◌∷◌, OnOk, OnErr, IfSome, IfNone, reverse};
ghost use Rattle.arith_syntax.specs.Tree.{level_of};
ghost use Rattle.arith_syntax.specs.Reading.{State, Steps, Step, nothing_read, close, nested, step, first_step, next_step, operand, empty_expression, second_choice, parenthesized, expression_end, may_assign, assignment, tightness, nests, depth_of, ending, IsLooser};

use crate::instruction::Instruction;
use crate::operators::{BinaryOperator, UnaryOperator};
use crate::pending::Pending;
use crate::refusal::{Fault, Refusal};
use crate::token::Token;
use std::alloc::{AllocError, Global};
use std::marker::Model;

/// What was read so far. Its stack has what waits for an operand or for more.
#[derive(Drop)]
pub struct Reader {
    code: Vec<Instruction>,
    waits: Vec<Pending>,
    complete: bool,
    depth: usize,
}

impl Model for Reader {
    ghost use Rattle.std.specs.Prelude.{◌≡◌, List, reverse};
    ghost use Rattle.arith_syntax.specs.Reading.{State, depth_of};

    ghost Value = { State };

    ghost view = { λ r. record { code = reverse r.code.items; waits = reverse r.waits.items; complete = r.complete } };

    ghost invariant = { λ r. r.depth ≡ depth_of (reverse r.waits.items) };
}

impl Reader {
    /// Nothing read.
    pub fn new(alloc: Global) -> Reader
        ensures { result ≡ nothing_read }
    {
        Reader {
            code: Vec::new(alloc),
            waits: Vec::new(alloc),
            complete: false,
            depth: 0,
        }
    }

    /// The instructions of what was read.
    pub fn into_code(self) -> Vec<Instruction>
        ensures { reverse result.items ≡ self.code }
    {
        let Reader { code, .. } = self;
        code
    }

    /// Takes one token.
    pub fn take(&mut self, token: Token) -> Result<(), Refusal>
        ensures { Steps result self.new (step 64 token self.old) }
    {
        if self.complete {
            self.take_next(token)
        } else {
            self.take_first(token)
        }
    }

    /// Takes a token where an operand is awaited.
    fn take_first(&mut self, token: Token) -> Result<(), Refusal>
        ensures { Steps result self.new (first_step 64 token self.old) }
    {
        match token {
            Token::Number(value) => self.take_operand(Instruction::Push(value)),
            Token::Name(name) => self.take_operand(Instruction::Load(name)),
            Token::TooLarge => Err(Refusal::Fault(Fault::Large)),
            Token::Binary(BinaryOperator::Add) => self.take_sign(UnaryOperator::Plus),
            Token::Binary(BinaryOperator::Subtract) => self.take_sign(UnaryOperator::Minus),
            Token::Tilde => self.take_sign(UnaryOperator::Complement),
            Token::Exclamation => self.take_sign(UnaryOperator::Not),
            Token::LeftParenthesis => self.nest(Instruction::Open, Pending::Parenthesis),
            Token::Separator | Token::End => self.end_empty(),
            Token::Bad => Err(Refusal::Fault(Fault::NoToken)),
            _ => Err(Refusal::Fault(Fault::Misplaced)),
        }
    }

    /// Takes a token behind an operand.
    fn take_next(&mut self, token: Token) -> Result<(), Refusal>
        ensures { Steps result self.new (next_step 64 token self.old) }
    {
        match token {
            Token::Binary(operator) => self.take_operator(operator),
            Token::Assign(operator) => self.take_assignment(operator),
            Token::Question => {
                self.close(3)?;
                self.nest(Instruction::Then, Pending::Condition)
            }
            Token::Colon => {
                self.close(1)?;
                self.take_choice()
            }
            Token::RightParenthesis => {
                self.close(1)?;
                self.take_parenthesis()
            }
            Token::Separator | Token::End => {
                self.close(1)?;
                self.end()
            }
            Token::Bad => Err(Refusal::Fault(Fault::NoToken)),
            _ => Err(Refusal::Fault(Fault::Misplaced)),
        }
    }

    /// Takes an operand.
    fn take_operand(&mut self, instruction: Instruction) -> Result<(), Refusal>
        ensures { Steps result self.new (operand instruction self.old) }
    {
        self.code.push(instruction)?;
        self.complete = true;
        Ok(())
    }

    /// Takes a unary operator.
    fn take_sign(&mut self, operator: UnaryOperator) -> Result<(), Refusal>
        ensures { Steps result self.new (nested 64 (Instruction.Sign operator) (Pending.Prefixed operator) self.old.code self.old.waits) }
    {
        self.nest(Instruction::Sign(operator), Pending::Prefixed(operator))
    }

    /// Opens one more construct.
    fn nest(&mut self, instruction: Instruction, pending: Pending) -> Result<(), Refusal>
        requires { nests pending ≡ 1 }
        ensures { Steps result self.new (nested 64 instruction pending self.old.code self.old.waits) }
    {
        if self.depth >= 64 {
            return Err(Refusal::Fault(Fault::Nested));
        }
        self.code.push(instruction)?;
        self.waits.push(pending)?;
        self.depth += 1;
        self.complete = false;
        Ok(())
    }

    /// Ends an expression that has no token.
    fn end_empty(&self) -> Result<(), Refusal>
        ensures { Steps result self.now (empty_expression self.now self.now.waits) }
    {
        if self.waits.is_empty() {
            Ok(())
        } else {
            Err(Refusal::Fault(Fault::Misplaced))
        }
    }

    /// Takes a binary operator.
    fn take_operator(&mut self, operator: BinaryOperator) -> Result<(), Refusal>
        ensures { Steps result self.new (next_step 64 (Token.Binary operator) self.old) }
    {
        self.close(level(operator))?;
        self.code.push(Instruction::Infix(operator))?;
        self.waits.push(Pending::Operator(operator))?;
        self.complete = false;
        Ok(())
    }

    /// What binds at least so tight takes the operand.
    fn close(&mut self, tight: usize) -> Result<(), Refusal>
        ensures ok { OnOk result (self.new ≡ close tight self.old.code self.old.waits) }
        ensures err { OnErr result (result ≡ Err Refusal.OutOfMemory) }
    {
        while let Some(pending) = self.pop_tighter(tight) {
            self.code.push(ending_of(pending))?;
        }
        self.complete = true;
        Ok(())
    }

    /// The newest of what waits, where it binds at least so tight.
    fn pop_tighter(&mut self, tight: usize) -> Option<Pending>
        ensures some { IfSome result (λ p. (self.old.waits ≡ p ∷ self.new.waits) × (tight ≤ tightness p)) }
        ensures none { IfNone result ((self.new ≡ self.old) × IsLooser tight self.old.waits) }
        ensures code { self.new.code ≡ self.old.code }
    {
        if tight > tightness_of(self.waits.last()?) {
            return None;
        }
        let pending = self.waits.pop()?;
        if !matches!(&pending, Pending::Operator(_)) {
            self.depth -= 1;
        }
        Some(pending)
    }

    /// Takes the `:` of a choice.
    fn take_choice(&mut self) -> Result<(), Refusal>
        ensures { Steps result self.new (second_choice self.old.code self.old.waits) }
    {
        let Some(Pending::Condition) = self.waits.last() else {
            return Err(Refusal::Fault(Fault::Misplaced));
        };
        let _ = self.waits.pop();
        self.waits.push(Pending::Alternative)?;
        self.code.push(Instruction::Else)?;
        self.complete = false;
        Ok(())
    }

    /// Takes the `)` of a parenthesis.
    fn take_parenthesis(&mut self) -> Result<(), Refusal>
        ensures { Steps result self.new (parenthesized self.old.code self.old.waits) }
    {
        let Some(Pending::Parenthesis) = self.waits.last() else {
            return Err(Refusal::Fault(Fault::Misplaced));
        };
        let _ = self.waits.pop();
        self.depth -= 1;
        self.code.push(Instruction::Close)?;
        self.complete = true;
        Ok(())
    }

    /// Ends an expression.
    fn end(&mut self) -> Result<(), Refusal>
        ensures { Steps result self.new (expression_end self.old.code self.old.waits) }
    {
        if !self.waits.is_empty() {
            return Err(Refusal::Fault(Fault::Misplaced));
        }
        self.code.push(Instruction::Finish)?;
        self.complete = false;
        Ok(())
    }

    /// Whether an assignment can stand here.
    fn may_assign(&self) -> bool
        ensures { result ≡ may_assign self.now.waits }
    {
        match self.waits.last() {
            None | Some(Pending::Parenthesis | Pending::Condition | Pending::Assigned(_, _)) =>
                true,
            Some(_) => false,
        }
    }

    /// Takes an assignment operator behind the name that it assigns to.
    fn take_assignment(&mut self, operator: Option<BinaryOperator>) -> Result<(), Refusal>
        ensures { Steps result self.new (assignment 64 operator self.old.code self.old.waits) }
    {
        let may = self.may_assign();
        let Some(Instruction::Load(name)) = self.code.pop() else {
            return Err(Refusal::Fault(Fault::Misplaced));
        };
        if !may {
            return Err(Refusal::Fault(Fault::Misplaced));
        }
        let again = name.clone()?;
        self.nest(
            Instruction::Target(name, operator),
            Pending::Assigned(again, operator),
        )
    }
}

/// How tight a binary operator binds.
pub fn level(operator: BinaryOperator) -> usize
    ensures { result ≡ level_of operator }
{
    match operator {
        BinaryOperator::LogicalOr => 3,
        BinaryOperator::LogicalAnd => 4,
        BinaryOperator::BitOr => 5,
        BinaryOperator::BitXor => 6,
        BinaryOperator::BitAnd => 7,
        BinaryOperator::EqualTo | BinaryOperator::NotEqualTo => 8,
        BinaryOperator::LessThan
        | BinaryOperator::LessOrEqual
        | BinaryOperator::GreaterThan
        | BinaryOperator::GreaterOrEqual => 9,
        BinaryOperator::ShiftLeft | BinaryOperator::ShiftRight => 10,
        BinaryOperator::Add | BinaryOperator::Subtract => 11,
        BinaryOperator::Multiply | BinaryOperator::Divide | BinaryOperator::Remainder => 12,
    }
}

/// How tight what waits binds.
fn tightness_of(pending: &Pending) -> usize
    ensures { result ≡ tightness pending.now }
{
    match pending {
        Pending::Parenthesis | Pending::Condition => 0,
        Pending::Assigned(_, _) => 1,
        Pending::Alternative => 2,
        Pending::Operator(operator) => level(*operator),
        Pending::Prefixed(_) => 13,
    }
}

/// The instruction that ends what waits.
fn ending_of(pending: Pending) -> Instruction
    ensures { result ≡ ending pending }
{
    match pending {
        Pending::Parenthesis => Instruction::Close,
        Pending::Condition | Pending::Alternative => Instruction::Choose,
        Pending::Assigned(name, operator) => Instruction::Store(name, operator),
        Pending::Operator(operator) => Instruction::Combine(operator),
        Pending::Prefixed(operator) => Instruction::Apply(operator),
    }
}
