//! The arithmetic expressions of POSIX XCU 2.6.4: parsed to programs, and printed again.
//!
//! A program is a list of expressions. Contracts see it as a list of trees; the code keeps each tree written out flat,
//! as instructions in the order of reading, so that neither a long chain of operators nor dropping a program takes
//! any recursion.
#![tactic(auto)]

mod constants;
pub mod error;
pub mod instruction;
pub mod laws;
pub mod operators;
pub mod parser;
pub mod pending;
pub mod printing;
pub mod program;
mod reader;
pub mod refusal;
mod scanner;
pub mod token;
