//! The values of arithmetic expressions, by POSIX XCU 2.6.4: 64-bit signed integers that wrap.
//!
//! Contracts see a namespace as the values of names, and the value of a program by recursion over its trees. The code
//! runs the program's instructions one after another over a stack of values, so that no chain of operators takes any
//! recursion.
#![tactic(auto)]

pub mod error;
mod machine;
pub mod namespace;
mod operation;
pub mod run;
