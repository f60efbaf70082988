//! Codes that spread a list of numbers over engines and bring it back, sent over a client that gathers what they answer.
#![tactic(auto)]

pub mod blocks;
pub mod codes;
pub mod error;
pub mod gathered;
pub mod laws;
mod names;
pub mod sending;
mod texts;
