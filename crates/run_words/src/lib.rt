//! The words of the commands that run codes on engines of their own, and how these commands end.
#![tactic(auto)]

pub mod command;
pub mod ending;
mod numbers;
