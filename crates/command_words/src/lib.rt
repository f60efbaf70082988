//! The words of a command line, and the lines with which the program says why it ends.
#![tactic(auto)]

pub mod command;
pub mod ending;
mod matches;
pub mod standing;
mod values;
