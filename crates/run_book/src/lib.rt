//! The book of a command that runs codes on engines of its own: a cluster in memory that its threads use by turns.
#![tactic(auto)]

pub mod book;
pub mod halt;
pub mod kept;
mod lent;
pub mod opening;
