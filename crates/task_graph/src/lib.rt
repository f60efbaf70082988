//! Which tasks wait for an id.
#![tactic(auto)]

pub mod steps;
pub mod waiters;
