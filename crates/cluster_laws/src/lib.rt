//! What holds of every legal history of a cluster: each law is the contract of a function that does nothing.
#![tactic(auto)]

pub mod facts;
pub mod laws;
