//! Reading a link up to its first signed message.
#![tactic(auto)]

pub mod signing;
