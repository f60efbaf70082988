//! Codes that are run by engine threads over one book, and whose answers the caller prints in order.
#![tactic(auto)]

pub mod caller;
pub mod end;
mod engines;
mod messages;
pub mod running;
mod serving;
pub mod shared;
mod starting;
mod worker;
