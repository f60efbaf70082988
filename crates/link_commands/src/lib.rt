//! What the program does at the ports of a cluster that stands: an engine works for it, or a client asks it for something.
#![tactic(auto)]

mod actions;
mod answering;
pub mod asking;
pub mod client;
mod dialled;
pub mod end;
pub mod engine;
mod finding;
pub mod host;
mod random;
pub mod status;
pub mod working;
