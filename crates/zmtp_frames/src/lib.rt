//! ZMTP 3.0 (RFC 23): the greeting, frames of a stream that comes in any pieces, and commands.
#![tactic(auto)]

pub mod command;
pub mod fault;
pub mod frame;
pub mod greeting;
pub mod laws;
pub mod metadata;
mod names;
pub mod reader;
pub mod writing;
