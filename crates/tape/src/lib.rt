//! Tapes: what came in on recorded connections, and what was sent.
#![tactic(auto)]

pub mod laws;
pub mod reader;
pub mod reading;
pub mod record;
pub mod writing;
