//! The two sessions of a link to a controller, each of which runs in a thread of its own over one desk, and the admission
//! of a link.
#![tactic(auto)]

pub mod admission;
pub mod connection;
pub mod context;
mod hearing;
mod outgoing;
pub mod reading;
pub mod writing;
