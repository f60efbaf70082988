//! Jobs: tasks that wait for one another, read from a text of lines and submitted over a client.
#![tactic(auto)]

pub mod error;
pub mod laws;
mod line;
mod names;
mod parts;
pub mod read;
pub mod submit;
pub mod task;
