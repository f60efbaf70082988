//! Readers and writers of the JSON parts of messages.
//!
//! Each reader reads its text once, and answers the first fault in the order of the fields.
#![tactic(auto)]

pub mod contents;
pub mod distinct;
pub mod fields;
pub mod header;
pub mod hub;
pub mod kinds;
mod lists;
pub mod object;
mod points;
pub mod reply;
pub mod submit;
pub mod values;
pub mod write;
