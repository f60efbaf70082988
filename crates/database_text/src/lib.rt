//! Printing the entries of a disk as text, comparing a text with them, and writing them as a journal at once.
#![tactic(auto)]

mod batches;
pub mod check;
pub mod compact;
pub mod comparison;
mod database;
pub mod dump;
pub mod fault;
mod going;
pub mod laws;
pub mod lines;
mod meanings;
mod messages;
mod notes;
mod pass;
mod pending;
mod seen;
pub mod thinning;
pub mod writing;
