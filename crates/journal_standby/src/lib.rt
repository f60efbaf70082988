//! A standby: a disk that follows the journal of a primary, and goes on in its place.
#![tactic(auto)]

mod batches;
mod comparing;
pub mod fault;
pub mod image;
pub mod laws;
mod lists;
pub mod promotion;
pub mod standby;
