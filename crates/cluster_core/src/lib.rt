//! The core of a controller: it takes inputs, makes the decisions that are due, and says what to send and to keep.
#![tactic(auto)]

mod known;
mod live;
pub mod machine;
pub mod meaning;
pub mod plan;
pub mod size;
mod taken;
