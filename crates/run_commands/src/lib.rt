//! The commands that run codes on engines of their own: `run`, `map` and `job`.
#![tactic(auto)]

pub mod errors;
mod preparing;
pub mod running;
pub mod shown;
