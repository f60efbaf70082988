//! How an engine is chosen among those where a task may run: by a place in the list of their loads.
#![tactic(auto)]

pub mod chooser;
pub mod place;
