//! Dependencies over how other tasks were settled.
#![tactic(auto)]

pub mod dependencies;
pub mod finished;
pub mod following;
pub mod id_counts;
