//! The store of a cluster: its core over a journal, and what it sends once that is safe on the disk.
#![tactic(auto)]

pub mod fault;
pub mod laws;
pub mod opening;
pub mod queues;
mod remaking;
pub mod store;
pub mod taken;
pub mod waiting;
