//! The calls by which threads use one cluster: each is one turn at a lock around its store.
#![tactic(auto)]

pub mod acted;
pub mod desk;
pub mod fault;
pub mod lent;
pub mod locked;
pub mod reading;
pub mod stamp;
