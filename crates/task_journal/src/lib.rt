//! The journal of a cluster: its entries on a disk, in batches behind gates.
#![tactic(auto)]

pub mod batch;
pub mod cursor;
mod disk_calls;
pub mod fault;
pub mod found;
pub mod gate;
mod head;
pub mod journal;
pub mod opening;
pub mod reading;
mod room;
pub mod version;
mod window;
