//! Records of entries: each entry has one record, and no record begins another.
#![tactic(auto)]

pub mod fault;
pub mod laws;
mod message;
pub mod reading;
pub mod size;
mod values;
pub mod writing;
