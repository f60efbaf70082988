//! A tape of recorded connections, served record by record, and the laws that hold of all that is sent for tapes over one file.
#![tactic(auto)]

pub mod bare;
pub mod drive;
pub mod fault;
mod inputs;
pub mod laws;
pub mod life_laws;
mod links;
pub mod order;
mod records;
mod rules;
mod sends;
mod sizes;
pub mod steps;
