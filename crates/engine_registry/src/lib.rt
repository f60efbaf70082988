//! Engines that are live, found without a walk through all of them.
#![tactic(auto)]

mod beats;
mod by_conn;
mod by_number;
mod by_uuid;
mod joins;
pub mod registry;
