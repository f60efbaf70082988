//! What is known of a cluster after a history, as plain data, and how each further entry changes it.
#![tactic(auto)]

pub mod aborts;
pub mod acceptance;
pub mod copies;
pub mod engines;
pub mod entries;
pub mod messages;
pub mod outcomes;
pub mod purges;
pub mod replies;
pub mod ruling;
pub mod settling;
pub mod state;
