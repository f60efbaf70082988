//! What each entry sends, off the data of a cluster.
#![tactic(auto)]

mod answers;
mod beats;
mod demands;
pub mod entries;
mod messages;
mod passes;
mod questions;
mod rows;
pub mod rulings;
