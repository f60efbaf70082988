//! The one decision that is due, worked out over the data of a cluster.
#![tactic(auto)]

pub mod due;
mod failing;
mod handing;
mod losing;
mod rooms;
mod settling;
