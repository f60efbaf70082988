//! The commands that are about a cluster at its ports: a controller that serves over a database, an engine that works for it,
//! and a client that asks it for something.
#![tactic(auto)]

pub mod errors;
mod links;
mod serving;
pub mod shown;
pub mod site;
pub mod standing;
