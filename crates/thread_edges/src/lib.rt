//! The ports of the product to other machines, to time, to chance and to threads: each as a trait,
//! with one in memory and one over the system.
#![tactic(auto)]

pub mod clock;
pub mod event_gate;
pub mod gate;
pub mod links;
pub mod memory;
mod series;
pub mod sockets;
pub mod spawner;
pub mod system;
pub mod words;
