//! The caller of a controller's threads, which gives each link its sessions over one desk.
#![tactic(auto)]

pub mod accepting;
pub mod admissions;
pub mod arriving;
mod caller;
pub mod closing;
pub mod end;
pub mod halt;
pub mod handed;
mod jobs;
pub mod linking;
pub mod naming;
mod opening;
pub mod passes;
pub mod pending;
pub mod port;
pub mod ports;
pub mod queue;
pub mod serving;
mod sessions;
pub mod shared;
pub mod starting;
pub mod stop;
pub mod watching;
pub mod workers;
pub mod writers;
