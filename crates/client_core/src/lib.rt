//! A client of the cluster, without its sockets: it makes requests, and tells the outcomes of its tasks from other messages.
//! A task can have a stored closure, which is called once, when the task settles.
#![tactic(auto)]

pub mod answered;
pub mod answers;
pub mod client;
pub mod error;
mod identifier;
pub mod laws;
pub mod limits;
pub mod metadata;
pub mod note;
pub mod noted;
pub mod notes;
pub mod numbered;
pub mod refusal;
mod request;
mod stand;
pub mod submissions;
mod taking;
mod task;
mod texts;
pub mod took;
mod used;
pub mod watcher;
