//! The links to a controller that haven't signed anything: which gives way, and which is past its time.
#![tactic(auto)]

pub mod book;
pub mod link;
