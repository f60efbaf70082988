//! The lines of what codes and tasks have answered, in order, each as soon as it and those ahead of it are known.
#![tactic(auto)]

pub mod labels;
mod lines;
pub mod printing;
