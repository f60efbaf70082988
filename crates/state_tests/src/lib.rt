//! Tests of the state of a cluster, of what is kept beside it, of its decisions, and of the core. They stand in a crate of their
//! own since a crate that has tests is proved twice.
#![tactic(auto)]

#[cfg(test)]
mod answers;
#[cfg(test)]
mod beside;
#[cfg(test)]
mod common;
#[cfg(test)]
mod decisions;
#[cfg(test)]
mod lanes;
#[cfg(test)]
mod registry;
#[cfg(test)]
mod schemes;
#[cfg(test)]
mod settles;
#[cfg(test)]
mod state;
#[cfg(test)]
mod steps;
