//! Tests of clients, and of the sessions of engines and clients over links. They stand in a crate of their own since a crate that
//! has tests is proved twice.
#![tactic(auto)]

#[cfg(test)]
mod asking;
#[cfg(test)]
mod clients;
#[cfg(test)]
mod commands;
#[cfg(test)]
mod sessions;
