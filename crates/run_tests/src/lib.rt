//! Tests of the commands that run codes on engines of their own. They stand in a crate of their own since a crate that has tests is
//! proved twice.
#![tactic(auto)]

#[cfg(test)]
mod words;
