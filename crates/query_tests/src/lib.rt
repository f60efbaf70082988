//! Tests of queries of records by their fields. They stand in a crate of their own since a crate that has tests is proved twice.
#![tactic(auto)]

#[cfg(test)]
mod common;
#[cfg(test)]
mod finding;
#[cfg(test)]
mod limits;
#[cfg(test)]
mod refusing;
#[cfg(test)]
mod showing;
