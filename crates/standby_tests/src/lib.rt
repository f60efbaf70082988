//! Tests of a standby over disks in memory. They stand in a crate of their own since a crate that has tests is proved twice.
#![tactic(auto)]

#[cfg(test)]
mod choosing;
#[cfg(test)]
mod standbys;
