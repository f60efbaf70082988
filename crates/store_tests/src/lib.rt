//! Tests of disks, journals, queues and the store, of histories without what purges let go, and of journals that are written at
//! once. They stand in a crate of their own since a crate that has tests is proved twice.
#![tactic(auto)]

#[cfg(test)]
mod choosing;
#[cfg(test)]
mod compacted;
#[cfg(test)]
mod cursors;
#[cfg(test)]
mod disks;
#[cfg(test)]
mod journals;
#[cfg(test)]
mod queues;
#[cfg(test)]
mod rooms;
#[cfg(test)]
mod stores;
#[cfg(test)]
mod thinning;
