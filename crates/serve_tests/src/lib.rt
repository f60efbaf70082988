//! Tests of the sessions of a link, and of a controller in threads. They stand in a crate of their own since a crate
//! that has tests is proved twice.
#![tactic(auto)]

#[cfg(test)]
mod answers;
#[cfg(test)]
mod controller;
#[cfg(test)]
mod desks;
#[cfg(test)]
mod dialled;
#[cfg(test)]
mod ends;
#[cfg(test)]
mod gate;
#[cfg(test)]
mod handing;
#[cfg(test)]
mod serving;
#[cfg(test)]
mod sessions;
#[cfg(test)]
mod standing_fixture;
#[cfg(test)]
mod strangers;
