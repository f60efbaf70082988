//! Tests of octets on their way: frames, streams of peers, signed parts, tapes, records of entries, links, and what they and
//! the threads at a lock stand on. They stand in a crate of their own since a crate that has tests is proved twice.
#![tactic(auto)]

#[cfg(test)]
mod common;
#[cfg(test)]
mod fields;
#[cfg(test)]
mod frames;
#[cfg(test)]
mod links;
#[cfg(test)]
mod locks;
#[cfg(test)]
mod parts;
#[cfg(test)]
mod peers;
#[cfg(test)]
mod records;
#[cfg(test)]
mod sharing;
#[cfg(test)]
mod signing;
#[cfg(test)]
mod streams;
#[cfg(test)]
mod tapes;
