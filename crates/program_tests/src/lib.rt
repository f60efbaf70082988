//! Tests of drives, of generated work, and of the top call of the commands that end by themselves. They stand in a crate of their
//! own since a crate that has tests is proved twice.
#![tactic(auto)]

#[cfg(test)]
mod choosing;
#[cfg(test)]
mod generation;
#[cfg(test)]
mod program;
#[cfg(test)]
mod tapes;
#[cfg(test)]
mod works;
