//! Tests of the words of commands, and of what dump, check and compact make of a database. They stand in a crate of their own
//! since a crate that has tests is proved twice.
#![tactic(auto)]

#[cfg(test)]
mod database_standing;
#[cfg(test)]
mod databases;
#[cfg(test)]
mod histories;
#[cfg(test)]
mod words;
