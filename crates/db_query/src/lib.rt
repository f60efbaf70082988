//! Queries of records by their fields.
#![tactic(auto)]

pub mod answer;
mod choices;
pub mod fault;
mod fields;
mod keys;
mod listing;
mod matching;
mod reading;
mod shown;
