//! The law of promotion: a primary's life goes on where its standby is opened in its place.
#![tactic(auto)]

pub mod laws;
