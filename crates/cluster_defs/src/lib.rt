//! What messages mean, and what a cluster is: definitions over texts and histories, the small types that they speak of, and the
//! laws that hold of them.
#![tactic(auto)]

pub mod acceptance;
pub mod answer;
pub mod attempt;
pub mod connection;
pub mod content;
pub mod engine;
pub mod fault;
pub mod filter;
pub mod header;
pub mod hub_request;
pub mod request;
pub mod settled;
