//! An engine that evaluates arithmetic: it joins a cluster, and answers each request with a reply.
//!
//! Contracts see an engine as its uuid, the values of its names, its execution count and how many replies it gave. An
//! answer is a relation between an engine, a message and a moment, and the reply and the engine behind it.
#![tactic(auto)]

mod contents;
pub mod engine;
pub mod error;
mod evaluation;
mod fault;
mod headers;
mod kernel;
mod kinds;
pub mod laws;
mod reading;
mod request;
