//! The wire form of messages (Jupyter messaging 5.3, "The wire protocol"): identity frames, a delimiter, the signature,
//! the four JSON parts that it signs, and buffers.
#![tactic(auto)]

pub mod fault;
pub mod laws;
pub mod read;
pub mod write;
