//! What crosses a link: its handshake, signed messages as frames, outs as octets, and the identity of a connection.
#![tactic(auto)]

pub mod end;
pub mod greeting;
pub mod identity;
pub mod link;
pub mod message;
pub mod outs;
