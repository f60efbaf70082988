//! A peer of ZMTP 3.0 (RFC 23) with the NULL mechanism: its stream comes in any pieces, and gives octets to send, an
//! identity and messages.
#![tactic(auto)]

pub mod fault;
pub mod laws;
pub mod parts;
pub mod peer;
pub mod phase;
pub mod writing;
