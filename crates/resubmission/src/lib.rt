//! What a purge and a resubmission of listed tasks come to, all or none.
#![tactic(auto)]

pub mod abort;
pub mod building;
pub mod distinct;
pub mod list;
pub mod plan;
pub mod purge;
pub mod standing;
