//! Tasks by place and id, with what is kept beside them, so that what is due of some is found without a look at the others.
#![tactic(auto)]

pub mod attempts;
mod finished;
pub mod fitting;
pub mod freeing;
pub mod laning;
pub mod live;
pub mod loads;
pub mod marks;
pub mod readiness;
pub mod standing;
pub mod table;
pub mod tallies;
pub mod task;
pub mod tasks;
pub mod tidying;
pub mod viability;
