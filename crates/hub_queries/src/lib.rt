//! Answers to questions about the cluster, off the records of all tasks and the live engines, and to purges, resubmissions and
//! aborts.
#![tactic(auto)]

pub mod aborts;
pub mod answer;
pub mod engines;
pub mod lengths;
pub mod limits;
mod queues;
pub mod resubmissions;
mod results;
mod rows;
mod scan;
mod tally;
mod weights;
