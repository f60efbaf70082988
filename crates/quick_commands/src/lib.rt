//! The commands that end by themselves: a tape that is served over a database, a database that is written as lines, compared
//! or made smaller, and generated work.
#![tactic(auto)]

mod answers;
pub mod draws;
pub mod engines;
pub mod errors;
pub mod fault;
mod following;
mod generated;
pub mod generator;
pub mod key;
pub mod laws;
mod moves;
pub mod opening;
pub mod quick;
mod records;
mod replay;
mod results;
pub mod summary;
mod summing;
mod tasks;
pub mod work;
pub mod work_laws;
