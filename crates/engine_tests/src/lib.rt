//! Tests of expressions, engines, clients' watchers, array maps and jobs. They stand in a crate of their own since a crate that
//! has tests is proved twice.
#![tactic(auto)]

#[cfg(test)]
mod arrays;
#[cfg(test)]
mod arrays_sent;
#[cfg(test)]
mod engines;
#[cfg(test)]
mod evaluation;
#[cfg(test)]
mod jobs;
#[cfg(test)]
mod jobs_sent;
#[cfg(test)]
mod replies;
#[cfg(test)]
mod syntax;
#[cfg(test)]
mod watching;
