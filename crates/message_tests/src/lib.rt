//! Tests of what octets tell: headers, what messages mean, questions to the hub, purges, resubmissions and aborts, and the
//! frames of outs. They stand in a crate of their own since a crate that has tests is proved twice.
#![tactic(auto)]

#[cfg(test)]
mod aborts;
#[cfg(test)]
mod headers;
#[cfg(test)]
mod intake;
#[cfg(test)]
mod lookups;
#[cfg(test)]
mod outgo;
#[cfg(test)]
mod queries;
#[cfg(test)]
mod resubmissions;
#[cfg(test)]
mod tables;
