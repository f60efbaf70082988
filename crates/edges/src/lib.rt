//! The octets of the product: as they come from sources and go to sinks, with counts of their faults, in lists of frames, as
//! fields of numbers and texts, and as the text of a moment.
#![tactic(auto)]

pub mod date;
pub mod difference;
pub mod frames;
pub mod memory;
pub mod reading;
pub mod sink;
pub mod source;
pub mod standard;
pub mod stop;
pub mod writing;
