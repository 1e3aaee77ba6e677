//! What is told of faults on standard error.
//!
//! [`report`] writes the line of a fault, and [`tell_of_search`] shows below that of a pattern the pattern itself, with
//! a mark under the place.
#![tactic(auto)]

mod shown;
mod telling;

pub use telling::{FAULT_STATUS, report, tell_of_search, tell_parts};
