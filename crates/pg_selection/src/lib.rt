//! What a query selects.
//!
//! A [`Selector`] is patterns, each an expression of its kind, with the options that say what they match. The
//! definitions say which lines it selects (XCU grep), which parts of them -o shows (GNU grep), and where they stand in
//! a block; a [`BlockResult`] is what a search of a block found. Of how lines are searched this crate knows nothing:
//! `pg_lines` does that, and neither rows nor the sequencer need it.
#![tactic(auto)]

mod laws;
mod result;
mod run;
mod same;
mod text;

pub use laws::{selection_is_decided, trees_are_one};
pub use result::BlockResult;
pub use run::{Found, Part, Run};
pub use text::{QueryText, Selector};
