//! Puts the results of blocks in order, and writes the output of a run.
//!
//! A [`Sequencer`] is told which files open and end and which blocks they have, and gets the blocks' results in any
//! order, with doubles and strangers among them. It writes the rows of each block once all before it have come, and
//! once alone. What it has written is grep's output for the lines before the first block that is missing.
#![tactic(auto)]

mod ahead;
mod assembler;
mod collecting;
mod file_starts;
mod laws;
mod opening;
mod reorder_buffer;
mod sequencer;
mod slot;

pub use laws::{
    complete_output_is_whole, later_files_stay_unread, left_files_may_be_longer,
    lines_that_suffice_settle, shares_join,
};
pub use pg_plan::{Arrival, SinkFault};
pub use sequencer::Sequencer;
