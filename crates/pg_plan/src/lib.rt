//! What happens to a sequencer.
//!
//! It is told of files and their blocks, which is its plan, and gets results in any order. The definitions say which
//! result is taken, how far the front of the plan has come that may be handed out, and what that is. A [`Collector`] is
//! what takes results so: the sequencer of `pg_seq`, which a round of `pg_round` has no need to know.
#![tactic(auto)]

mod answers;
mod collector;
mod laws;

pub use answers::{Arrival, SinkFault};
pub use collector::Collector;
pub use laws::{first_arrival_is_taken, handed_out_begins};
