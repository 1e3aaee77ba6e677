//! Searches one round of blocks by several threads, while one thread takes the results and writes them.
//!
//! A round is a list of blocks. Its workers draw the blocks' numbers from one board, search each block with a scratch
//! of their own, and put the results into one tray. The calling thread meanwhile takes them out, gives them to a
//! [`Collector`], which puts them in order, and has it write what may be handed out. [`search_round`] ensures that the
//! collector gets the result of each block, whatever the order in which the threads run, also where fewer threads can
//! be made than were asked for, or none, and where threads are refused memory. Where no result lies on the tray, the
//! calling thread has a [`pg_reader::Reader`] go on.
#![tactic(auto)]

mod fault;
mod receiving;
mod searching;
mod streaming;

pub use fault::RoundFault;
pub use pg_plan::Collector;
pub use pg_workers::BlockSearch;
pub use searching::search_round;
