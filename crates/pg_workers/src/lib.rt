//! The workers of a round: they search its blocks, each in a thread of its own.
//!
//! A worker draws the blocks' numbers from one board, has a [`BlockSearch`] search each block with a scratch of its
//! own, and puts the results into one tray. A round is opened with so many workers ([`open_round`]), who search
//! together ([`run_workers`]); what they leave is searched by the calling thread ([`search_rest`]), and once all
//! numbers were drawn the round is closed ([`close_round`]): what was put is the result of each block. A thread that
//! can't be made is done without, and a block for which memory was lacking is searched again.
#![tactic(auto)]

mod block_search;
mod closing;
mod finishing;
mod opening;
mod round;
mod starting;
mod worker;
mod working;

pub use block_search::BlockSearch;
pub use closing::close_round;
pub use finishing::search_rest;
pub use opening::{OpenRound, open_round};
pub use round::Round;
pub use worker::{UnfinishedBlock, Worker, work};
pub use working::{Signs, run_workers};
