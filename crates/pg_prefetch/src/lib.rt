//! The system's files, looked at, opened and read by threads of their own before their turn comes.
//!
//! A walk asks for the entries of a directory in the order of their names, and a run opens each file when the walk has
//! given it. A [`PrefetchTree`] knows that order once it has listed a directory, so threads look at its next entries,
//! open those that are to be read and read all but long ones whole, while the calling thread searches. What they found
//! is handed on when its turn has come, a file by way of a [`PrefetchStore`]. What they have not found by then is asked
//! of the system by the calling thread, which waits for none of them for long.
#![tactic(auto)]

mod budget;
mod directory;
mod found;
mod helper;
mod prefetcher;
mod shared;
mod store;
mod tree;

pub use helper::PrefetchHelper;
pub use store::PrefetchStore;
pub use tree::PrefetchTree;
