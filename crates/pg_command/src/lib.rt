//! The command: what the words of a command line ask for, over any files and streams.
//!
//! [`command`] reads the words, then the files of patterns and of globs, runs the search and answers its status; what
//! it is given to read and to write may be the system's or lie in memory.
#![tactic(auto)]

mod fault;
mod program;
mod search;

pub use pg_report::report;
pub use pg_request::{Call, Fault, words_of};
pub use program::{command, run};
pub use search::{ToldFault, answer};
