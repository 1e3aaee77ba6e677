//! Reads the open file, and cuts what comes into blocks.
//!
//! A [`FileReader`] reads the newest of some [`Files`] and feeds what came to that file's cutter, whose blocks it hands
//! out. The first reads go through a buffer, and later ones into the cutter's own room. As a [`Reader`] it reads on in
//! small steps, while others search what it has cut. Its contracts say which bytes the cutter was fed: all that the
//! file gave, but those that the cutter didn't take. What is looked for in them it doesn't know.
#![tactic(auto)]

mod file_reader;
mod reader;

pub use file_reader::{FileReader, ReadOutcome};
pub use pg_files::Files;
pub use reader::{NothingToRead, Reader};
