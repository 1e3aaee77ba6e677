//! Globs: patterns of file names, and which files a list of them leaves out.
//!
//! To read globs and to add them to a list takes memory; nothing else does, and nothing else fails.
#![tactic(auto)]

mod bracket;
mod filter;
mod glob;
mod glob_file;
mod laws;
mod matching;
mod reading;

pub use filter::Filter;
pub use glob::Glob;
pub use laws::globs_match;
