//! What a request asks for, as it is read before the run: the words of the call, the files of patterns and of globs,
//! the query, which part of the trees is searched, and what a terminal changes.
//!
//! The faults of the program stand here, below all that meet them; `pg_report` tells them.
#![tactic(auto)]

mod colors;
mod fault;
mod listing;
mod names;
mod patterns;
mod query;
mod scope;
mod words;

pub use colors::request_on;
pub use fault::Fault;
pub use listing::list_files;
pub use names::{is_directory, operands_of};
pub use patterns::{read_globs, read_patterns};
pub use query::text_of;
pub use scope::read_scope;
pub use words::{Call, words_of};
