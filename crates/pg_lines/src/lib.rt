//! Queries, and the search of one block.
//!
//! A [`Query`] is patterns with the options that say what they match, compiled: an automaton, and what judges lines
//! before it is asked. [`search_block`] finds the selected lines of a block and their matched parts, by the
//! literals where that is possible and by the automaton else; a [`BlockResult`] keeps them as runs of lines.
#![tactic(auto)]

mod every_line;
mod parts;
mod query;
mod runs;
mod search;

pub use pg_literal::Literal;
pub use pg_match::{Machine, Scratch};
pub use pg_selection::{BlockResult, QueryText};
pub use pg_syntax::{Kind, ListFault, PatternList};
pub use query::{Query, QueryFault};
pub use search::search_block;
