//! Which texts spell which patterns.
//!
//! A text is a basic expression (XBD 9.3), an extended one (XBD 9.4) or a fixed string, in the C locale. The
//! definitions say which tree it spells, what is wrong with one that spells none, and which patterns a list has.
//! `pg_syntax` reads texts by them; what a query selects needs them alone.
#![tactic(auto)]

mod fault;
mod pattern_list;
mod syntax;

pub use fault::{FaultKind, ListFault, SyntaxFault};
pub use pattern_list::{Kind, PatternList};
pub use syntax::Syntax;
