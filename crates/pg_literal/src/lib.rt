//! Texts that tell which lines may have a hit.
//!
//! Many expressions can only match where some fixed text stands: `err(or|no)?: [0-9]+` only where `err` does. Such a
//! text is searched for at memory speed, and the automaton is asked only about lines that hold it. Where the expression
//! is nothing but that text, it isn't asked at all.
#![tactic(auto)]

mod alternatives;
mod cost;
mod covered;
mod front;
mod inner;
mod known;
mod literal;
mod ranges;
mod reaches;
mod row;
mod row_finder;
mod row_outcome;
mod sets;
mod strings;
mod suffix;

pub use cost::FEW_TEXTS;
pub use front::looks_behind;
pub use literal::Literal;
pub use reaches::reach;
pub use row_finder::RowFinder;
pub use row_outcome::RowOutcome;
pub use strings::are_strings;
pub use suffix::LineSuffix;
