//! Patterns of grep: from the bytes of a text to the tree that it spells.
//!
//! A text is a basic expression (XBD 9.3), an extended one (XBD 9.4) or a fixed string, in the C
//! locale, and has at most 4,096 bytes. It spells at most one tree; where it spells none, a fault
//! says why and where. A list of patterns is a text that newlines split, or a file of lines.
#![tactic(auto)]

mod bracket;
mod builder;
mod element;
mod interval;
mod list;
mod parser;
mod plain;
mod source;
mod token;

pub use list::{parse_list, texts_of};
pub use parser::{LONGEST, fixed, parse_bre, parse_ere};
pub use pg_grammar::{FaultKind, Kind, ListFault, PatternList, SyntaxFault};
pub use plain::is_plain;
