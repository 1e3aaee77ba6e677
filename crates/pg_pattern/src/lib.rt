//! Patterns as trees, and which spans of a line they match.
//!
//! The definitions say which spans a tree matches (XBD 9.3 and 9.4), which of these are hits where -w or -x is given
//! (XCU grep), and which parts of a line -o shows (GNU grep). `pg_syntax` reads texts to trees, and `pg_match` finds
//! hits; neither needs the other. [`hit_reach`] tells both it and `pg_literal` how far a hit's end may lie from where
//! it begins.
#![tactic(auto)]

mod bounds;
mod case;
pub mod laws;
mod lengths;
mod tree;

pub use bounds::{Bounds, is_word_byte};
pub use case::folded;
pub use lengths::hit_reach;
pub use tree::Tree;
