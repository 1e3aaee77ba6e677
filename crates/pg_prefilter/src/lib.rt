//! What judges lines before the automaton is asked.
//!
//! A [`Prefilter`] is what was found in a query's patterns: literals of which each line with a hit holds one, a row of
//! sets that stands in each, a suffix that each match is. [`Needles`] are what is looked for in one block, so that only
//! lines that hold it are looked at, and a [`BlockJudge`] tells of such a line where its matches are, as far as that
//! can be told without the automaton.
#![tactic(auto)]

mod candidate;
mod fixed;
mod literal_needles;
mod literal_set;
mod may;
mod needle;
mod needle_row;
mod needle_set;
mod needles;
mod prefilter;
mod strings;

pub use candidate::{Candidate, NextLine};
pub use literal_set::{LiteralSet, fixed_strings};
pub use needles::{BYTES_PER_CANDIDATE, Needles};
pub use prefilter::Prefilter;
pub use strings::{BlockJudge, LineJudge, NearText, NextString, near_text};
