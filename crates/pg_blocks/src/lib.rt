//! Lines among bytes, blocks of whole lines, and the cutter that makes blocks of a file.
//!
//! A file that comes in pieces is cut into blocks, which can be searched apart from each other: each has whole lines,
//! and its number among those of its file. Whatever the pieces are, the blocks are the same, and their lines are those
//! of the file. Nothing here knows what is looked for in a line.
#![tactic(auto)]

mod block;
mod count;
mod cutter;
mod laws;
mod lines;
mod span;

pub use block::Block;
pub use cutter::{CutFault, Cutter};
pub use laws::{blocks_keep_lines, cuts_are_one, lines_are_one};
pub use lines::{NEWLINE, begin_of_line, count_lines, end_of_line, line_end, text_of};
pub use span::Span;
