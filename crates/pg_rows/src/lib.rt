//! The rows that a grep writes of a file.
//!
//! A [`Printer`] gets the results of a file's blocks in order and writes their rows to a sink: lines with their
//! context, matched parts, counts or names, as a [`Format`] asks for them. [`Progress`] tells without writing whether
//! what was read of a file is enough. How rows look is defined in `specs/Output.antt`, for whole files; laws tell that
//! blocks give the same rows.
#![tactic(auto)]

mod colors;
mod format;
mod kept;
mod laws;
mod places;
mod position;
mod prefix;
mod printer;
mod progress;
mod rows;
mod separator;
mod window;

pub use format::{Format, Mode};
pub use laws::{blocks_give_the_rows, colors_add_escapes, trails_tell_enough};
pub use prefix::Prefix;
pub use printer::{PrintedBlock, Printer};
pub use progress::Progress;
pub use separator::{MAX_SEPARATOR, Separator};
