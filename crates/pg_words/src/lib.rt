//! The words of the command line, read with `clap`.
//!
//! [`Words`] joins each value to its option, [`read_words`] reads them, and a [`Task`]
//! is what they ask for, mostly the search of a [`Request`]. [`check_usage`] says which [`Options`]
//! exclude one another or want an operand.
#![tactic(auto)]

mod case;
mod command;
mod filters;
mod help;
mod long_name;
mod matches;
mod operands;
mod options;
mod request;
mod separator;
mod spell;
mod split;
mod usage;
mod words;

pub use help::{HELP, VERSION};
pub use options::{Coloring, DeviceAction, DirectoryAction, GivenModes, Naming, Options};
pub use request::{FileFilter, Request};
pub use split::Words;
pub use usage::{UsageFault, check_usage};
pub use words::{Task, WordsFault, read_words};
