//! Files that are given one after another, and read as far as that is asked for: the system's, or some in memory.
//!
//! A run reads [`Files`]. [`OperandFiles`] gives the items of a walk, each file opened in a [`Store`] when its turn
//! comes; [`DiskStore`] opens the system's files and [`MemStore`] those that a test has put there. Contracts see what
//! was given so far, which takes no memory.
#![tactic(auto)]

mod disk_store;
mod files;
mod listed;
mod mem_store;
mod past;
mod store;
mod whole_file;

pub use disk_store::DiskStore;
pub use files::{Files, ReadFault, Step};
pub use listed::{FileWalk, OperandFiles, STANDARD_INPUT, shown_name};
pub use mem_store::{Ending, MemFiles, MemStore};
pub use past::StorePast;
pub use store::{OpenFault, Store};
pub use whole_file::WholeFile;
