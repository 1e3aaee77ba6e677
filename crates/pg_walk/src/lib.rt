//! Trees of files, and the files and faults that a walk over operands gives, in one order.
//!
//! A [`Walker`] goes over operands in a [`FileTree`], the system's ([`DiskTree`]) or one in memory ([`MemTree`]), and
//! gives one [`Item`] after another: a file to be read, or a name that gives none with its cause. A directory's entries
//! come in the order of their names' bytes, and a [`Scope`] says which of them are left out. It lists a directory when
//! its turn comes, and holds no more than what waits on the way down.
#![tactic(auto)]

mod circle;
mod disk_tree;
mod item;
mod laws;
mod mem_tree;
mod prefetch;
mod scope;
mod tree;
mod walker;

pub use disk_tree::DiskTree;
pub use item::Item;
pub use laws::{files_are_one, mem_tree_tells, what_is_given};
pub use mem_tree::{MemTree, Node};
pub use prefetch::{Helper, NoHelper, Prefetch, start_helper};
pub use scope::{Devices, Scope};
pub use tree::{FileKind, FileTree, Identity, Listing, LookFault};
pub use walker::{WaitingPath, Walker, entry_path};
