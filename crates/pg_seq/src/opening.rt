//! A file that waits for its rows to be written.
use pg_rows::Prefix;
use std::alloc::{Allocator, Global};

/// A file whose rows come behind those of the files before it.
#[derive(Drop)]
pub(crate) struct Opening<A: Allocator = Global> {
    /// How many blocks were announced before the file.
    pub(crate) start: u128,
    pub(crate) prefix: Prefix<A>,
}
