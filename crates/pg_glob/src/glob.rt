//! A glob, read from its text.
ghost use Rattle.std.specs.Prelude.{◌≡◌, IfOk};
ghost use Rattle.pg_glob.specs.Globs.{matches, pieces_of};
ghost use Rattle.pg_glob.specs.Views.{pieces};

use crate::matching::parts_match;
use crate::reading::parts_of;
use pg_bytes::ByteSet;
use std::alloc::{AllocError, Allocator, Global};

/// What stands in a glob.
#[derive(Clone, Copy)]
pub enum Part {
    /// `*`: any bytes, or none.
    AnyBytes,
    /// What matches one byte of a set.
    OneOf(ByteSet),
}

/// A glob, as XCU 2.13 has it: `*`, `?`, brackets and backslashes. A slash and a leading dot are bytes like any other.
pub struct Glob<A: Allocator = Global> {
    pub(crate) parts: Vec<Part, A>,
}

impl<A: Allocator> Drop for Glob<A> {
    fn drop(self) {
        let Glob { parts: _ } = self;
    }
}

impl<A: Allocator> Glob<A> {
    /// Reads a glob. Every text is one: a `[` that no bracket goes on from stands for itself, and a backslash at the
    /// end matches nothing. The time is linear in the text's length where each bracket has its end, else at most
    /// quadratic.
    ///
    /// # Errors
    ///
    /// `AllocError` where a request for memory was refused.
    pub fn new(alloc: A, text: &str) -> Result<Glob<A>, AllocError>
        ensures { IfOk result (λ glob. pieces glob ≡ pieces_of text.now) }
    {
        let parts = parts_of(alloc, text.as_bytes())?;
        Ok(Glob { parts })
    }

    /// Whether the glob matches all of a name. No memory is taken, and the time is at most the glob's length times the
    /// name's, both plus one.
    pub fn matches(&self, name: &[u8]) -> bool
        ensures { result ≡ matches (pieces self.now) name.now }
    {
        parts_match(self.parts.as_slice(), name)
    }
}
