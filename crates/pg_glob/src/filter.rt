//! Which files or directories are left out.
ghost use Rattle.std.specs.Prelude.{◌≡◌, ◌++◌, ◌∷◌, [], OnOk, OnErr};
ghost use Rattle.pg_glob.specs.Filters.{fits_path, last_name, leaves_out, matches_behind_slash};
ghost use Rattle.pg_glob.specs.Views.{pieces, rules};

use crate::glob::Glob;
use std::alloc::{AllocError, Allocator, Global};

/// A glob, and whether what it matches is kept, or else left out.
pub struct Entry<A: Allocator = Global> {
    pub(crate) keeps: bool,
    pub(crate) glob: Glob<A>,
}

/// Globs that keep files in a search or leave them out. The last of them that fits decides. Where none fits, all is
/// kept, unless the first one says what is kept.
pub struct Filter<A: Allocator = Global> {
    pub(crate) entries: Vec<Entry<A>, A>,
}

impl<A: Allocator> Drop for Entry<A> {
    fn drop(self) {
        let Entry { keeps: _, glob: _ } = self;
    }
}

impl<A: Allocator> Drop for Filter<A> {
    fn drop(self) {
        let Filter { entries: _ } = self;
    }
}

impl<A: Allocator> Filter<A> {
    /// All is kept.
    pub fn new(alloc: A) -> Filter<A>
        ensures { rules result ≡ [] }
    {
        Filter {
            entries: Vec::new(alloc),
        }
    }

    /// Adds a rule: what the glob matches is kept, or left out.
    ///
    /// # Errors
    ///
    /// `AllocError` where a request for memory was refused. Nothing is added then.
    pub fn push(&mut self, keeps: bool, glob: Glob<A>) -> Result<(), AllocError>
        ensures ok { OnOk result
            (rules self.new ≡ rules self.old ++ record { keeps = keeps; glob = pieces glob } ∷ []) }
        ensures err { OnErr result (rules self.new ≡ rules self.old) }
    {
        self.entries.push(Entry { keeps, glob })?;
        Ok(())
    }

    /// Whether a path is left out: of an operand all of it, or of what the walk found below one its last name.
    pub fn leaves_out(&self, operand: bool, path: &str) -> bool
        ensures { result ≡ leaves_out (rules self.now) operand path.now }
    {
        let Some(first) = self.entries.first() else {
            return false;
        };
        let mut left_out = first.keeps;
        for entry in &self.entries {
            if fits(&entry.glob, operand, path.as_bytes()) {
                left_out = !entry.keeps;
            }
        }
        left_out
    }
}

/// Whether a glob fits a path.
fn fits<A: Allocator>(glob: &Glob<A>, operand: bool, path: &[u8]) -> bool
    ensures { result ≡ fits_path operand path.now (pieces glob.now) }
{
    if operand {
        glob.matches(path) || matches_behind_slash(glob, path)
    } else {
        glob.matches(last_name(path))
    }
}

/// Whether a glob matches what stands behind some slash of a path.
fn matches_behind_slash<A: Allocator>(glob: &Glob<A>, path: &[u8]) -> bool
    ensures { result ≡ matches_behind_slash (pieces glob.now) path.now }
{
    let mut left = path;
    while let Some((byte, rest)) = left.split_first() {
        if *byte == b'/' && glob.matches(rest) {
            return true;
        }
        left = rest;
    }
    false
}

/// What stands behind the last slash of a path, or all of it.
fn last_name(path: &[u8]) -> &[u8]
    ensures { result.now ≡ last_name path.now path.now }
{
    let mut name = path;
    let mut left = path;
    while let Some((byte, rest)) = left.split_first() {
        if *byte == b'/' {
            name = rest;
        }
        left = rest;
    }
    name
}
