//! What is found out about an entry before its turn comes.
ghost use Rattle.std.specs.Prelude.{◌≡◌, Some, IfSome};
ghost use Rattle.std.specs.String.{string_bytes};

use crate::budget::Share;
use crate::directory::Directory;
use crate::shared::Shared;
use pg_files::WholeFile;
use pg_walk::{DiskTree, FileKind, FileTree, Listing, LookFault};
use std::alloc::Global;
use std::rt::Files;
use std::sync::Wait;

/// A longer file isn't read ahead, in bytes.
const LONGEST: usize = 262_144;

/// What an entry counts for at least among the bytes that are held.
const LEAST: usize = 2_048;

/// What the directory at a path holds, in the order in which a walk asks for it.
///
/// # Errors
///
/// Those of [`FileTree::entries`].
pub(crate) fn list<R: Files + Drop>(
    tree: &DiskTree<R>,
    alloc: Global,
    path: &str,
) -> Result<Listing, LookFault> {
    let mut listing = tree.entries(alloc, path)?;
    listing.names.sort_unstable();
    Ok(listing)
}

/// What stands at an entry's path, and what was read there.
pub(crate) struct Found {
    path: String,
    /// Whether a link was followed.
    follows: bool,
    kind: FileKind,
    /// The file, where it is to be read and isn't too long.
    file: Option<WholeFile>,
    /// The entry's share of the bytes that are held.
    share: Option<Share>,
    ghost is_its_file: { (opened : _) → file ≡ Some opened → opened.path.items ≡ string_bytes path },
}

impl Drop for Found {
    fn drop(self) {
        let Found {
            path: _,
            follows: _,
            kind: _,
            file: _,
            share: _,
        } = self;
    }
}

impl Found {
    /// What the system says of an entry, if it can be told. What the scope leaves out isn't read.
    pub(crate) fn at<R: Files + Drop>(
        rt: R,
        alloc: Global,
        shared: &Shared,
        path: String,
    ) -> Option<Found>
        ensures { IfSome result
            (λ found. (found.path ≡ path) × (found.follows ≡ shared.now.scope.follows)) }
    {
        let scope = &shared.scope;
        let kind = DiskTree::new(&rt).kind(path.as_str(), scope.follows).ok()?;
        let file = if kind == FileKind::Regular && scope.keeps_entry(path.as_str(), kind) {
            WholeFile::open(&rt, alloc, path.as_str(), LONGEST)
        } else {
            None
        };
        let size = file.as_ref().map_or(0, |file| file.len());
        let share = shared.budget.share(size.max(LEAST)).ok();
        Some(Found {
            path,
            follows: scope.follows,
            kind,
            file,
            share,
        })
    }

    /// Lists the entry, if it is a directory that is to be visited, so that its entries are looked at ahead, too.
    /// Answers whether they will be.
    pub(crate) fn list_ahead<R: Files + Wait + Copy + Drop>(
        &self,
        rt: R,
        alloc: Global,
        shared: &Shared,
    ) -> bool {
        let is_directory = self.kind == FileKind::Directory;
        if !is_directory || !shared.scope.keeps_entry(self.path.as_str(), self.kind) {
            return false;
        }
        let Ok(listing) = list(&DiskTree::new(&rt), alloc, self.path.as_str()) else {
            return false;
        };
        let Ok(directory) = Directory::new(alloc, self.path.as_str(), listing) else {
            return false;
        };
        shared.add(&rt, alloc, directory);
        true
    }

    /// What stands at a path, where a link is followed or not, if this was found so there.
    pub(crate) fn kind(&self, path: &str, follow: bool) -> Option<FileKind>
        ensures { IfSome result
            (λ _. (string_bytes self.now.path ≡ path.now) × (self.now.follows ≡ follow)) }
    {
        if self.path.as_str() == path && self.follows == follow {
            Some(self.kind)
        } else {
            None
        }
    }

    /// The file at a path, if this was found there and the file was read.
    pub(crate) fn into_file(self, path: &str) -> Option<WholeFile>
        ensures { IfSome result (λ file. file.path.items ≡ path.now) }
    {
        let Found {
            path: own,
            follows: _,
            kind: _,
            file,
            share: _,
        } = self;
        if own.as_str() == path { file } else { None }
    }
}
