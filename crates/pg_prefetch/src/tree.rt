//! The system's tree of files, of which some answers are found ahead.
ghost use Rattle.std.specs.Prelude.{◌≡◌, None, IfSome};

use crate::found::list;
use crate::helper::PrefetchHelper;
use crate::prefetcher::Prefetcher;
use pg_files::WholeFile;
use pg_walk::{DiskTree, FileKind, FileTree, Identity, Listing, LookFault, Prefetch, Scope};
use std::alloc::{Allocator, Global};
use std::rt::Files;
use std::sync::{Mutex, Wait};

/// The system's files and directories, as a [`DiskTree`] has them. Where a walk is expected, threads look ahead at the
/// entries of the directories that it is inside of or will come to: in each up to 64 from the one whose turn it is on.
pub struct PrefetchTree<R: Files + Drop> {
    rt: R,
    disk: DiskTree<R>,
    prefetcher: Mutex<Prefetcher>,
}

impl<R: Files + Drop> Drop for PrefetchTree<R> {
    fn drop(self) {
        let PrefetchTree {
            rt: _,
            disk: _,
            prefetcher: _,
        } = self;
    }
}

impl<R: Files + Wait + Copy + Drop> PrefetchTree<R> {
    /// The tree that a runtime reaches. No walk is expected.
    pub fn new(rt: R, alloc: Global) -> PrefetchTree<R> {
        PrefetchTree {
            rt,
            disk: DiskTree::new(rt),
            prefetcher: Mutex::new(Prefetcher::new(alloc)),
        }
    }

    /// The file at a path, if it was the last that was looked at and was read ahead.
    pub(crate) fn take_file(&self, path: &str) -> Option<WholeFile>
        ensures { IfSome result (λ file. file.path.items ≡ path.now) }
    {
        self.prefetcher.try_lock()?.take_file(path)
    }

    /// What stands at a path, where a link is followed or not, if that was found ahead.
    fn found(&self, path: &str, follow: bool) -> Option<FileKind> {
        self.prefetcher.try_lock()?.find(&self.rt, path, follow)
    }
}

impl<R: Files + Wait + Copy + Drop> FileTree for PrefetchTree<R> {
    ghost tells = { λ _. ⊥ };

    ghost answers = { λ _. record {
      kind = λ path follow. None;
      content = λ path. None;
      identity = λ path. None;
    } };

    fn kind(&self, path: &str, follow: bool) -> Result<FileKind, LookFault> {
        match self.found(path, follow) {
            Some(kind) => Ok(kind),
            None => self.disk.kind(path, follow),
        }
    }

    fn entries<A: Allocator + Copy>(&self, alloc: A, path: &str) -> Result<Listing<A>, LookFault> {
        let mut prefetcher = match self.prefetcher.try_lock() {
            Some(prefetcher) if prefetcher.expects_walk() => prefetcher,
            _ => return self.disk.entries(alloc, path),
        };
        if let Some(directory) = prefetcher.take_directory(&self.rt, path) {
            let copy = directory.listing(alloc)?;
            // Without memory for it nothing is looked at ahead.
            let _ = prefetcher.enter(&self.rt, directory);
            return Ok(copy);
        }
        let listing = list(&self.disk, prefetcher.alloc, path)?;
        let copy = listing.copy(alloc)?;
        let _ = prefetcher.enter_listed(&self.rt, path, listing);
        Ok(copy)
    }

    fn identity(&self, path: &str) -> Result<Identity, LookFault> {
        self.disk.identity(path)
    }
}

impl<R: Files + Wait + Copy + Drop + 'static> Prefetch for PrefetchTree<R> {
    type Helper = PrefetchHelper<R>;

    fn expect(&self, scope: Scope) {
        if let Some(mut prefetcher) = self.prefetcher.try_lock() {
            prefetcher.expect(scope);
        }
    }

    fn helper(&self) -> Option<PrefetchHelper<R>> {
        self.prefetcher.try_lock()?.helper(self.rt)
    }
}
