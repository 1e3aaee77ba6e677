//! What the thread that asks knows of the entries that are looked at ahead.
ghost use Rattle.std.specs.Prelude.{◌≡◌, IfSome};
ghost use Rattle.std.specs.Arc.{arc_value};
ghost use Rattle.std.specs.String.{string_bytes};

use crate::budget::Budget;
use crate::directory::{Directory, Prefetch};
use crate::found::Found;
use crate::helper::PrefetchHelper;
use crate::shared::Shared;
use pg_files::WholeFile;
use pg_walk::{FileKind, Listing, Scope};
use std::alloc::{AllocError, Global};
use std::rt::Files;
use std::sync::{Arc, Wait};

/// How often it is asked whether another thread is done with an entry, which takes some 40 microseconds.
const MAX_POLLS: u32 = 40_000;

/// The walk that is expected, and what was found ahead of it.
pub(crate) struct Prefetcher {
    pub(crate) alloc: Global,
    /// What is shared with the threads that look ahead, where a walk is expected.
    shared: Option<Arc<Shared>>,
    /// The directories that the walk is inside of, from the operand down.
    inside: Vec<Arc<Directory>>,
    /// What was found out about the last entry that was asked for, until it is used.
    found: Option<Found>,
}

impl Drop for Prefetcher {
    fn drop(self) {
        let Prefetcher {
            alloc: _,
            shared: _,
            inside: _,
            found: _,
        } = self;
    }
}

impl Prefetcher {
    /// Nothing is looked at.
    pub(crate) fn new(alloc: Global) -> Prefetcher {
        Prefetcher {
            alloc,
            shared: None,
            inside: Vec::new(alloc),
            found: None,
        }
    }

    /// A walk follows that is asked for this.
    pub(crate) fn expect(&mut self, scope: Scope) {
        self.inside = Vec::new(self.alloc);
        self.shared = match Budget::new(self.alloc) {
            Ok(budget) => Arc::new(self.alloc, Shared::new(self.alloc, scope, budget)).ok(),
            Err(_) => None,
        };
    }

    /// Whether a walk is expected.
    pub(crate) fn expects_walk(&self) -> bool {
        self.shared.is_some()
    }

    /// A helper for the expected walk, whose threads reach the system by `rt`.
    pub(crate) fn helper<R>(&self, rt: R) -> Option<PrefetchHelper<R>>
    where
        R: Files + Wait + Copy + Drop,
    {
        let shared = Arc::try_clone(self.shared.as_ref()?).ok()?;
        Some(PrefetchHelper::new(rt, self.alloc, shared))
    }

    /// The directory at a path, if it was listed ahead.
    pub(crate) fn take_directory<R: Wait>(&self, rt: &R, path: &str) -> Option<Arc<Directory>>
        ensures { IfSome result (λ directory. string_bytes (arc_value directory).path ≡ path.now) }
    {
        self.shared.as_ref()?.take(rt, path)
    }

    /// The walk goes into a directory, and its entries are looked at from now on.
    ///
    /// # Errors
    ///
    /// `AllocError` where a request for memory was refused. They aren't looked at then.
    pub(crate) fn enter<R: Wait>(
        &mut self,
        rt: &R,
        directory: Arc<Directory>,
    ) -> Result<(), AllocError> {
        if let Some(shared) = &self.shared {
            self.inside.push(Arc::try_clone(&directory)?)?;
            shared.enter(rt, self.alloc, directory);
        }
        Ok(())
    }

    /// The walk goes into a directory that wasn't listed ahead, and its entries are looked at from now on.
    ///
    /// # Errors
    ///
    /// `AllocError` where a request for memory was refused. They aren't looked at then.
    pub(crate) fn enter_listed<R: Wait>(
        &mut self,
        rt: &R,
        path: &str,
        listing: Listing,
    ) -> Result<(), AllocError> {
        let directory = Directory::new(self.alloc, path, listing)?;
        self.enter(rt, Arc::new(self.alloc, directory)?)
    }

    /// Leaves the directories whose entries all had their turn.
    fn leave<R: Wait>(&mut self, rt: &R) {
        for _ in 0..self.inside.len() {
            if !self.inside.last().is_some_and(|it| it.is_over()) {
                return;
            }
            self.inside.pop();
            if let Some(shared) = &self.shared {
                shared.leave(rt);
            }
        }
    }

    /// What stands at a path, where a link is followed or not, if it is an entry that was looked at ahead so. What was
    /// read of it is kept.
    pub(crate) fn find<R: Wait>(&mut self, rt: &R, path: &str, follow: bool) -> Option<FileKind> {
        self.leave(rt);
        self.found = None;
        let directory = self.inside.last()?;
        let entry = directory.turn();
        if !directory.is_path_of(entry, path) {
            return None;
        }
        let found = wait_for(rt, directory, entry);
        directory.go_on();
        self.wake();
        let found = found?;
        let kind = found.kind(path, follow);
        self.found = Some(found);
        kind
    }

    /// Wakes the threads that sleep until less is held, once that is so; or a sleeping one, if there is enough to look
    /// at for it.
    fn wake(&self) {
        let Some(shared) = &self.shared else {
            return;
        };
        shared.wake_for_room();
        if shared.may_wake() && self.inside.last().is_some_and(|it| it.is_worth_waking()) {
            shared.wake(false);
        }
    }

    /// The file at a path, if it was the last that was asked for and was read ahead.
    pub(crate) fn take_file(&mut self, path: &str) -> Option<WholeFile>
        ensures { IfSome result (λ file. file.path.items ≡ path.now) }
    {
        self.found.take()?.into_file(path)
    }
}

/// What another thread has found out about an entry whose turn has come. It is waited for only as long as that thread
/// is at it, and not for long.
fn wait_for<R: Wait>(rt: &R, directory: &Directory, entry: usize) -> Option<Found> {
    if directory.claim(entry) {
        return None;
    }
    for _ in 0..MAX_POLLS {
        if let Prefetch::Done(found) = directory.take(rt, entry) {
            return found;
        }
    }
    None
}
