//! What a thread does that looks ahead.

use crate::shared::Shared;
use pg_walk::Helper;
use std::alloc::Global;
use std::rt::Files;
use std::sync::{Arc, Wait};

/// Looks at entries ahead, for the tree that it comes from.
pub struct PrefetchHelper<R: Files + Wait + Copy + Drop> {
    rt: R,
    alloc: Global,
    shared: Arc<Shared>,
}

impl<R: Files + Wait + Copy + Drop> Drop for PrefetchHelper<R> {
    fn drop(self) {
        let PrefetchHelper {
            rt: _,
            alloc: _,
            shared: _,
        } = self;
    }
}

impl<R: Files + Wait + Copy + Drop> PrefetchHelper<R> {
    pub(crate) fn new(rt: R, alloc: Global, shared: Arc<Shared>) -> PrefetchHelper<R> {
        PrefetchHelper { rt, alloc, shared }
    }

    /// Looks at one entry after another, as long as there is one that may be looked at.
    fn work(&self) {
        for _ in self.rt.forever() {
            let Some(directory) = self.shared.next_directory(&self.rt) else {
                return;
            };
            directory.prefetch_some(self.rt, self.alloc, &self.shared);
        }
    }
}

impl<R: Files + Wait + Copy + Drop> Helper for PrefetchHelper<R> {
    fn help(self) {
        for _ in self.rt.forever() {
            let seen = self.shared.signal();
            self.work();
            self.shared.sleep(&self.rt, seen);
        }
    }
}
