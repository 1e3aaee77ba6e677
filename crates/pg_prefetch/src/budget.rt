//! How many bytes of files are held before their turn comes.

use std::alloc::{AllocError, Global};
use std::sync::Arc;
use std::sync::atomic::{AtomicUsize, Ordering};

/// How far entries may be looked at ahead.
#[derive(Clone, Copy)]
pub(crate) struct Level {
    /// Only while files of less than so many bytes are held.
    most: usize,
    /// A thread that waits for room wakes once files of less than so many bytes are held.
    wakes_below: usize,
}

/// For entries of the directory that the walk is in, and for what lies in it.
pub(crate) const INSIDE: Level = Level {
    most: 4_194_304,
    wakes_below: 3_145_728,
};

/// For all entries that the walk comes to later. It leaves room for the others: what is held for later is held until
/// the walk has come there.
pub(crate) const AHEAD: Level = Level {
    most: 3_145_728,
    wakes_below: 2_097_152,
};

/// Counts the bytes of the files that are held.
pub(crate) struct Budget {
    held: Arc<AtomicUsize>,
    /// A thread waits until less than so many are. 0 where none waits.
    wakes_below: AtomicUsize,
}

impl Drop for Budget {
    fn drop(self) {
        let Budget {
            held: _,
            wakes_below: _,
        } = self;
    }
}

/// Some of the bytes that are held, until it is dropped.
pub(crate) struct Share {
    bytes: usize,
    held: Arc<AtomicUsize>,
}

impl Drop for Share {
    fn drop(self) {
        let Share { bytes, held } = self;
        held.fetch_sub(bytes, Ordering::SeqCst);
    }
}

impl Budget {
    /// No byte is held.
    pub(crate) fn new(alloc: Global) -> Result<Budget, AllocError> {
        Ok(Budget {
            held: Arc::new(alloc, AtomicUsize::new(0))?,
            wakes_below: AtomicUsize::new(0),
        })
    }

    fn held(&self) -> usize {
        self.held.load(Ordering::SeqCst)
    }

    /// Whether entries may be looked at. Where they may not, `has_come_free` will tell when that is worth asking again.
    pub(crate) fn has_room(&self, level: &Level) -> bool {
        if self.held() < level.most {
            return true;
        }
        self.wakes_below
            .fetch_max(level.wakes_below, Ordering::SeqCst);
        false
    }

    /// Whether so little is held that threads which found no room are to look again. It tells that once.
    pub(crate) fn has_come_free(&self) -> bool {
        let below = self.wakes_below.load(Ordering::SeqCst);
        if self.held() >= below {
            return false;
        }
        self.wakes_below.store(0, Ordering::SeqCst);
        true
    }

    /// Counts so many bytes as held.
    pub(crate) fn share(&self, bytes: usize) -> Result<Share, AllocError> {
        let held = Arc::try_clone(&self.held)?;
        held.fetch_add(bytes, Ordering::SeqCst);
        Ok(Share { bytes, held })
    }
}
