//! A directory whose entries are looked at before their turn comes.
ghost use Rattle.std.specs.Prelude.{◌≡◌, IfOk};
ghost use Rattle.std.specs.String.{string_bytes};

use crate::found::Found;
use crate::shared::Shared;
use pg_walk::{Listing, entry_path};
use std::alloc::{AllocError, Allocator, Global};
use std::rt::Files;
use std::sync::atomic::{AtomicUsize, Ordering};
use std::sync::{Mutex, Wait};

/// At most so many entries are looked at from the one whose turn it is on.
pub(crate) const WINDOW: usize = 64;

/// A thread wakes for no fewer entries.
const WORTH_WAKING: usize = 8;

/// For a directory of no fewer entries all threads wake.
const WORTH_WAKING_ALL: usize = 32;

/// A thread that looks at an entry looks at so many in a row at most, before it asks which comes next.
const AT_ONCE: usize = 4;

/// How many bytes between what different threads write keep them from sharing a line of the processor's cache.
const LINE: usize = 64;

/// How far another thread is with looking at an entry.
#[derive(Drop)]
pub(crate) enum Prefetch {
    /// Nothing is there yet, or its slot doesn't hold the entry.
    Pending,
    /// What the thread has found out, if that could be told.
    Done(Option<Found>),
}

/// Room for what was found out about an entry.
struct Slot {
    /// One more than the entry that it holds, or 0.
    holds: AtomicUsize,
    found: Mutex<Option<Found>>,
}

impl Drop for Slot {
    fn drop(self) {
        let Slot { holds: _, found: _ } = self;
    }
}

impl Slot {
    fn new() -> Slot {
        Slot {
            holds: AtomicUsize::new(0),
            found: Mutex::new(None),
        }
    }

    fn put<R: Wait>(&self, rt: &R, entry: usize, found: Option<Found>) {
        let mut guard = self.found.lock(rt);
        *guard = found;
        self.holds.store(entry.saturating_add(1), Ordering::SeqCst);
    }

    /// Takes what was found out about an entry, if the slot holds that entry.
    fn take<R: Wait>(&self, rt: &R, entry: usize) -> Prefetch {
        if self.holds.load(Ordering::SeqCst) != entry.saturating_add(1) {
            return Prefetch::Pending;
        }
        let mut guard = self.found.lock(rt);
        if self.holds.load(Ordering::SeqCst) == entry.saturating_add(1) {
            Prefetch::Done(guard.take())
        } else {
            Prefetch::Pending
        }
    }
}

/// A directory that a walk is inside of or will come to, with its entries in the order in which they are asked for.
pub(crate) struct Directory {
    path: String,
    listing: Listing,
    /// The entry whose turn it is.
    turn: AtomicUsize,
    between: [u8; LINE],
    /// The first entry that no thread has begun to look at.
    next: AtomicUsize,
    /// What was found out about entry k stands in slot k modulo their number.
    slots: Vec<Slot>,
}

impl Drop for Directory {
    fn drop(self) {
        let Directory {
            path: _,
            listing: _,
            turn: _,
            between: _,
            next: _,
            slots: _,
        } = self;
    }
}

impl Directory {
    /// A directory with these entries. None was looked at yet.
    pub(crate) fn new(alloc: Global, path: &str, listing: Listing) -> Result<Directory, AllocError>
        ensures { IfOk result
            (λ directory. (string_bytes directory.path ≡ path.now) × (directory.listing ≡ listing)) }
    {
        let mut slots = Vec::new(alloc);
        for _ in 0..listing.names.len().min(WINDOW) {
            slots.push(Slot::new())?;
        }
        Ok(Directory {
            path: String::from_str(alloc, path)?,
            listing,
            turn: AtomicUsize::new(0),
            between: [0; LINE],
            next: AtomicUsize::new(0),
            slots,
        })
    }

    /// Where it stands.
    pub(crate) fn path(&self) -> &str
        ensures { result.now ≡ string_bytes self.now.path }
    {
        self.path.as_str()
    }

    /// Whether it is that other directory, or lies in it.
    pub(crate) fn is_within(&self, other: &Directory) -> bool {
        let around = other.path.as_bytes();
        match self.path.as_bytes().strip_prefix(around) {
            Some(below) => below.is_empty() || below.starts_with(b"/") || around.ends_with(b"/"),
            None => false,
        }
    }

    /// A copy of what it holds.
    ///
    /// # Errors
    ///
    /// `AllocError` where a request for memory was refused.
    pub(crate) fn listing<A: Allocator + Copy>(&self, alloc: A) -> Result<Listing<A>, AllocError> {
        self.listing.copy(alloc)
    }

    /// Whether it has so many entries that threads are worth waking for them.
    pub(crate) fn is_large(&self) -> bool {
        self.listing.names.len() >= WORTH_WAKING_ALL
    }

    /// The entry whose turn it is.
    pub(crate) fn turn(&self) -> usize {
        self.turn.load(Ordering::SeqCst)
    }

    /// Whether all entries had their turn.
    pub(crate) fn is_over(&self) -> bool {
        self.turn() >= self.listing.names.len()
    }

    /// Whether this is the path of an entry.
    pub(crate) fn is_path_of(&self, entry: usize, path: &str) -> bool {
        let Some(name) = self.listing.names.get(entry) else {
            return false;
        };
        let Some(below) = path.as_bytes().strip_prefix(self.path.as_bytes()) else {
            return false;
        };
        below.strip_prefix(b"/").unwrap_or(below) == name.as_bytes()
    }

    /// The turn of the next entry comes.
    pub(crate) fn go_on(&self) {
        self.turn.fetch_add(1, Ordering::SeqCst);
    }

    /// Whether a sleeping thread is worth waking: few of the entries that may be looked at ahead were, and so many are
    /// left that it wakes in time.
    pub(crate) fn is_worth_waking(&self) -> bool {
        let next = self.next.load(Ordering::SeqCst);
        let has_time = next.saturating_add(WORTH_WAKING) <= self.listing.names.len();
        has_time && next < self.turn().saturating_add(self.slots.len() / 2)
    }

    /// Takes it on to look at an entry, which no other thread does then. It fails where one does already.
    pub(crate) fn claim(&self, entry: usize) -> bool {
        let next = entry.saturating_add(1);
        self.next
            .compare_exchange(entry, next, Ordering::SeqCst, Ordering::SeqCst)
            .is_ok()
    }

    /// The next entry that may be looked at, if there is one.
    fn next_entry(&self) -> Option<usize> {
        let next = self.next.load(Ordering::SeqCst);
        let end = self.turn().saturating_add(self.slots.len());
        if next < self.listing.names.len().min(end) {
            Some(next)
        } else {
            None
        }
    }

    /// Whether some entry may be looked at.
    pub(crate) fn has_next(&self) -> bool {
        self.next_entry().is_some()
    }

    /// Looks at the next entries that may be looked at, a few at most, up to one whose own entries come before those
    /// behind it.
    pub(crate) fn prefetch_some<R: Files + Wait + Copy + Drop>(
        &self,
        rt: R,
        alloc: Global,
        shared: &Shared,
    ) {
        for _ in 0..AT_ONCE {
            if !shared.has_room() || !self.prefetch_next(rt, alloc, shared) {
                return;
            }
        }
    }

    /// Looks at the next entry that may be looked at, if there is one. Answers whether there was, and no directory was
    /// listed.
    fn prefetch_next<R: Files + Wait + Copy + Drop>(
        &self,
        rt: R,
        alloc: Global,
        shared: &Shared,
    ) -> bool {
        let Some(entry) = self.next_entry() else {
            return false;
        };
        if !self.claim(entry) {
            return true;
        }
        let found = self.look_at(rt, alloc, shared, entry);
        let is_listed = found
            .as_ref()
            .is_some_and(|it| it.list_ahead(rt, alloc, shared));
        self.put(&rt, entry, found);
        !is_listed
    }

    fn look_at<R: Files + Copy + Drop>(
        &self,
        rt: R,
        alloc: Global,
        shared: &Shared,
        entry: usize,
    ) -> Option<Found> {
        let name = self.listing.names.get(entry)?;
        let path = entry_path(alloc, self.path.as_str(), name.as_str()).ok()?;
        Found::at(rt, alloc, shared, path)
    }

    fn slot(&self, entry: usize) -> Option<&Slot> {
        let number = entry.checked_rem(self.slots.len())?;
        self.slots.get(number)
    }

    /// Keeps what was found out about an entry, unless its turn is over.
    fn put<R: Wait>(&self, rt: &R, entry: usize, found: Option<Found>) {
        if entry < self.turn() {
            return;
        }
        if let Some(slot) = self.slot(entry) {
            slot.put(rt, entry, found);
        }
    }

    /// What was found out about an entry, once a thread has looked at it.
    pub(crate) fn take<R: Wait>(&self, rt: &R, entry: usize) -> Prefetch {
        match self.slot(entry) {
            Some(slot) => slot.take(rt, entry),
            None => Prefetch::Pending,
        }
    }
}
