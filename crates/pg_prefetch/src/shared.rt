//! What the threads that look ahead share with the one that asks.
ghost use Rattle.std.specs.Prelude.{◌≡◌, IfSome};
ghost use Rattle.std.specs.Arc.{arc_value};
ghost use Rattle.std.specs.String.{string_bytes};

use crate::budget::{AHEAD, Budget, INSIDE};
use crate::directory::Directory;
use pg_walk::Scope;
use std::alloc::Global;
use std::sync::atomic::{AtomicU64, Ordering};
use std::sync::{Arc, Mutex, Wait};

/// Of so many directories at most it is kept what they hold before the walk comes to them.
const MOST_AHEAD: usize = 128;

/// What the threads that look ahead share with the one that asks.
pub(crate) struct Shared {
    /// What the walk is asked for.
    pub(crate) scope: Scope,
    /// How much is held of what was found out.
    pub(crate) budget: Budget,
    /// The directories that the walk is inside of, from the operand down.
    inside: Mutex<Vec<Arc<Directory>>>,
    /// Directories that the walk will come to, the next one last.
    ahead: Mutex<Vec<Arc<Directory>>>,
    /// It changes when a sleeping thread is to look again.
    signal: AtomicU64,
    /// How many threads sleep, or are about to.
    asleep: AtomicU64,
}

impl Drop for Shared {
    fn drop(self) {
        let Shared {
            scope: _,
            budget: _,
            inside: _,
            ahead: _,
            signal: _,
            asleep: _,
        } = self;
    }
}

/// A byte's place in the order of a walk, in which what lies in a directory comes before names that go on.
fn rank(byte: u8) -> u16 {
    if byte == b'/' { 0 } else { u16::from(byte) + 1 }
}

/// Whether a walk comes to one path before another.
fn comes_before(one: &str, other: &str) -> bool {
    for (byte, beside) in one.as_bytes().iter().zip(other.as_bytes().iter()) {
        if byte != beside {
            return rank(*byte) < rank(*beside);
        }
    }
    one.len() < other.len()
}

/// Where the first of some directories stands that a walk comes to before a path; their number, if there is none. They
/// stand in the order of the walk, the next one last, and most paths belong near that.
fn place_behind(directories: &[Arc<Directory>], path: &str) -> usize {
    let sooner = directories
        .iter()
        .rev()
        .position(|it| !comes_before(it.path(), path))
        .unwrap_or(directories.len());
    directories.len().saturating_sub(sooner)
}

/// Gives those of some directories up that a walk comes to before a path.
fn pass_by(directories: &mut Vec<Arc<Directory>>, path: &str) {
    for _ in 0..directories.len() {
        if !directories
            .last()
            .is_some_and(|it| comes_before(it.path(), path))
        {
            return;
        }
        directories.pop();
    }
}

/// The last of some directories of whose entries one may be looked at.
fn last_open(directories: &[Arc<Directory>]) -> Option<&Arc<Directory>> {
    directories.iter().rev().find(|it| it.has_next())
}

/// Of the directories that a walk is inside of and of those that it will come to, the one with the entry that it comes
/// to first of all that may be looked at. What lies in a directory that is listed comes before those entries of the
/// directory around it that weren't looked at.
fn first_open<'d>(
    inside: &'d [Arc<Directory>],
    ahead: &'d [Arc<Directory>],
) -> Option<&'d Arc<Directory>> {
    let Some(around) = last_open(inside) else {
        return last_open(ahead);
    };
    match last_open(ahead) {
        Some(listed) if listed.is_within(around) => Some(listed),
        _ => Some(around),
    }
}

impl Shared {
    /// For a walk that is asked for this. There is nothing to look at yet.
    pub(crate) fn new(alloc: Global, scope: Scope, budget: Budget) -> Shared {
        Shared {
            scope,
            budget,
            inside: Mutex::new(Vec::new(alloc)),
            ahead: Mutex::new(Vec::new(alloc)),
            signal: AtomicU64::new(0),
            asleep: AtomicU64::new(0),
        }
    }

    /// The walk goes into a directory. Those that it has passed by are given up, and so is another listing of this one.
    /// Without memory for it its entries aren't looked at ahead.
    pub(crate) fn enter<R: Wait>(&self, rt: &R, alloc: Global, directory: Arc<Directory>) {
        let is_large = directory.is_large();
        let is_worth_waking = directory.is_worth_waking();
        let mut ahead = self.ahead.lock(rt);
        pass_by(&mut ahead, directory.path());
        if ahead.last().is_some_and(|it| it.path() == directory.path()) {
            ahead.pop();
        }
        drop(ahead);
        let mut inside = self.inside.lock(rt);
        if inside.is_empty() {
            *self.ahead.lock(rt) = Vec::new(alloc);
        }
        let _ = inside.push(directory);
        drop(inside);
        self.signal.fetch_add(1, Ordering::SeqCst);
        if is_worth_waking {
            self.wake(is_large);
        }
    }

    /// The walk leaves the last directory.
    pub(crate) fn leave<R: Wait>(&self, rt: &R) {
        self.inside.lock(rt).pop();
    }

    /// Whether the walk is in a directory at a path, or behind it.
    fn is_passed_by<R: Wait>(&self, rt: &R, path: &str) -> bool {
        let inside = self.inside.lock(rt);
        inside
            .last()
            .is_some_and(|it| !comes_before(it.path(), path))
    }

    /// Adds a directory that the walk will come to, unless it is there by now. If there are too many, the one that it
    /// comes to last is given up. Without memory for it its entries aren't looked at ahead.
    pub(crate) fn add<R: Wait>(&self, rt: &R, alloc: Global, directory: Directory) {
        let Ok(directory) = Arc::new(alloc, directory) else {
            return;
        };
        if self.is_passed_by(rt, directory.path()) {
            return;
        }
        let mut ahead = self.ahead.lock(rt);
        let place = place_behind(&ahead, directory.path()).min(ahead.len());
        let _ = ahead.insert(place, directory);
        if ahead.len() > MOST_AHEAD {
            ahead.remove(0);
        }
        drop(ahead);
        self.signal.fetch_add(1, Ordering::SeqCst);
        self.wake(false);
    }

    /// The directory at a path, if it was listed before the walk came to it. Those that the walk has passed by are
    /// given up.
    pub(crate) fn take<R: Wait>(&self, rt: &R, path: &str) -> Option<Arc<Directory>>
        ensures { IfSome result (λ directory. string_bytes (arc_value directory).path ≡ path.now) }
    {
        let mut ahead = self.ahead.lock(rt);
        pass_by(&mut ahead, path);
        let directory = ahead.pop()?;
        if directory.path() == path {
            return Some(directory);
        }
        let _ = ahead.push(directory);
        None
    }

    /// The directory with the entry that the walk comes to first of all that may be looked at. There is none where too
    /// much is held.
    pub(crate) fn next_directory<R: Wait>(&self, rt: &R) -> Option<Arc<Directory>> {
        if !self.has_room() {
            return None;
        }
        let inside = self.inside.lock(rt);
        let ahead = self.ahead.lock(rt);
        let found = first_open(&inside, &ahead)?;
        let is_near = found.is_within(inside.last()?);
        if is_near || self.budget.has_room(&AHEAD) {
            Arc::try_clone(found).ok()
        } else {
            None
        }
    }

    /// Whether entries of the directory that the walk is in may be looked at.
    pub(crate) fn has_room(&self) -> bool {
        self.budget.has_room(&INSIDE)
    }

    /// Whether a thread sleeps that would find room to look at more.
    pub(crate) fn may_wake(&self) -> bool {
        self.asleep.load(Ordering::SeqCst) > 0 && self.has_room()
    }

    /// Wakes the threads that sleep until less is held, once that is so.
    pub(crate) fn wake_for_room(&self) {
        if self.budget.has_come_free() {
            self.signal.fetch_add(1, Ordering::SeqCst);
            self.wake(true);
        }
    }

    /// Wakes a sleeping thread, or all of them, if there are any.
    pub(crate) fn wake(&self, all: bool) {
        if self.asleep.load(Ordering::SeqCst) == 0 {
            return;
        }
        self.signal.fetch_add(1, Ordering::SeqCst);
        if all {
            self.signal.wake_all();
        } else {
            self.signal.wake_one();
        }
    }

    /// What changes when a sleeping thread is to look again.
    pub(crate) fn signal(&self) -> u64 {
        self.signal.load(Ordering::SeqCst)
    }

    /// Sleeps until the signal changes from the one that was seen.
    pub(crate) fn sleep<R: Wait>(&self, rt: &R, seen: u64) {
        self.asleep.fetch_add(1, Ordering::SeqCst);
        self.signal.park(rt, (seen % (1 << 32)) as u32);
        self.asleep.fetch_sub(1, Ordering::SeqCst);
    }
}
