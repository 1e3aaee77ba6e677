//! Trees that look at what a walk will ask for before its turn comes.

use crate::mem_tree::MemTree;
use crate::scope::Scope;
use crate::tree::FileTree;
use std::alloc::Allocator;
use std::thread;
use std::thread::Threads;

/// What another thread may do for a walk while it goes on.
pub trait Helper: Drop {
    /// Runs the helper. It may not return before the process ends.
    fn help(self);
}

/// A tree that may look at entries, and read what is there, before their turn comes. Prefetching never changes what a
/// tree answers that tells its answers.
pub trait Prefetch: FileTree {
    /// What another thread may do for a walk.
    type Helper: Helper + 'static;

    /// Says what the walk that follows is asked for.
    fn expect(&self, scope: Scope);

    /// A helper for the walk that is expected, if there is one.
    fn helper(&self) -> Option<Self::Helper>;
}

/// The helper of a tree that has none.
#[derive(Drop)]
pub struct NoHelper;

impl Helper for NoHelper {
    fn help(self) {}
}

impl<A: Allocator + Copy> Prefetch for MemTree<A> {
    type Helper = NoHelper;

    fn expect(&self, _scope: Scope) {}

    fn helper(&self) -> Option<NoHelper> {
        None
    }
}

/// Has a helper work in a thread of its own, for which nobody waits. The answer is whether the thread could be made.
pub fn start_helper<R: Threads, H: Helper + Send + Sync + 'static>(rt: &R, helper: H) -> bool {
    thread::spawn(rt, move || helper.help()).is_ok()
}
