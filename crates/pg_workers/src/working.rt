//! The workers of a round, together.
ghost use Rattle.std.specs.Prelude.{◌≡◌, ◌<◌, All, vec_len};
ghost use Rattle.pg_workers.specs.Workers.{task_of, IsReady, HasFinished, AreBack};

use crate::block_search::BlockSearch;
use crate::round::Round;
use crate::starting::{join_all, start_all};
use crate::worker::{Worker, search};
use pg_blocks::Block;
use pg_selection::BlockResult;
use std::alloc::Allocator;
use std::sync::atomic::{AtomicBool, Ordering};
use std::sync::{Arc, Wait};
use std::thread;
use std::thread::{Scope, Threads};

/// What the threads of a round tell one another.
pub struct Signs {
    /// The workers' thread runs.
    pub begun: AtomicBool,
    /// All workers have ended.
    pub ended: AtomicBool,
    /// A thread could not be made: a worker that hasn't begun doesn't.
    pub refused: AtomicBool,
}

impl Drop for Signs {
    fn drop(self) {
        let Signs {
            begun: _,
            ended: _,
            refused: _,
        } = self;
    }
}

impl Signs {
    /// Nothing has happened yet.
    pub fn new() -> Signs {
        Signs {
            begun: AtomicBool::new(false),
            ended: AtomicBool::new(false),
            refused: AtomicBool::new(false),
        }
    }
}

/// The second worker works in this thread, and those behind it in threads of their own. All are back when it returns.
fn work_together<
    's,
    'e: 's,
    R: Threads + Wait + Sync,
    A: Allocator + Copy + Send + Sync,
    C: Drop + Send + 'e,
    Q: BlockSearch<Alloc = A, Scratch = C> + Sync,
>(
    scope: &'s Scope<'s, &'e ()>,
    rt: &'e R,
    alloc: A,
    round: Round<'e, Q, A>,
    mut workers: Vec<Worker<A, C>, A>,
    refused: &'e AtomicBool,
) -> Vec<Worker<A, C>, A>
    requires ready { IsReady (task_of Q.seen round) }
    requires finished { All (HasFinished (task_of Q.seen round)) workers.items × (1 < vec_len workers) }
    ensures { AreBack (task_of Q.seen round.entry) workers.items result.items }
{
    let mut started = start_all(scope, rt, alloc, round, &mut workers, refused);
    search(rt, round, &mut workers[1]);
    join_all(rt, round, &mut started, &mut workers);
    workers
}

/// Has the workers of a round search, the second one in this thread and those behind it in threads of their own; the
/// first one is left to whoever takes the results. There are at least two, none of whom left a block unfinished. The
/// board has a number for each block, and each may be searched. All are back when it returns.
///
/// A thread that can't be made is no fault: its worker comes back as it is, or searches here. A worker that is refused
/// memory comes back with a block unfinished.
pub fn run_workers<
    R: Threads + Wait + Sync,
    A: Allocator + Copy + Send + Sync,
    C: Drop + Send,
    Q: BlockSearch<Alloc = A, Scratch = C> + Sync,
>(
    rt: &R,
    alloc: A,
    round: Round<'_, Q, A>,
    workers: Vec<Worker<A, C>, A>,
    signs: &Signs,
) -> Vec<Worker<A, C>, A>
    requires ready { IsReady (task_of Q.seen round) }
    requires finished { All (HasFinished (task_of Q.seen round)) workers.items × (1 < vec_len workers) }
    ensures { AreBack (task_of Q.seen round.entry) workers.items result.items }
{
    signs.begun.store(true, Ordering::SeqCst);
    let refused = &signs.refused;
    let back = thread::scope(
        thread::scope_env(),
        rt,
        |scope| -> Vec<Worker<A, C>, A>
            requires { IsReady (task_of Q.seen round)
                × All (HasFinished (task_of Q.seen round)) workers.items
                × (1 < vec_len workers) }
            ensures { AreBack (task_of Q.seen round.entry) workers.items result.items }
        { work_together(scope, rt, alloc, round, workers, refused) },
    );
    signs.ended.store(true, Ordering::SeqCst);
    back
}
