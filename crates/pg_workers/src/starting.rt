//! How workers are started and brought back.
ghost use Rattle.std.specs.Prelude.{◌≡◌, ◌+◌, ◌<◌, ◌≤◌, All, vec_len, vec_capacity};
ghost use Rattle.pg_workers.specs.Workers.{task, task_of, IsReady, HasWorked, HasFinished, IsStarted};

use crate::block_search::BlockSearch;
use crate::round::Round;
use crate::worker::{Worker, search};
use pg_blocks::Block;
use pg_selection::BlockResult;
use std::alloc::Allocator;
use std::sync::atomic::{AtomicBool, Ordering};
use std::sync::{Arc, Wait};
use std::thread::{Promise, PromisedHandle, Scope, Threads};

impl<'a, A: Allocator, C: Drop, Q: BlockSearch<Alloc = A, Scratch = C>> Promise<Worker<A, C>>
    for Round<'a, Q, A> {
    ghost use Rattle.pg_workers.specs.Workers.{task_of, HasWorked};

    ghost kept_by = { λ round worker. HasWorked (task_of Q.seen round) worker };
}

/// A worker in a thread of its own, or what came of it where none could be made.
#[derive(Drop)]
pub(crate) enum StartedWorker<'a, A: Allocator, C: Drop, Q: BlockSearch<Alloc = A, Scratch = C>> {
    Running(PromisedHandle<Worker<A, C>, Round<'a, Q, A>>),
    Ended(Worker<A, C>),
}

/// Searches, unless a thread was refused: then the worker comes back as it is.
fn search_unless<R: Wait, A: Allocator, C: Drop, Q: BlockSearch<Alloc = A, Scratch = C>>(
    rt: &R,
    round: Round<'_, Q, A>,
    mut worker: Worker<A, C>,
    refused: &AtomicBool,
) -> Worker<A, C>
    requires ready { IsReady (task_of Q.seen round) }
    requires finished { HasFinished (task_of Q.seen round) worker }
    ensures { HasWorked (task_of Q.seen round.entry) result }
{
    if refused.load(Ordering::SeqCst) {
        return worker;
    }
    search(rt, round, &mut worker);
    worker
}

/// Starts a worker in a thread of its own. Where none can be made, the worker comes back as it is.
fn start<
    's,
    'e: 's,
    R: Threads + Wait + Sync,
    A: Allocator + Send + Sync,
    C: Drop + Send + 'e,
    Q: BlockSearch<Alloc = A, Scratch = C> + Sync,
>(
    scope: &'s Scope<'s, &'e ()>,
    rt: &'e R,
    round: Round<'e, Q, A>,
    worker: Worker<A, C>,
    refused: &'e AtomicBool,
) -> StartedWorker<'e, A, C, Q>
    requires ready { IsReady (task_of Q.seen round) }
    requires finished { HasFinished (task_of Q.seen round) worker }
    ensures { IsStarted Q.seen round.entry result }
{
    let Round {
        query,
        blocks,
        board,
        tray,
    } = round;
    let child = scope.spawn_with(
        round,
        move || -> Worker<A, C>
            requires { IsReady (task (Q.seen query.now) blocks.now board.now tray.now)
                × HasFinished (task (Q.seen query.now) blocks.now board.now tray.now) worker }
            ensures { HasWorked (task (Q.seen query.entry.now) blocks.entry.now board.entry.now tray.entry.now)
                result }
        {
            let round = Round {
                query,
                blocks,
                board,
                tray,
            };
            search_unless(rt, round, worker, refused)
        },
    );
    match child {
        Ok(handle) => StartedWorker::Running(handle),
        Err(refusal) => {
            refused.store(true, Ordering::SeqCst);
            StartedWorker::Ended((refusal.value)())
        }
    }
}

/// Starts each worker but the first two in a thread of its own. Where memory for the list of them is refused, no thread
/// is started.
pub(crate) fn start_all<
    's,
    'e: 's,
    R: Threads + Wait + Sync,
    A: Allocator + Copy + Send + Sync,
    C: Drop + Send + 'e,
    Q: BlockSearch<Alloc = A, Scratch = C> + Sync,
>(
    scope: &'s Scope<'s, &'e ()>,
    rt: &'e R,
    alloc: A,
    round: Round<'e, Q, A>,
    workers: &mut Vec<Worker<A, C>, A>,
    refused: &'e AtomicBool,
) -> Vec<StartedWorker<'e, A, C, Q>, A>
    requires ready { IsReady (task_of Q.seen round) }
    requires finished { All (HasFinished (task_of Q.seen round)) workers.old.items × (1 < vec_len workers.old) }
    ensures finished { All (HasFinished (task_of Q.seen round.entry)) workers.new.items × (1 < vec_len workers.new) }
    ensures started { All (IsStarted Q.seen round.entry) result.items }
    ensures count { vec_len workers.new + vec_len result ≡ vec_len workers.old }
    ensures room { vec_capacity workers.new ≡ vec_capacity workers.old }
{
    let Ok(mut all) = Vec::with_capacity(alloc, workers.len()) else {
        return Vec::new(alloc);
    };
    while workers.len() > 2 {
        let Some(worker) = workers.pop() else {
            unreachable!()
        };
        all.push_reserved(start(scope, rt, round, worker, refused));
    }
    all
}

/// Waits for all workers to end, who then stand behind these, where there is room for them.
pub(crate) fn join_all<
    'e,
    R: Threads,
    A: Allocator,
    C: Drop,
    Q: BlockSearch<Alloc = A, Scratch = C>,
>(
    rt: &R,
    round: Round<'e, Q, A>,
    all: &mut Vec<StartedWorker<'e, A, C, Q>, A>,
    workers: &mut Vec<Worker<A, C>, A>,
)
    requires started { All (IsStarted Q.seen round) all.old.items }
    requires worked { All (HasWorked (task_of Q.seen round)) workers.old.items }
    requires room { vec_len workers.old + vec_len all.old ≤ vec_capacity workers.old }
    ensures count { vec_len workers.new ≡ vec_len workers.old + vec_len all.old }
    ensures worked { All (HasWorked (task_of Q.seen round.entry)) workers.new.items }
{
    while let Some(started) = all.pop() {
        let worker = match started {
            StartedWorker::Running(handle) => handle.join(rt),
            StartedWorker::Ended(worker) => worker,
        };
        workers.push_reserved(worker);
    }
}
