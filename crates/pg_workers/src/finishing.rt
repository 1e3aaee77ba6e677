//! What is left to search once the threads of a round have ended.
ghost use Rattle.std.specs.Prelude.{◌≡◌, ◌<◌, true, All, Any, vec_len, OnOk};
ghost use Rattle.pg_workers.specs.Workers.{task_of, IsReady, HasWorked, HasFinished};

use crate::block_search::BlockSearch;
use crate::round::Round;
use crate::worker::{Worker, finish, search};
use pg_blocks::Block;
use pg_selection::BlockResult;
use std::alloc::{AllocError, Allocator};
use std::sync::{Arc, Wait};

/// Searches the block that each worker left unfinished.
fn finish_all<R: Wait, A: Allocator, C: Drop, Q: BlockSearch<Alloc = A, Scratch = C>>(
    rt: &R,
    round: Round<'_, Q, A>,
    workers: &mut Vec<Worker<A, C>, A>,
) -> Result<(), AllocError>
    requires ready { IsReady (task_of Q.seen round) }
    requires worked { All (HasWorked (task_of Q.seen round)) workers.old.items }
    ensures { OnOk result ((vec_len workers.new ≡ vec_len workers.old)
        × All (HasFinished (task_of Q.seen round.entry)) workers.new.items) }
{
    for worker in workers.iter_mut() {
        finish(rt, round, worker)?;
    }
    Ok(())
}

/// Searches all that is left of a round in this thread: the blocks that workers left unfinished, and, by the first
/// worker, those whose numbers were not drawn. The board has a number for each block, and each may be searched. There
/// is at least one worker, and each has worked for this round. At `Ok` no number is left, and no block unfinished.
///
/// # Errors
///
/// Only where a request for memory was refused. Nothing is said of the workers then.
pub fn search_rest<R: Wait, A: Allocator, C: Drop, Q: BlockSearch<Alloc = A, Scratch = C>>(
    rt: &R,
    round: Round<'_, Q, A>,
    workers: &mut Vec<Worker<A, C>, A>,
) -> Result<(), AllocError>
    requires ready { IsReady (task_of Q.seen round) }
    requires worked { All (HasWorked (task_of Q.seen round)) workers.old.items × (0 < vec_len workers.old) }
    ensures finished { OnOk result ((vec_len workers.new ≡ vec_len workers.old)
        × All (HasFinished (task_of Q.seen round.entry)) workers.new.items) }
    ensures spent { OnOk result (Any (λ w. w.seat.spent ≡ true) workers.new.items) }
{
    finish_all(rt, round, workers)?;
    let first = &mut workers[0];
    search(rt, round, first);
    match first.unfinished {
        None => Ok(()),
        Some(_) => Err(AllocError),
    }
}
