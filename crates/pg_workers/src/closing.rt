//! What is left of a round once all have ended.
ghost use Rattle.std.specs.Prelude.{◌≡◌, ◌+◌, true, All, Any, List, vec_len, length, IfOk, OnOk};
ghost use Rattle.pg_selection.specs.Searched.{SearchedBlock};
ghost use Rattle.pg_board.specs.Merge.{IsMerge};
ghost use Rattle.pg_workers.specs.Results.{HasAll};
ghost use Rattle.pg_workers.specs.Workers.{task, task_of, HasFinished, AreWorks};

use crate::block_search::BlockSearch;
use crate::opening::OpenRound;
use crate::round::Round;
use crate::worker::Worker;
use pg_blocks::Block;
use pg_board::{PutPass, Seat, TrayRest};
use pg_selection::BlockResult;
use std::alloc::{AllocError, Allocator};
use std::sync::Arc;

/// The seats and the passes of all workers, side by side.
type SeatsAndPasses<A> = (Vec<Seat, A>, Vec<PutPass<BlockResult<A>, A>, A>);

/// Takes all workers apart. Their scratches are given back.
fn part<A: Allocator + Copy, C: Drop, Q: BlockSearch<Alloc = A, Scratch = C>>(
    alloc: A,
    round: Round<'_, Q, A>,
    mut workers: Vec<Worker<A, C>, A>,
    scratches: &mut Vec<C, A>,
) -> Result<SeatsAndPasses<A>, AllocError>
    requires finished { All (HasFinished (task_of Q.seen round)) workers.items }
    requires spent { Any (λ w. w.seat.spent ≡ true) workers.items }
    requires fits { All (Q.seen round.query.now).fits scratches.old.items }
    ensures works { IfOk result (λ r. AreWorks (task_of Q.seen round.entry) r.0.items r.1.items) }
    ensures spent { IfOk result (λ r. Any (λ s. s.spent ≡ true) r.0.items) }
    ensures len { IfOk result (λ r. vec_len r.0 ≡ vec_len workers) }
    ensures fits { OnOk result (All (Q.seen round.entry.query.now).fits scratches.new.items) }
    ensures count { OnOk result (vec_len scratches.new ≡ vec_len scratches.old + vec_len workers) }
{
    let mut seats = Vec::with_capacity(alloc, workers.len())?;
    let mut passes = Vec::with_capacity(alloc, workers.len())?;
    while let Some(worker) = workers.pop() {
        let (seat, pass, scratch) = worker.apart();
        seats.push_reserved(seat);
        passes.push_reserved(pass);
        scratches.push(scratch)?;
    }
    Ok((seats, passes))
}

/// Closes a round all of whose numbers were drawn, as the seat of some worker tells: what was taken and what is left on
/// the tray has the result of each of its blocks. The board has a number for each block, and what was taken was taken
/// from this tray. All workers of the round are there, and none left a block unfinished.
/// Their scratches are added to those given, and fit the query as these do.
///
/// # Errors
///
/// Only where a request for memory was refused. Results and scratches may be lost then.
pub fn close_round<A: Allocator + Copy, C: Drop, Q: BlockSearch<Alloc = A, Scratch = C>>(
    alloc: A,
    query: &Q,
    blocks: &[Arc<Block<A>, A>],
    round: OpenRound<A, C>,
    scratches: &mut Vec<C, A>,
) -> Result<TrayRest<BlockResult<A>, A>, AllocError>
    requires finished { All
        (HasFinished (task (Q.seen query.now) blocks.now round.board round.tray)) round.workers.items }
    requires spent { Any (λ w. w.seat.spent ≡ true) round.workers.items × (length blocks.now ≡ round.board.limit) }
    requires all { (vec_len round.workers ≡ round.board.seats) × (vec_len round.workers ≡ round.take.workers)
        × (round.take.tray ≡ round.tray) }
    requires fits { All (Q.seen query.now).fits scratches.old.items }
    ensures taken { IfOk result (λ r. r.out ≡ round.take.taken) }
    ensures all { IfOk result (λ r. (rs : List SearchedBlock) → IsMerge r.lists rs →
        HasAll (Q.seen query.now).finds blocks.now rs) }
    ensures fits { OnOk result (All (Q.seen query.now).fits scratches.new.items) }
    ensures count { OnOk result (vec_len scratches.new ≡ vec_len scratches.old + vec_len round.workers) }
{
    let OpenRound {
        board,
        tray,
        take,
        workers,
    } = round;
    let round = Round {
        query,
        blocks,
        board: &board,
        tray: &tray,
    };
    let (seats, passes) = part(alloc, round, workers, scratches)?;
    let _drawn = board.close(seats);
    Ok(tray.close(passes, take))
}
