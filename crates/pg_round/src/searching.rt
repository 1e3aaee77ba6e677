//! The search of one round.
ghost use Rattle.std.specs.Prelude.{◌≡◌, ◌+◌, ◌<◌, ◌≤◌, [], All, vec_len, length, IfOk, OnOk};
ghost use Rattle.pg_selection.specs.Searched.{SearchedBlock};
ghost use Rattle.pg_workers.specs.Workers.{task_of, IsReady, HasFinished, AreBack};
ghost use Rattle.pg_reader.specs.Going.{HasGoneOn};
ghost use Rattle.pg_round.specs.Receipts.{HasReceived, HasRound, TakesResults};

use crate::fault::RoundFault;
use crate::receiving::deliver;
use crate::streaming::stream;
use pg_base::Sink;
use pg_blocks::Block;
use pg_board::TakePass;
use pg_plan::Collector;
use pg_reader::Reader;
use pg_selection::BlockResult;
use pg_workers::{BlockSearch, OpenRound, Round, Worker, close_round, open_round, search_rest};
use std::alloc::Allocator;
use std::sync::{Arc, Wait};
use std::thread::Threads;
use std::time::Clock;

/// How many search a round of so many blocks, the calling thread too, where there are so many scratches and at most so
/// many threads are wanted.
fn count_workers(blocks: usize, scratches: usize, threads: u32) -> u32
    requires { (0 < scratches) × (scratches ≤ 65) × (blocks ≤ 1024) × (threads ≤ 64) }
    ensures { (0 < result) × (result ≤ 65) × (result ≤ scratches) }
{
    if blocks < 2 {
        return 1;
    }
    scratches.min(blocks + 1).min(threads as usize + 1) as u32
}

/// Has the workers but the first search, if there are any, and meanwhile takes what they put and has the reader go on.
fn search_beside<
    R: Threads + Wait + Clock + Sync,
    A: Allocator + Copy + Send + Sync,
    S: Collector<BlockResult<A>>,
    W: Sink,
    D: Reader<F>,
    F,
    C: Drop + Send,
    Q: BlockSearch<Alloc = A, Scratch = C> + Sync,
>(
    rt: &R,
    alloc: A,
    round: Round<'_, Q, A>,
    workers: Vec<Worker<A, C>, A>,
    take: &mut TakePass<BlockResult<A>, A>,
    collector: &mut S,
    out: &mut W,
    reader: &mut D,
    from: &mut F,
) -> Result<Vec<Worker<A, C>, A>, RoundFault>
    requires ready { IsReady (task_of Q.seen round) }
    requires finished { All (HasFinished (task_of Q.seen round)) workers.items }
    requires sees { (found : SearchedBlock) → S.searched found ≡ found }
    requires take { (take.old.tray ≡ round.tray.now) × (take.old.taken ≡ []) }
    requires reader { D.ready reader.old from.old }
    ensures back { IfOk result (λ back. AreBack (task_of Q.seen round.entry) workers.items back.items) }
    ensures same { (take.new.tray ≡ round.entry.tray.now) × (take.new.workers ≡ take.old.workers) }
    ensures took { TakesResults result (S.stands collector.old) (HasReceived (S.stands collector.new) take.new.taken)
        (W.stream out.old) (W.stream out.new) }
    ensures read { HasGoneOn D.ready D.reaches reader.old from.old reader.new from.new }
{
    if workers.len() < 2 {
        return Ok(workers);
    }
    let (back, taken) = stream(
        rt, alloc, &round, round.tray, workers, take, collector, out, reader, from,
    );
    taken?;
    Ok(back)
}

/// Searches all blocks of a round, and hands out what may be.
///
/// One of the scratches, 1 to 65, is for the calling thread. For each other one, but for no more than there are
/// blocks, and at most `threads`, which are 0 to 64, a worker searches in a thread of its own; a round of one block has
/// none. Meanwhile the calling thread takes the results as they come, and has them written; then it searches what was
/// left. A thread that can't be made is no fault: others search its blocks. Nor is a thread that is refused memory: it
/// ends, and the block that it was searching is searched again once all have ended.
///
/// Whenever no result is there to be taken, the reader makes a step in the calling thread, until all workers are seen
/// to have ended. In a round without workers it makes none.
///
/// The round has at most 1,024 blocks, which `query` searches and may search. The scratches fit it. The collector sees
/// a result as it is, and the reader may make a step. At `Ok` the scratches are there again, in any order.
///
/// What is said of what was written holds where no drain of the collector failed before, and what it wrote is a
/// beginning of what the plan gives. Nothing is said of the collector at `Err`.
///
/// # Errors
///
/// `OutOfMemory` where the calling thread was refused memory; then no write failed. `Sink` where a write failed, or
/// took no byte of a text that isn't empty. What was written until then is a beginning of what the plan gives.
/// Scratches may be lost. The reader and what it works on are as the steps left them that it made until then.
pub fn search_round<
    R: Threads + Wait + Clock + Sync,
    A: Allocator + Copy + Send + Sync,
    S: Collector<BlockResult<A>>,
    W: Sink,
    D: Reader<F>,
    F,
    C: Drop + Send,
    Q: BlockSearch<Alloc = A, Scratch = C> + Sync,
>(
    rt: &R,
    alloc: A,
    query: &Q,
    blocks: &[Arc<Block<A>, A>],
    threads: u32,
    scratches: &mut Vec<C, A>,
    collector: &mut S,
    out: &mut W,
    reader: &mut D,
    from: &mut F,
) -> Result<(), RoundFault>
    requires few { (0 < vec_len scratches.old) × (vec_len scratches.old ≤ 65) × (length blocks.now ≤ 1024)
        × (threads ≤ 64) }
    requires fits { All (Q.seen query.now).fits scratches.old.items }
    requires sees { (found : SearchedBlock) → S.searched found ≡ found }
    requires may { All (Q.seen query.now).may blocks.now }
    requires reader { D.ready reader.old from.old }
    ensures took { TakesResults result (S.stands collector.old)
        (HasRound (S.stands collector.new) (Q.seen query.now).finds blocks.now)
        (W.stream out.old) (W.stream out.new) }
    ensures read { HasGoneOn D.ready D.reaches reader.old from.old reader.new from.new }
    ensures scratches { OnOk result ((vec_len scratches.new ≡ vec_len scratches.old)
        × All (Q.seen query.now).fits scratches.new.items) }
{
    let count = count_workers(blocks.len(), scratches.len(), threads);
    let OpenRound {
        board,
        tray,
        mut take,
        workers,
    } = open_round(alloc, query, blocks, count, scratches)?;
    let round = Round {
        query,
        blocks,
        board: &board,
        tray: &tray,
    };
    let mut workers = search_beside(
        rt, alloc, round, workers, &mut take, collector, out, reader, from,
    )?;
    search_rest(rt, round, &mut workers)?;
    let searched = OpenRound {
        board,
        tray,
        take,
        workers,
    };
    let delivered = close_round(alloc, query, blocks, searched, scratches)?;
    deliver(rt, delivered, collector, out)?;
    Ok(())
}
