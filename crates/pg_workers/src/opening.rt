//! What a round needs before it begins.
ghost use Rattle.std.specs.Prelude.{◌≡◌, ◌+◌, ◌<◌, ◌≤◌, [], false, All, vec_len, length, IfOk, OnOk};
ghost use Rattle.pg_board.specs.Board.{seat_view};
ghost use Rattle.pg_board.specs.Tray.{put_view, take_view};
ghost use Rattle.pg_workers.specs.Workers.{task, task_of, HasFinished};

use crate::block_search::BlockSearch;
use crate::round::Round;
use crate::worker::Worker;
use pg_blocks::Block;
use pg_board::{Board, PutPass, Seat, TakePass, Tray};
use pg_selection::BlockResult;
use std::alloc::{AllocError, Allocator};
use std::sync::Arc;

/// An open round: the board of its blocks' numbers, the tray of their results, the right to take these out, and those
/// who search.
#[derive(Drop)]
pub struct OpenRound<A: Allocator, C: Drop> {
    pub board: Board<A>,
    pub tray: Tray<BlockResult<A>, A>,
    pub take: TakePass<BlockResult<A>, A>,
    pub workers: Vec<Worker<A, C>, A>,
}

/// A worker for each seat, each with a scratch of those given.
fn gather<A: Allocator + Copy, C: Drop, Q: BlockSearch<Alloc = A, Scratch = C>>(
    alloc: A,
    round: Round<'_, Q, A>,
    mut seats: Vec<Seat, A>,
    mut passes: Vec<PutPass<BlockResult<A>, A>, A>,
    scratches: &mut Vec<C, A>,
) -> Result<Vec<Worker<A, C>, A>, AllocError>
    requires seats { All (λ s. s ≡ seat_view round.board.now [] false) seats.items }
    requires passes { All (λ p. p ≡ put_view round.tray.now []) passes.items × (vec_len passes ≡ vec_len seats) }
    requires scratches { All (Q.seen round.query.now).fits scratches.old.items
        × (vec_len seats ≤ vec_len scratches.old) }
    ensures workers { IfOk result (λ workers. All (HasFinished (task_of Q.seen round.entry)) workers.items
        × (vec_len workers ≡ vec_len seats)) }
    ensures scratches { OnOk result (All (Q.seen round.entry.query.now).fits scratches.new.items
        × (vec_len scratches.new + vec_len seats ≡ vec_len scratches.old)) }
{
    let mut workers = Vec::with_capacity(alloc, seats.len())?;
    while let Some(seat) = seats.pop() {
        let Some(pass) = passes.pop() else {
            unreachable!()
        };
        let Some(scratch) = scratches.pop() else {
            unreachable!()
        };
        workers.push_reserved(Worker {
            seat,
            pass,
            scratch,
            unfinished: None,
        });
    }
    Ok(workers)
}

/// Opens a round of at most 1,024 blocks for 1 to 65 workers. Each gets one of the scratches, which fit the query and
/// are at least as many; the others stay.
///
/// # Errors
///
/// Only where a request for memory was refused. Scratches may be lost then.
pub fn open_round<A: Allocator + Copy, C: Drop, Q: BlockSearch<Alloc = A, Scratch = C>>(
    alloc: A,
    query: &Q,
    blocks: &[Arc<Block<A>, A>],
    count: u32,
    scratches: &mut Vec<C, A>,
) -> Result<OpenRound<A, C>, AllocError>
    requires few { (0 < count) × (count ≤ 65) × (count ≤ vec_len scratches.old) × (length blocks.now ≤ 1024) }
    requires fits { All (Q.seen query.now).fits scratches.old.items }
    ensures board { IfOk result (λ r. (r.board.limit ≡ length blocks.now) × (r.board.seats ≡ count)) }
    ensures take { IfOk result (λ r. r.take ≡ take_view r.tray count []) }
    ensures workers { IfOk result (λ r. (vec_len r.workers ≡ count)
        × All (HasFinished (task (Q.seen query.now) blocks.now r.board r.tray)) r.workers.items) }
    ensures scratches { OnOk result (All (Q.seen query.now).fits scratches.new.items
        × (vec_len scratches.new + count ≡ vec_len scratches.old)) }
{
    let (board, seats) = Board::open(alloc, blocks.len() as u32, count)?;
    let (tray, passes, take) = Tray::open(alloc, count)?;
    let round = Round {
        query,
        blocks,
        board: &board,
        tray: &tray,
    };
    let workers = gather(alloc, round, seats, passes, scratches)?;
    Ok(OpenRound {
        board,
        tray,
        take,
        workers,
    })
}
