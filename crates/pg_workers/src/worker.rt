//! What each one who searches does.
ghost use Rattle.std.specs.Prelude.{◌≡◌, ◌<◌, true, None, IfOk, IfErr, IfNone, OnOk, OnErr};
ghost use Rattle.pg_workers.specs.Results.{IsBlockResult};
ghost use Rattle.pg_workers.specs.Workers.{task_of, IsReady, HasPut, GrowAlike, GrowBut, HasWorked, HasFinished};

use crate::block_search::BlockSearch;
use crate::round::Round;
use pg_blocks::Block;
use pg_board::{PutPass, Seat};
use pg_selection::BlockResult;
use std::alloc::{AllocError, Allocator};
use std::sync::{Arc, Wait};
use thiserror::Error;

/// A block that was left unfinished: its number was drawn, and memory was refused before its result was put.
#[derive(Clone, Copy, Debug, PartialEq, Eq, Error)]
#[error("out of memory at block {number}")]
pub struct UnfinishedBlock {
    /// The block's number in its round, from 0.
    pub number: u32,
}

/// Who searches: the right to draw numbers, the right to put results, and a scratch to search with.
pub struct Worker<A: Allocator, C> {
    pub seat: Seat,
    pub pass: PutPass<BlockResult<A>, A>,
    pub scratch: C,
    /// The number that it drew last, where it left that block unfinished. It draws no other one then.
    pub unfinished: Option<u32>,
}

impl<A: Allocator, C: Drop> Worker<A, C> {
    /// The parts of a worker.
    pub(crate) fn apart(self) -> (Seat, PutPass<BlockResult<A>, A>, C)
        ensures { (result.0 ≡ self.seat) × (result.1 ≡ self.pass) × (result.2 ≡ self.scratch) }
    {
        let Worker {
            seat,
            pass,
            scratch,
            unfinished: _,
        } = self;
        (seat, pass, scratch)
    }
}

impl<A: Allocator, C: Drop> Drop for Worker<A, C> {
    fn drop(self) {
        let Worker {
            seat: _,
            pass: _,
            scratch: _,
            unfinished: _,
        } = self;
    }
}

/// Searches the block of a number below the board's limit. The scratch fits the round's query.
fn search_number<A: Allocator, C, Q: BlockSearch<Alloc = A, Scratch = C>>(
    round: Round<'_, Q, A>,
    scratch: &mut C,
    number: u32,
) -> Result<BlockResult<A>, AllocError>
    requires ready { IsReady (task_of Q.seen round) }
    requires number { number < round.board.now.limit }
    requires fits { (Q.seen round.query.now).fits scratch.old }
    ensures fits { (Q.seen round.entry.query.now).fits scratch.new }
    ensures found { IfOk result
        (IsBlockResult (Q.seen round.entry.query.now).finds round.entry.blocks.now number) }
{
    let block = &round.blocks[number as usize];
    round.query.search(scratch, number, block)
}

/// Searches the block of a number below the board's limit, and puts its result.
fn search_one<R: Wait, A: Allocator, C, Q: BlockSearch<Alloc = A, Scratch = C>>(
    rt: &R,
    round: Round<'_, Q, A>,
    scratch: &mut C,
    pass: &mut PutPass<BlockResult<A>, A>,
    number: u32,
) -> Result<(), AllocError>
    requires ready { IsReady (task_of Q.seen round) }
    requires number { number < round.board.now.limit }
    requires tray { pass.old.tray ≡ round.tray.now }
    requires fits { (Q.seen round.query.now).fits scratch.old }
    ensures tray { pass.new.tray ≡ round.entry.tray.now }
    ensures fits { (Q.seen round.entry.query.now).fits scratch.new }
    ensures ok { OnOk result (HasPut (task_of Q.seen round.entry) number pass.old.put pass.new.put) }
    ensures err { OnErr result (pass.new.put ≡ pass.old.put) }
{
    let found = search_number(round, scratch, number)?;
    match round.tray.put(rt, pass, found) {
        Ok(()) => Ok(()),
        Err(_) => Err(AllocError),
    }
}

/// Draws numbers until none is left, searches the block of each, and puts its result. The board has a number for each
/// block, and each may be searched; the seat and the pass are of the round's board and tray, and the scratch was made
/// for its query.
///
/// # Errors
///
/// Only where a request for memory was refused: the block of the number that was drawn last. Its result was not put,
/// while all before it were.
pub fn work<R: Wait, A: Allocator, C, Q: BlockSearch<Alloc = A, Scratch = C>>(
    rt: &R,
    round: Round<'_, Q, A>,
    scratch: &mut C,
    seat: &mut Seat,
    pass: &mut PutPass<BlockResult<A>, A>,
) -> Result<(), UnfinishedBlock>
    requires ready { IsReady (task_of Q.seen round) }
    requires same { (seat.old.board ≡ round.board.now) × (pass.old.tray ≡ round.tray.now) }
    requires fits { (Q.seen round.query.now).fits scratch.old }
    ensures same { (seat.new.board ≡ round.entry.board.now) × (pass.new.tray ≡ round.entry.tray.now) }
    ensures fits { (Q.seen round.entry.query.now).fits scratch.new }
    ensures ok { OnOk result ((seat.new.spent ≡ true)
        × GrowAlike (task_of Q.seen round.entry) seat.old.drawn seat.new.drawn pass.old.put pass.new.put) }
    ensures err { IfErr result (λ left. (left.number < round.entry.board.now.limit)
        × GrowBut (task_of Q.seen round.entry) left.number seat.old.drawn seat.new.drawn pass.old.put pass.new.put) }
{
    for _ in rt.forever() {
        let Some(number) = round.board.draw(seat) else {
            return Ok(());
        };
        let Ok(()) = search_one(rt, round, scratch, pass, number) else {
            return Err(UnfinishedBlock { number });
        };
    }
    unreachable!()
}

/// Searches until no number is left, and the worker's seat is spent. Where memory is refused before that, the worker
/// leaves a block unfinished.
pub(crate) fn search<R: Wait, A: Allocator, C, Q: BlockSearch<Alloc = A, Scratch = C>>(
    rt: &R,
    round: Round<'_, Q, A>,
    worker: &mut Worker<A, C>,
)
    requires ready { IsReady (task_of Q.seen round) }
    requires finished { HasFinished (task_of Q.seen round) worker.old }
    ensures worked { HasWorked (task_of Q.seen round.entry) worker.new }
    ensures spent { IfNone worker.new.unfinished (worker.new.seat.spent ≡ true) }
{
    let Worker {
        seat,
        pass,
        scratch,
        unfinished,
    } = worker;
    match work(rt, round, scratch, seat, pass) {
        Ok(()) => *unfinished = None,
        Err(UnfinishedBlock { number }) => *unfinished = Some(number),
    }
}

/// Searches the block that a worker left unfinished, if there is one, and puts its result by the worker's pass.
pub(crate) fn finish<R: Wait, A: Allocator, C, Q: BlockSearch<Alloc = A, Scratch = C>>(
    rt: &R,
    round: Round<'_, Q, A>,
    worker: &mut Worker<A, C>,
) -> Result<(), AllocError>
    requires ready { IsReady (task_of Q.seen round) }
    requires worked { HasWorked (task_of Q.seen round) worker.old }
    ensures { OnOk result (HasFinished (task_of Q.seen round.entry) worker.new) }
{
    let Worker {
        seat: _,
        pass,
        scratch,
        unfinished,
    } = worker;
    let Some(number) = *unfinished else {
        return Ok(());
    };
    search_one(rt, round, scratch, pass, number)?;
    *unfinished = None;
    Ok(())
}
