//! Searches blocks, one after another or in rounds.
ghost use Rattle.std.specs.Prelude.{◌≡◌, ◌+◌, ◌-◌, ◌<◌, ◌≤◌, ◌∷◌, ◌^◌, List, [], true, false, length};
ghost use Rattle.std.specs.Prelude.{All, IfOk, MatchResult, OnOk};
ghost use Rattle.std.specs.Arc.{arc_value};
ghost use Rattle.pg_selection.specs.Search.{HasTrees};
ghost use Rattle.pg_run.specs.Endless.{is_endless};
ghost use Rattle.pg_run.specs.Searches.{AreScratches, FindsLines, fit_once};

use crate::fault::RunFault;
use crate::pace::{Pace, time};
use crate::room::has_room_for;
use crate::setup::Setup;
use pg_base::{Sink, WriteError};
use pg_blocks::{Block, Cutter};
use pg_reader::{NothingToRead, Reader};
use pg_round::{BlockSearch, search_round};
use pg_rows::Format;
use pg_selection::Selector;
use pg_seq::Sequencer;
use std::alloc::{AllocError, Allocator};
use std::mem;
use std::sync::{Arc, Wait};
use std::thread::Threads;
use std::time::Clock;

/// A round of fewer bytes isn't worth the starting of threads.
const LEAST_SPREAD: usize = 1_048_576;

/// How many bytes are held in reserve while blocks wait for their round.
const RESERVE: usize = 524_288;

/// How many files more than blocks may wait for their rows to be written.
const MOST_EMPTY: usize = 1_024;

/// Searches the blocks of files, and has a sequencer put their rows in order.
///
/// A block is searched at once, or waits until its round is searched by several threads. Each call needs an engine that
/// stands behind a plan, as a new one stands behind none, with no failed write; so it does after each call at `Ok`.
pub(crate) struct Engine<'q, A: Allocator + Copy, Q: BlockSearch<Alloc = A>> {
    pub(crate) alloc: A,
    pub(crate) setup: Setup,
    /// How many files were opened.
    pub(crate) files: u32,
    /// How many of them were opened when all that could be was written last.
    written: u32,
    /// Searches the blocks.
    query: &'q Q,
    /// The byte that ends a line.
    terminator: u8,
    /// For blocks that are searched at once.
    scratch: Q::Scratch,
    /// For rounds: the calling thread's, and one for each worker, as many as were needed by now.
    scratches: Vec<Q::Scratch, A>,
    /// Whether blocks wait for a round.
    spread: bool,
    /// How fast the last blocks were searched.
    pace: Pace,
    /// The blocks that wait.
    round: Vec<Arc<Block<A>, A>, A>,
    sequencer: Sequencer<A>,
    /// The memory of a block that is done with.
    spare: Option<Vec<u8, A>>,
    /// Memory that blocks don't take while they wait. It is given back when they are searched, which needs some too.
    reserve: Option<Vec<u8, A>>,
    ghost fits: { (Q.seen query.now).fits scratch } by { (Q.seen query.now).fits_once scratch },
    ghost few_scratches: { length scratches.items ≤ 65 },
    ghost all_fit: { All (Q.seen query.now).fits scratches.items } by { fit_once (Q.seen query.now) scratches.items },
    ghost endless: { spread ≡ true → is_endless setup.format ≡ true },
    ghost at_once: { spread ≡ false → round.items ≡ [] },
    ghost few: { length round.items ≤ setup.round },
}

impl<A: Allocator + Copy, Q: BlockSearch<Alloc = A>> Drop for Engine<'_, A, Q> {
    fn drop(self) {
        let Engine {
            alloc: _,
            setup: _,
            files: _,
            written: _,
            query: _,
            terminator: _,
            scratch: _,
            scratches: _,
            spread: _,
            pace: _,
            round: _,
            sequencer: _,
            spare: _,
            reserve: _,
        } = self;
    }
}

/// Whether nothing that was read is ever enough.
pub(crate) fn is_endless(format: Format) -> bool
    ensures { result ≡ is_endless format }
{
    format.limit.is_none() && !format.mode.settles_at_first()
}

/// Whether blocks are to wait for a round: where several threads may search, and that pays, by how fast the last
/// blocks were searched.
fn is_spread(setup: &Setup, pace: Pace) -> bool
    ensures { result ≡ true → is_endless setup.now.format ≡ true }
{
    let pays = setup.always_spread || pace.is_slow;
    pays && setup.workers > 0 && setup.round > 1 && is_endless(setup.format)
}

/// Makes one more scratch. There are fewer than 65, each made for the query.
fn add_scratch<A: Allocator + Copy, Q: BlockSearch<Alloc = A>>(
    query: &Q,
    scratches: &mut Vec<Q::Scratch, A>,
) -> Result<(), AllocError>
    requires { AreScratches (Q.seen query.now) 64 scratches.old.items }
    ensures more { OnOk result (length scratches.new.items ≡ length scratches.old.items + 1) }
    ensures scratches { AreScratches (Q.seen query.now) 65 scratches.new.items }
{
    let scratch = query.scratch()?;
    scratches.push(scratch)?;
    Ok(())
}

/// Makes scratches until there are so many, 1 to 65; those that are there were made for the query. Where memory is
/// refused, the thread that would have needed it is given up, but one scratch there has to be.
fn equip<A: Allocator + Copy, Q: BlockSearch<Alloc = A>>(
    query: &Q,
    scratches: &mut Vec<Q::Scratch, A>,
    count: usize,
) -> Result<(), AllocError>
    requires count { (0 < count) × (count ≤ 65) }
    requires scratches { AreScratches (Q.seen query.now) 65 scratches.old.items }
    ensures some { OnOk result (0 < length scratches.new.items) }
    ensures scratches { AreScratches (Q.seen query.now) 65 scratches.new.items }
{
    while scratches.len() < count {
        if let Err(refusal) = add_scratch(query, scratches) {
            return if scratches.is_empty() {
                Err(refusal)
            } else {
                Ok(())
            };
        }
    }
    Ok(())
}

/// The memory of a block, where nothing else holds it.
fn memory_of<A: Allocator>(block: Arc<Block<A>, A>) -> Option<Vec<u8, A>> {
    match Arc::into_inner(block) {
        Some(block) => Some(block.bytes),
        None => None,
    }
}

impl<'q, A: Allocator + Copy, Q: BlockSearch<Alloc = A>> Engine<'q, A, Q> {
    ghost use Rattle.pg_rows.specs.Enough.{is_enough};
    ghost use Rattle.pg_plan.specs.Plan.{Step, Opens, Announces, Ends, Misses, entries_of};
    ghost use Rattle.pg_base.specs.Sink.{Stream};
    ghost use Rattle.pg_run.specs.Holding.{Aim, HasPlan, HasRoomInRound, IsNewEngine, HasPlanFor, format_of};
    ghost use Rattle.pg_run.specs.Holding.{EmptiesRound, KeepsPlan, MayTakeStep, OpensOnPlan, PlansStay};
    ghost use Rattle.pg_run.specs.Holding.{SearchesAsBefore, SearchesStep, TakesStep};

    /// An engine that has no file yet, for the lines that the selector selects, which the query finds.
    pub(crate) fn new(
        alloc: A,
        query: &'q Q,
        selector: Arc<Selector<A>, A>,
        setup: Setup,
    ) -> Result<Engine<'q, A, Q>, AllocError>
        requires { FindsLines (Q.seen query.now) (arc_value selector) }
        ensures new { IfOk result (IsNewEngine (arc_value selector) setup) }
        ensures trees { OnOk result (HasTrees (arc_value selector)) }
    {
        let pace = Pace::new();
        let spread = is_spread(&setup, pace);
        let terminator = selector.text().terminator();
        let sequencer = Sequencer::new(alloc, selector, setup.format)?;
        let scratch = query.scratch()?;
        Ok(Engine {
            alloc,
            setup,
            files: 0,
            written: 0,
            query,
            terminator,
            scratch,
            scratches: Vec::new(alloc),
            spread,
            pace,
            round: Vec::new(alloc),
            sequencer,
            spare: None,
            reserve: None,
        })
    }

    /// Searches the open file's next block, and gives the sequencer its result. No block waits. Answers the block.
    fn take(&mut self, block: Block<A>) -> Result<Arc<Block<A>, A>, AllocError>
        requires at_once { self.old.spread ≡ false }
        requires ready { MayTakeStep self.old (Announces block) }
        ensures none { self.new.round.items ≡ [] }
        ensures ok { TakesStep self.old self.new (Announces block) result }
    {
        let block = Arc::new(self.alloc, block)?;
        let found = self.query.search(&mut self.scratch, 0, &block)?;
        let kept = Arc::try_clone(&block)?;
        self.sequencer.announce(block)?;
        self.sequencer.keep(found);
        Ok(kept)
    }

    /// Has the open file's next block wait for its round, which has room for it.
    fn add(&mut self, block: Block<A>) -> Result<(), AllocError>
        requires spread { self.old.spread ≡ true }
        requires room { length self.old.round.items < self.old.setup.round }
        requires ready { MayTakeStep self.old (Announces block) }
        ensures { TakesStep self.old self.new (Announces block) result }
    {
        if self.reserve.is_none() {
            self.reserve = Vec::with_capacity(self.alloc, RESERVE).ok();
        }
        let block = Arc::new(self.alloc, block)?;
        self.sequencer.announce(Arc::try_clone(&block)?)?;
        self.round.push(block)?;
        Ok(())
    }

    /// Writes all that may be written. No block waits.
    fn drain<W: Sink>(&mut self, out: &mut W) -> Result<(), RunFault>
        requires none { self.old.round.items ≡ [] }
        ensures none { self.new.round.items ≡ [] }
        ensures empties { EmptiesRound self.old self.new (W.stream out.old) (W.stream out.new) result }
    {
        self.sequencer.drain(out)?;
        self.written = self.files;
        Ok(())
    }

    /// Has the writer send on the rows that it holds back, where that is due.
    pub(crate) fn send_on<W: Sink>(&self, is_due: bool, out: &mut W) -> Result<(), RunFault>
        ensures keeps { KeepsPlan self.now self.now (W.stream out.old) (W.stream out.new) result }
        ensures taken { (W.stream out.new).taken ≡ (W.stream out.old).taken }
    {
        if !is_due {
            return Ok(());
        }
        match out.flush() {
            Ok(()) => Ok(()),
            Err(WriteError) => Err(RunFault::Sink),
        }
    }

    /// Searches the open file's next block and writes what may be written, or has the block wait where blocks
    /// are searched in rounds. There is room for it, and it may follow on those before it.
    pub(crate) fn search<R: Clock, W: Sink>(
        &mut self,
        rt: &R,
        block: Block<A>,
        out: &mut W,
    ) -> Result<(), RunFault>
        requires room { HasRoomInRound self.old }
        requires ready { MayTakeStep self.old (Announces block) }
        ensures { SearchesStep self.old self.new (Announces block) (W.stream out.old) (W.stream out.new) result }
    {
        if self.spread {
            self.add(block)?;
            return Ok(());
        }
        let len = block.bytes.len();
        let begun = time(rt);
        let kept = self.take(block)?;
        let pace = self.pace.after(rt, begun, len, 1);
        self.drain(out)?;
        self.spare = memory_of(kept);
        self.pace = pace;
        Ok(())
    }

    /// Whether the blocks that wait are as many as a round has.
    pub(crate) fn is_full(&self) -> bool
        ensures { result ≡ false → HasRoomInRound self.now }
    {
        self.spread && self.round.len() >= self.setup.round as usize
    }

    /// How many reads give about as many bytes as a round has: one gives about as many as a block.
    pub(crate) fn reads_ahead(&self) -> u32 {
        self.setup.round.saturating_add(1)
    }

    /// The memory of the block that was searched last, if nothing holds that any more.
    pub(crate) fn take_spare(&mut self) -> Option<Vec<u8, A>>
        ensures kept { SearchesAsBefore self.old self.new }
        ensures round { self.new.round ≡ self.old.round }
        ensures holds { PlansStay self.old self.new }
    {
        self.spare.take()
    }

    /// Decides anew whether blocks are to wait for a round, unless some wait.
    pub(crate) fn choose(&mut self)
        ensures holds { PlansStay self.old self.new }
    {
        if self.round.is_empty() {
            self.spread = is_spread(&self.setup, self.pace);
        }
    }

    /// How many bytes wait.
    fn waiting(&self) -> usize {
        let mut bytes = 0usize;
        for block in &self.round {
            bytes = bytes.saturating_add(block.bytes.len());
        }
        bytes
    }

    /// How many threads are to search so many bytes, beside the calling one. There are none where the address space has
    /// no room for all of them: what they took of it would be lacking to the calling one.
    fn workers(&self, bytes: usize) -> u32
        ensures { result ≤ 64 }
    {
        let pays = self.setup.always_spread || bytes >= LEAST_SPREAD;
        if pays && has_room_for(self.alloc, self.setup.workers) {
            self.setup.workers
        } else {
            0
        }
    }

    /// Opens a file, and answers the cutter for it. At most 2^32 - 2 files were opened before.
    pub(crate) fn open(&mut self, name: &[u8]) -> Result<Cutter<A>, AllocError>
        requires few { self.old.files < 2 ^ 32 - 1 }
        requires ready { MayTakeStep self.old (Opens name.now) }
        ensures { OpensOnPlan self.old self.new name.now result }
    {
        self.sequencer.open(name)?;
        let file = self.files;
        self.files = file + 1;
        Ok(Cutter::new(
            self.alloc,
            file,
            self.setup.block,
            self.setup.line,
            self.terminator,
        ))
    }

    /// Notes a name that gives no file.
    pub(crate) fn miss(&mut self, name: &[u8]) -> Result<(), AllocError>
        requires { MayTakeStep self.old (Misses name.now) }
        ensures { TakesStep self.old self.new (Misses name.now) result }
    {
        self.sequencer.miss(name)
    }

    /// Ends the open file.
    pub(crate) fn end(&mut self, failed: bool)
        requires { MayTakeStep self.old (Ends failed) }
        ensures { (aim : Aim) → (steps : List Step) → (out : Stream) → HasPlanFor self.old aim steps out (Ends failed) →
            HasPlan self.new aim (Ends failed ∷ steps) out }
    {
        self.sequencer.end(failed);
    }

    /// Whether blocks wait to be searched.
    pub(crate) fn has_waiting(&self) -> bool {
        !self.round.is_empty()
    }

    /// Whether many files without lines wait for blocks that wait for their round. The names of files that wait are
    /// held, and files without lines never fill a round.
    fn has_many_empty(&self) -> bool {
        let files = self.files.saturating_sub(self.written) as usize;
        files > self.round.len().saturating_add(MOST_EMPTY)
    }

    /// Whether enough was read.
    pub(crate) fn enough(&self) -> bool
        ensures { (aim : Aim) → (steps : List Step) → (out : Stream) → HasPlan self.now aim steps out →
            result ≡ is_enough aim.query (format_of aim) (entries_of steps) }
    {
        !self.spread && self.sequencer.enough()
    }
}

impl<A: Allocator + Copy + Send + Sync, Q: BlockSearch<Alloc = A, Scratch: Send> + Sync> Engine<
    '_,
    A,
    Q,
> {
    ghost use Rattle.pg_plan.specs.Plan.{Step, is_open};
    ghost use Rattle.pg_reader.specs.Going.{HasGoneOn};
    ghost use Rattle.pg_run.specs.Holding.{Aim, HasPlan, HasRoomInRound, HasSomePlan, BreaksOffInSearch};
    ghost use Rattle.pg_run.specs.Holding.{EmptiesRound, IsFinishedRun, IsWrittenFirst, KeepsPlan};

    /// Searches the blocks that wait, by several threads where that pays, and writes all that may be written. Meanwhile
    /// the reader reads on.
    pub(crate) fn search_round<R: Threads + Wait + Clock + Sync, D: Reader<X>, X, W: Sink>(
        &mut self,
        rt: &R,
        reader: &mut D,
        from: &mut X,
        out: &mut W,
    ) -> Result<(), RunFault>
        requires ready { D.ready reader.old from.old }
        requires holds { HasSomePlan self.old (W.stream out.old) }
        ensures read { HasGoneOn D.ready D.reaches reader.old from.old reader.new from.new }
        ensures empties { EmptiesRound self.old self.new (W.stream out.old) (W.stream out.new) result }
    {
        self.reserve = None;
        let bytes = self.waiting();
        let workers = self.workers(bytes);
        let begun = time(rt);
        let mut scratches = mem::replace(&mut self.scratches, Vec::new(self.alloc));
        equip(self.query, &mut scratches, workers as usize + 1)?;
        search_round(
            rt,
            self.alloc,
            self.query,
            &self.round,
            workers,
            &mut scratches,
            &mut self.sequencer,
            out,
            reader,
            from,
        )?;
        self.pace = self.pace.after(rt, begun, bytes, workers + 1);
        self.scratches = scratches;
        self.round.clear();
        self.written = self.files;
        Ok(())
    }

    /// Searches the blocks that wait, if there are any, and writes all that may be written.
    pub(crate) fn flush<R: Threads + Wait + Clock + Sync, W: Sink>(
        &mut self,
        rt: &R,
        out: &mut W,
    ) -> Result<(), RunFault>
        requires holds { HasSomePlan self.old (W.stream out.old) }
        ensures { EmptiesRound self.old self.new (W.stream out.old) (W.stream out.new) result }
    {
        if self.round.is_empty() {
            return self.drain(out);
        }
        self.search_round(rt, &mut NothingToRead, &mut (), out)
    }

    /// Searches the blocks that wait, where they are as many as a round has: there is room for one more then.
    pub(crate) fn make_room<R: Threads + Wait + Clock + Sync, W: Sink>(
        &mut self,
        rt: &R,
        out: &mut W,
    ) -> Result<(), RunFault>
        requires holds { HasSomePlan self.old (W.stream out.old) }
        ensures room { OnOk result (HasRoomInRound self.new) }
        ensures outcome { KeepsPlan self.old self.new (W.stream out.old) (W.stream out.new) result }
    {
        if !self.is_full() {
            return Ok(());
        }
        self.flush(rt, out)
    }

    /// Searches the blocks that wait, if there are any, and has their rows written.
    pub(crate) fn flush_waiting<R: Threads + Wait + Clock + Sync, W: Sink>(
        &mut self,
        rt: &R,
        out: &mut W,
    ) -> Result<(), RunFault>
        requires holds { HasSomePlan self.old (W.stream out.old) }
        ensures { KeepsPlan self.old self.new (W.stream out.old) (W.stream out.new) result }
    {
        if !self.has_waiting() {
            return Ok(());
        }
        self.flush(rt, out)
    }

    /// Searches the blocks that wait, if there are any, and has all rows sent on, where that is due: before a fault
    /// line, which belongs behind them.
    pub(crate) fn send_rows<R: Threads + Wait + Clock + Sync, W: Sink>(
        &mut self,
        rt: &R,
        is_due: bool,
        out: &mut W,
    ) -> Result<(), RunFault>
        requires holds { HasSomePlan self.old (W.stream out.old) }
        ensures { KeepsPlan self.old self.new (W.stream out.old) (W.stream out.new) result }
    {
        if !is_due {
            return Ok(());
        }
        self.flush_waiting(rt, out)?;
        self.send_on(true, out)?;
        Ok(())
    }

    /// Writes what the files give that have ended, unless blocks wait for their round, and no more files wait behind
    /// them than may.
    pub(crate) fn flush_ended<R: Threads + Wait + Clock + Sync, W: Sink>(
        &mut self,
        rt: &R,
        out: &mut W,
    ) -> Result<(), RunFault>
        requires holds { HasSomePlan self.old (W.stream out.old) }
        ensures { KeepsPlan self.old self.new (W.stream out.old) (W.stream out.new) result }
    {
        if self.has_waiting() && !self.has_many_empty() {
            return Ok(());
        }
        self.flush(rt, out)
    }

    /// Searches what waits and has its rows sent on, before the run breaks off by this fault. Answers it, or the fault
    /// by which that broke off.
    pub(crate) fn break_off<R: Threads + Wait + Clock + Sync, W: Sink>(
        &mut self,
        rt: &R,
        fault: RunFault,
        out: &mut W,
    ) -> RunFault
        requires holds { HasSomePlan self.old (W.stream out.old) }
        ensures { (aim : Aim) → (steps : List Step) → HasPlan self.old aim steps (W.stream out.old) →
            IsWrittenFirst aim steps (W.stream out.new) fault result }
    {
        match self.flush(rt, out) {
            Ok(()) => match self.send_on(true, out) {
                Ok(()) => fault,
                Err(failure) => failure,
            },
            Err(failure) => failure,
        }
    }

    /// Searches what waits, writes what is left, and answers the status. No file is open.
    pub(crate) fn finish<R: Threads + Wait + Clock + Sync, W: Sink>(
        &mut self,
        rt: &R,
        out: &mut W,
    ) -> Result<u8, RunFault>
        requires holds { (aim : Aim) × (steps : List Step)
            × HasPlan self.old aim steps (W.stream out.old) × (is_open steps ≡ false) }
        ensures { (aim : Aim) → (steps : List Step) → HasPlan self.old aim steps (W.stream out.old) →
            MatchResult result (IsFinishedRun aim steps (W.stream out.new))
            (BreaksOffInSearch aim steps (W.stream out.new)) }
    {
        self.flush(rt, out)?;
        Ok(self.sequencer.status().unwrap())
    }
}
