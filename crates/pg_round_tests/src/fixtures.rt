//! Blocks, scratches, gates, a collector and a reader for tests.
ghost use Rattle.std.specs.Prelude.{◌≡◌, ℕ, ◌+◌, ◌^◌, ◌<◌, ◌≤◌, ◌++◌, List, All};
ghost use Rattle.std.specs.Prelude.{vec_len, IfOk, OnOk, IsErrOf};
ghost use Rattle.pg_match.specs.Machines.{Fits};
ghost use Rattle.pg_run.specs.Searches.{HasShortLines};

use pg_base::Sink;
use pg_blocks::Block;
use pg_lines::{BlockResult, Kind, PatternList, Query, QueryText, Scratch};
use pg_reader::Reader;
use pg_round::Collector;
use pg_search::Gate;
use pg_seq::{Arrival, SinkFault};
use std::alloc::{AllocError, Allocator};
use std::sync::Arc;
use std::sync::atomic::{AtomicBool, AtomicU64, Ordering};
use std::thread;

/// What a query for the letter x is compiled from.
pub(crate) fn text<A: Allocator + Copy>(alloc: A) -> Result<QueryText<A>, AllocError> {
    let mut lists = Vec::new(alloc);
    lists.push(PatternList::Text(Vec::from_slice(alloc, b"x")?))?;
    Ok(QueryText {
        kind: Kind::Fixed,
        lists,
        fold: false,
        whole: false,
        word: false,
        invert: false,
        with_parts: false,
        zero: false,
    })
}

/// A query for the letter x.
pub(crate) fn query<A: Allocator + Copy>(alloc: A) -> Result<Query<A>, AllocError> {
    match Query::compile(alloc, text(alloc)?) {
        Ok(query) => Ok(query),
        Err(_) => Err(AllocError),
    }
}

/// So many blocks without a byte, with the numbers from 0.
pub(crate) fn blocks<A: Allocator + Copy>(
    alloc: A,
    query: &Query<A>,
    count: u32,
) -> Result<Vec<Arc<Block<A>, A>, A>, AllocError>
    ensures len { IfOk result (λ blocks. vec_len blocks ≡ count) }
    ensures short { IfOk result (λ blocks. All (HasShortLines query.now.text) blocks.items) }
{
    let mut blocks = Vec::with_capacity(alloc, count as usize)?;
    for number in 0..count {
        let block = Block {
            file: 0,
            number: u64::from(number),
            bytes: Vec::new(alloc),
        };
        let block = Arc::new(alloc, block)?;
        blocks.push_reserved(block);
    }
    Ok(blocks)
}

/// So many scratches for a query.
pub(crate) fn scratches<A: Allocator + Copy>(
    alloc: A,
    query: &Query<A>,
    count: u32,
) -> Result<Vec<Scratch<A>, A>, AllocError>
    ensures len { IfOk result (λ all. vec_len all ≡ count) }
    ensures fits { IfOk result (λ all. All (λ s. Fits s query.now.machine) all.items) }
{
    let mut all = Vec::with_capacity(alloc, count as usize)?;
    for _ in 0..count {
        let scratch = Scratch::new(alloc, query.machine())?;
        all.push_reserved(scratch);
    }
    Ok(all)
}

/// Counts the results of each block, by the block's number.
#[derive(Drop)]
pub(crate) struct Counts {
    pub(crate) found: [u32; 8],
}

impl<A: Allocator> Collector<BlockResult<A>> for Counts {
    ghost use Rattle.pg_plan.specs.History.{Past, answer, handed};
    ghost use Rattle.pg_plan.specs.Drains.{Drained, IsSafe, drained};
    ghost use Rattle.pg_plan.specs.declared.answers.SinkFault.TheVariants.{Failed, WriteFailed};

    ghost stands = { λ s past. ⊥ };

    ghost searched = { λ found. found };

    fn arrive(&mut self, found: BlockResult<A>) -> Arrival
        ensures answer { (past : Past) → ⊥ → result ≡ answer past found }
        ensures stands { (past : Past) → ⊥ → ⊥ }
    {
        let number = found.block().number;
        if number < 8 {
            let at = number as usize;
            self.found[at] = self.found[at].saturating_add(1);
        }
        Arrival::Taken
    }

    fn drain<W: Sink>(&mut self, _out: &mut W) -> Result<(), SinkFault>
        ensures drained { (past : Past) → ⊥ → (text : List ℕ)
            × ((W.stream _out.new).taken ≡ (W.stream _out.old).taken ++ text)
            × Drained result past text × ⊥ }
        ensures safe { (past : Past) → ⊥ → IsSafe past (handed past) }
        ensures cause { IsErrOf result WriteFailed → (W.stream _out.old).failures < (W.stream _out.new).failures }
        ensures failed { IsErrOf result Failed → W.stream _out.new ≡ W.stream _out.old }
        ensures no_failure { OnOk result ((W.stream _out.new).failures ≡ (W.stream _out.old).failures) }
        ensures never_falls { (W.stream _out.old).failures ≤ (W.stream _out.new).failures }
    {
        Ok(())
    }
}

/// Counts the calls around each search.
pub(crate) struct Counting {
    before: [AtomicU64; 8],
    after: [AtomicU64; 8],
}

impl Drop for Counting {
    fn drop(self) {
        let Counting {
            before: _,
            after: _,
        } = self;
    }
}

/// So many zeros.
fn zeros() -> [AtomicU64; 8] {
    [
        AtomicU64::new(0),
        AtomicU64::new(0),
        AtomicU64::new(0),
        AtomicU64::new(0),
        AtomicU64::new(0),
        AtomicU64::new(0),
        AtomicU64::new(0),
        AtomicU64::new(0),
    ]
}

impl Counting {
    pub(crate) fn new() -> Counting {
        Counting {
            before: zeros(),
            after: zeros(),
        }
    }

    /// Whether so many calls were made before the searches of the block of a number, and as many behind them.
    pub(crate) fn has_called(&self, number: usize, count: u64) -> bool {
        number < 8
            && self.before[number].load(Ordering::SeqCst) == count
            && self.after[number].load(Ordering::SeqCst) == count
    }
}

impl Gate for Counting {
    fn before(&self, number: u32) {
        if number < 8 {
            self.before[number as usize].fetch_add(1, Ordering::SeqCst);
        }
    }

    fn after(&self, number: u32) {
        if number < 8 {
            self.after[number as usize].fetch_add(1, Ordering::SeqCst);
        }
    }
}

/// How often who waits for others asks for them before giving up.
pub(crate) const PATIENCE: u32 = 10_000_000;

/// Who searches a block waits until so many do, or gives up. It counts those who met all others, and those who gave up.
pub(crate) struct Meeting {
    wanted: u64,
    begun: AtomicU64,
    ended: AtomicU64,
    met: AtomicU64,
    given_up: AtomicU64,
}

impl Drop for Meeting {
    fn drop(self) {
        let Meeting {
            wanted: _,
            begun: _,
            ended: _,
            met: _,
            given_up: _,
        } = self;
    }
}

impl Meeting {
    /// A meeting of so many.
    pub(crate) fn of(wanted: u64) -> Meeting {
        Meeting {
            wanted,
            begun: AtomicU64::new(0),
            ended: AtomicU64::new(0),
            met: AtomicU64::new(0),
            given_up: AtomicU64::new(0),
        }
    }

    /// How many met all others, and how often a wait was given up.
    pub(crate) fn outcome(&self) -> (u64, u64) {
        (
            self.met.load(Ordering::SeqCst),
            self.given_up.load(Ordering::SeqCst),
        )
    }

    /// Waits until all were counted, or gives up. Once one has given up, nobody waits any more.
    fn wait_for_all(&self, counter: &AtomicU64) {
        for _ in 0..PATIENCE {
            let is_over = self.given_up.load(Ordering::SeqCst) > 0;
            if is_over || counter.load(Ordering::SeqCst) >= self.wanted {
                return;
            }
            thread::yield_now();
        }
        self.given_up.fetch_add(1, Ordering::SeqCst);
    }
}

impl Gate for Meeting {
    fn before(&self, _number: u32) {
        self.begun.fetch_add(1, Ordering::SeqCst);
        self.wait_for_all(&self.begun);
        if self.ended.load(Ordering::SeqCst) == 0 {
            self.met.fetch_add(1, Ordering::SeqCst);
        }
    }

    fn after(&self, _number: u32) {
        self.wait_for_all(&self.met);
        self.ended.fetch_add(1, Ordering::SeqCst);
    }
}

/// Who searches the first block waits until so many steps were made, or gives up.
pub(crate) struct Holding {
    wanted: u64,
    begun: AtomicBool,
    made: AtomicU64,
    pub(crate) given_up: AtomicU64,
}

impl Drop for Holding {
    fn drop(self) {
        let Holding {
            wanted: _,
            begun: _,
            made: _,
            given_up: _,
        } = self;
    }
}

impl Holding {
    pub(crate) fn new(wanted: u64) -> Holding {
        Holding {
            wanted,
            begun: AtomicBool::new(false),
            made: AtomicU64::new(0),
            given_up: AtomicU64::new(0),
        }
    }
}

impl Gate for Holding {
    fn before(&self, number: u32) {
        if number != 0 {
            return;
        }
        self.begun.store(true, Ordering::SeqCst);
        for _ in 0..PATIENCE {
            if self.made.load(Ordering::SeqCst) >= self.wanted {
                return;
            }
            thread::yield_now();
        }
        self.given_up.fetch_add(1, Ordering::SeqCst);
    }

    fn after(&self, _number: u32) {}
}

/// Counts its steps, while there are some left, and how often it is asked for one. There is nothing to do until the
/// first block's search has begun.
#[derive(Drop)]
pub(crate) struct Stepping<'g> {
    pub(crate) gate: &'g Holding,
    pub(crate) left: u32,
    pub(crate) asked: u32,
}

impl<'g> Reader<u32> for Stepping<'g> {
    ghost ready = { λ reader steps. reader.left + steps < 2 ^ 32 };

    ghost reaches = { λ reader steps reader' steps'. reader'.left + steps' ≡ reader.left + steps };

    ghost left = { λ reader. reader.left };

    fn step(&mut self, steps: &mut u32) -> bool {
        self.asked = self.asked.saturating_add(1);
        if self.left == 0 || !self.gate.begun.load(Ordering::SeqCst) {
            return false;
        }
        self.left -= 1;
        *steps += 1;
        self.gate.made.fetch_add(1, Ordering::SeqCst);
        true
    }
}
