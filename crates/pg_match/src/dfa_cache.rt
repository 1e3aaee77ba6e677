//! The DFA cache: sets of states that were met, and where each byte leads from them.
ghost use Rattle.std.specs.Prelude.{◌≡◌, ℕ, ◌+◌, ◌*◌, ◌<◌, ◌≤◌, length, IsTrue, false, IfOk, IfSome};
ghost use Rattle.pg_match.specs.Automata.{Nfa};
ghost use Rattle.pg_match.specs.Closures.{AllBelow};
ghost use Rattle.pg_match.specs.StateSets.{IsGood};
ghost use Rattle.pg_match.specs.Steps.{Has};
ghost use Rattle.pg_match.specs.Dfas.{IsShape, IsDfaOf, In, flag_at, Same, Grown, Marked, MarkedEnd, IsBlank};
ghost use Rattle.pg_match.specs.Dfas.{HasRowRoom, Widened};
ghost use Rattle.pg_match.specs.Views.{members, dfa, SameLimits};

use crate::sparse_set::StateSet;
use std::alloc::{AllocError, Allocator, Global};

/// The most sets.
pub(crate) const SETS: usize = 256;

/// A row for each set, and row 0, which is that of the empty one.
const ROWS: usize = SETS + 1;

/// How many steps a row has, one for each byte. The DFA state at a row is so many times the row, so that a step is
/// found by one addition. A step below it is `UNKNOWN`, `HIT`, `DEAD` or `LOST`, and from it on the DFA state at the
/// next row.
pub(crate) const STRIDE: u32 = 256;

/// The DFA state at row 0, that of the empty set.
pub(crate) const EMPTY: u32 = 0;

/// The DFA state at row 1, which in a cache of all runs is that of a line's first place.
pub(crate) const FIRST: u32 = STRIDE;

/// The most state numbers of all sets together. Two caches of a scratch have half of them each.
const POOL: usize = 1_048_576;

/// How many bytes are searched without the cache before the sets are forgotten. That takes several times as long as to
/// find out so many sets, also where these are large.
const PATIENCE: usize = 2_097_152;

/// A step of which nothing is known yet.
pub(crate) const UNKNOWN: u32 = 0;

/// A step before whose byte a match ends.
pub(crate) const HIT: u32 = 1;

/// A step before whose byte no match ends, nor anywhere behind it. In a cache of the runs from one place, where a
/// match may end before the byte: a step of a row of which no state reads the byte.
pub(crate) const DEAD: u32 = 2;

/// A step for whose set there was no room since the cache was begun.
pub(crate) const LOST: u32 = 3;

/// A DFA as far as it is known: sets of states, a row for each, and where each byte leads from them. A text may lead to
/// more sets than there is room for. Then the cache is begun anew, so that it has those that are met now. Memory for
/// all is asked for when it is made, and written to as sets come.
pub struct Cache<A: Allocator = Global> {
    /// For a row and a byte, at `STRIDE` times the row plus the byte: `UNKNOWN`, `HIT`, `DEAD`, `LOST`, or the DFA
    /// state at the next row.
    pub steps: Vec<u32, A>,
    /// For each row whether a match ends where a line ends that isn't empty.
    pub ends: Vec<Option<bool>, A>,
    /// A flag for each row. In a cache of all runs it says that the row is fresh: only for places where no run is left
    /// that began before them. In one of the runs from one place it says that a match may end at a place inside a line
    /// whose set the row is.
    pub flags: Vec<bool, A>,
    /// The states of the rows, one row behind the other.
    pub pool: Vec<u32, A>,
    /// Where the states of each row begin in the pool, and where those of the last one end.
    pub cuts: Vec<u32, A>,
    /// How many sets there are.
    pub count: usize,
    /// How many sets there may be, since another cache may have the room of some.
    most: usize,
    /// Whether another cache has half of the state numbers.
    is_half: bool,
    /// How many bytes were searched without it, since it was begun.
    lost: usize,
}

impl<A: Allocator> Drop for Cache<A> {
    fn drop(self) {
        let Cache {
            steps: _,
            ends: _,
            flags: _,
            pool: _,
            cuts: _,
            count: _,
            most: _,
            is_half: _,
            lost: _,
        } = self;
    }
}

/// The most state numbers of the sets of a cache together.
fn most_states(is_half: bool) -> usize
    ensures { result ≤ 1048576 }
{
    if is_half { POOL / 2 } else { POOL }
}

impl<A: Allocator> Cache<A> {
    /// A cache without a set, with memory for those of an automaton with so many states. It may have half of the state
    /// numbers, beside another one.
    pub fn new(alloc: A, states: usize, is_half: bool) -> Result<Cache<A>, AllocError>
    where
        A: Copy,
        ensures { IfOk result (λ cache. IsBlank (dfa cache)) }
    {
        let mut steps = Vec::with_capacity(alloc, STRIDE as usize * ROWS)?;
        steps.resize(STRIDE as usize, UNKNOWN)?;
        let ends = vec![in alloc; None; ROWS]?;
        let flags = vec![in alloc; false; ROWS]?;
        let pool = Vec::with_capacity(
            alloc,
            states.saturating_mul(SETS).min(most_states(is_half)),
        )?;
        let cuts = vec![in alloc; 0u32; ROWS + 1]?;
        Ok(Cache {
            steps,
            ends,
            flags,
            pool,
            cuts,
            count: 0,
            most: SETS,
            is_half,
            lost: 0,
        })
    }

    /// Leaves the room of so many sets to another cache.
    pub fn leave_room(&mut self, sets: usize)
        ensures { dfa self.new ≡ dfa self.old }
    {
        self.most = SETS.saturating_sub(sets);
    }

    /// Takes all sets out.
    fn forget(&mut self)
        ensures { (states : ℕ) → IsShape states (dfa self.old) → IsBlank (dfa self.new) }
    {
        self.steps.fill(UNKNOWN);
        self.ends.fill(None);
        self.count = 0;
        self.lost = 0;
    }

    /// Counts bytes that were searched without the cache.
    pub fn lose(&mut self, bytes: usize)
        ensures { dfa self.new ≡ dfa self.old }
    {
        self.lost = self.lost.saturating_add(bytes);
    }

    /// Takes all sets out if too many bytes were searched without the cache.
    pub fn refresh(&mut self)
        ensures { (m : Nfa) → IsDfaOf m (dfa self.old) → IsDfaOf m (dfa self.new) }
    {
        if self.lost >= PATIENCE {
            self.forget();
        }
    }

    /// Fetches the set of a row.
    pub fn load(&self, row: usize, set: &mut StateSet<A>)
        requires shape { IsShape (length set.old.marks.items) (dfa self.now) }
        requires good { IsGood (members set.old) }
        requires known { row ≤ self.now.count }
        ensures good { IsGood (members set.new) }
        ensures size { length set.new.marks.items ≡ length set.old.marks.items }
        ensures same { Same (In (dfa self.now) row) (Has (members set.new)) }
        ensures ones { AllBelow (members set.new) 1 }
        ensures added { (members set.new).added ≡ (members set.old).added }
    {
        set.clear();
        let start = self.cuts[row] as usize;
        let end = self.cuts[row + 1] as usize;
        for k in start..end {
            set.fetch(self.pool[k]);
        }
    }

    /// Whether a row has the states of a set, in its order.
    fn is_same(&self, row: usize, set: &StateSet<A>) -> bool
        requires shape { IsShape (length set.now.marks.items) (dfa self.now) }
        requires good { IsGood (members set.now) }
        requires known { row ≤ self.now.count }
        ensures { IsTrue result → Same (Has (members set.now)) (In (dfa self.now) row) }
    {
        let start = self.cuts[row] as usize;
        let end = self.cuts[row + 1] as usize;
        if start + set.len != end {
            return false;
        }
        for k in 0..set.len {
            if self.pool[start + k] != set.order[k] {
                return false;
            }
        }
        true
    }

    /// The row with the states of a set and this flag, if there is one. The first row is never answered.
    pub fn find(&self, set: &StateSet<A>, flag: bool) -> Option<usize>
        requires shape { IsShape (length set.now.marks.items) (dfa self.now) }
        requires good { IsGood (members set.now) }
        ensures known { IfSome result (λ row. (2 ≤ row) × (row ≤ self.now.count)) }
        ensures same { IfSome result (λ row. Same (Has (members set.now)) (In (dfa self.now) row)) }
        ensures flag { IfSome result (λ row. flag_at (dfa self.now) row ≡ flag) }
    {
        for row in 2..self.count + 1 {
            if self.flags[row] == flag && self.is_same(row, set) {
                return Some(row);
            }
        }
        None
    }

    /// Makes room for a row with the states of a set, if there may be so many. Else the cache stays as it is. Memory
    /// was asked for when it was made.
    fn make_room(&mut self, set: &StateSet<A>) -> bool
        requires shape { IsShape (length set.now.marks.items) (dfa self.old) }
        ensures widened { IsTrue result → Widened (dfa self.old) (dfa self.new) }
        ensures room { IsTrue result → HasRowRoom (dfa self.new) set.now.len }
        ensures full { result ≡ false → dfa self.new ≡ dfa self.old }
        ensures limits { SameLimits self.old self.new }
    {
        let start = self.cuts[self.count + 1] as usize;
        if self.count == SETS || most_states(self.is_half).saturating_sub(start) < set.len {
            return false;
        }
        let steps = self.steps.len().max(STRIDE as usize * (self.count + 2));
        let states = self.pool.len().max(start + set.len);
        if self.pool.reserve(states - self.pool.len()).is_err() {
            return false;
        }
        if self.steps.resize(steps, UNKNOWN).is_err() {
            return false;
        }
        self.pool.resize(states, 0).is_ok()
    }

    /// Writes the next row, with the states of a set and a flag. Room was made for it.
    fn write(&mut self, set: &StateSet<A>, flag: bool)
        requires shape { IsShape (length set.now.marks.items) (dfa self.old) }
        requires good { IsGood (members set.now) }
        requires room { HasRowRoom (dfa self.old) set.now.len }
        ensures grown { Grown (length set.now.marks.items) (dfa self.old) (dfa self.new)
            (members set.now) flag }
        ensures limits { SameLimits self.old self.new }
    {
        let start = self.cuts[self.count + 1] as usize;
        for k in 0..set.len {
            self.pool[start + k] = set.order[k];
        }
        self.cuts[self.count + 2] = (start + set.len) as u32;
        self.flags[self.count + 1] = flag;
        self.count += 1;
    }

    /// Adds a row with the states of a set and a flag, if there is room.
    pub fn add(&mut self, set: &StateSet<A>, flag: bool) -> bool
        requires shape { IsShape (length set.now.marks.items) (dfa self.old) }
        requires good { IsGood (members set.now) }
        ensures grown { IsTrue result
            → Grown (length set.now.marks.items) (dfa self.old) (dfa self.new) (members set.now)
            flag }
        ensures full { result ≡ false → dfa self.new ≡ dfa self.old }
        ensures limits { SameLimits self.old self.new }
    {
        if self.count >= self.most || !self.make_room(set) {
            return false;
        }
        self.write(set, flag);
        true
    }

    /// Writes where a byte leads from a row that the cache has.
    pub fn mark(&mut self, row: usize, byte: u8, to: u32)
        requires { 256 * row + byte < length self.old.steps.items }
        ensures marked { Marked (dfa self.old) (dfa self.new) (256 * row + byte) to }
        ensures limits { SameLimits self.old self.new }
    {
        self.steps[STRIDE as usize * row + byte as usize] = to;
    }

    /// Writes the answer of a row, the 256th at most, at a line's end.
    pub fn mark_end(&mut self, row: usize, answer: bool)
        requires size { length self.old.ends.items ≡ 257 }
        requires row { row ≤ 256 }
        ensures marked { MarkedEnd (dfa self.old) (dfa self.new) row answer }
        ensures limits { SameLimits self.old self.new }
    {
        self.ends[row] = Some(answer);
    }
}
