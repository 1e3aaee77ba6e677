//! The set of states of one place of a line.
ghost use Rattle.std.specs.Prelude.{◌≡◌, ◌<◌, ℕ, IfOk, IsTrue, length, take};
ghost use Rattle.pg_match.specs.Closures.{IsOrdered};
ghost use Rattle.pg_match.specs.StateSets.{IsGood, Inserted, Counted, IsEmpty, mark};

use crate::state::ACCEPT;
use pg_base::History;
use std::alloc::{AllocError, Allocator, Global};

/// A set of states, in the order in which they were added, with a mark for each.
#[derive(Drop)]
pub struct StateSet<A: Allocator = Global> {
    /// The states, and behind them unused room.
    pub order: Vec<u32, A>,
    /// For each state its mark, or 0 where it isn't in the set.
    pub marks: Vec<u32, A>,
    /// How many states are in the set.
    pub len: usize,
    /// The states that were ever added, each as `()`. It takes no memory.
    added: History<()>,
}

impl<A: Allocator> StateSet<A> {
    ghost use Rattle.pg_match.specs.Views.{members};

    /// An empty set with room for so many states.
    pub fn new(alloc: A, states: usize) -> Result<StateSet<A>, AllocError>
    where
        A: Copy,
        ensures good { IfOk result (λ s. IsGood (members s)) }
        ensures empty { IfOk result (λ s. IsEmpty (members s)) }
        ensures size { IfOk result (λ s. length s.marks.items ≡ states) }
        ensures added { IfOk result (λ s. (members s).added ≡ 0) }
    {
        let order = vec![in alloc; 0u32; states]?;
        let marks = vec![in alloc; 0u32; states]?;
        Ok(StateSet {
            order,
            marks,
            len: 0,
            added: History::new(),
        })
    }

    /// Its states, in the order in which they were added.
    pub fn into_states(self) -> Vec<u32, A>
        ensures { result.items ≡ take self.len self.order.items }
    {
        let StateSet {
            mut order,
            marks: _marks,
            len,
            added: _added,
        } = self;
        order.truncate(len);
        order
    }

    /// Takes all states out.
    #[inline(always)]
    pub fn clear(&mut self)
        requires { IsGood (members self.old) }
        ensures good { IsGood (members self.new) }
        ensures empty { IsEmpty (members self.new) }
        ensures size { length self.new.marks.items ≡ length self.old.marks.items }
        ensures added { (members self.new).added ≡ (members self.old).added }
    {
        for k in 0..self.len {
            let state = self.order[k];
            self.marks[state as usize] = 0;
        }
        self.len = 0;
    }

    /// Whether there is no state but number 0, where matches end.
    #[inline(always)]
    pub fn is_over(&self) -> bool
        requires { IsGood (members self.now) }
        ensures { IsTrue result → (q : ℕ) → 0 < mark (members self.now) q → q ≡ 0 }
    {
        self.len == 0 || self.len == 1 && self.order[0] == ACCEPT
    }

    /// Whether all states have this mark. They were added in the order of their marks.
    #[inline(always)]
    pub fn has_only(&self, start: u32) -> bool
        requires good { IsGood (members self.now) }
        requires ordered { IsOrdered (members self.now) }
        ensures { IsTrue result → (q : ℕ) → 0 < mark (members self.now) q → mark (members self.now) q ≡ start }
    {
        if self.len == 0 {
            return false;
        }
        let first = self.order[0];
        let last = self.order[self.len - 1];
        self.marks[first as usize] == start && self.marks[last as usize] == start
    }

    /// Adds a state with a mark, unless it is there. This alone is counted as a visit.
    #[inline(always)]
    pub fn insert(&mut self, state: u32, mark: u32)
        requires good { IsGood (members self.old) }
        requires within { state < length self.old.marks.items }
        requires some { 0 < mark }
        ensures inserted { Inserted (members self.old) (members self.new) state mark }
        ensures counted { Counted (members self.old) (members self.new) }
    {
        if self.marks[state as usize] == 0 {
            self.order[self.len] = state;
            self.marks[state as usize] = mark;
            self.len += 1;
            self.added.push(&());
        }
    }

    /// Fetches a state of a set in the cache, unless it is there. It is no visit.
    #[inline(always)]
    pub fn fetch(&mut self, state: u32)
        requires good { IsGood (members self.old) }
        requires within { state < length self.old.marks.items }
        ensures inserted { Inserted (members self.old) (members self.new) state 1 }
        ensures added { (members self.new).added ≡ (members self.old).added }
    {
        if self.marks[state as usize] == 0 {
            self.order[self.len] = state;
            self.marks[state as usize] = 1;
            self.len += 1;
        }
    }
}
