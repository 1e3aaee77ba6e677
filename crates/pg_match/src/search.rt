//! The search of a line, one place after the other.
ghost use Rattle.std.specs.Prelude.{◌≡◌, ◌+◌, ◌-◌, ◌*◌, ◌^◌, ◌<◌, ◌≤◌};
ghost use Rattle.std.specs.Prelude.{ℕ, length, is_none, IfOk, IfNone, IfSome, IsTrue, None, is_some, true};
ghost use Rattle.pg_pattern.specs.Bounds.{MayBegin};
ghost use Rattle.pg_match.specs.Anchored.{IsLone};
ghost use Rattle.pg_match.specs.StateSets.{IsGood, HaveRoom, mark};
ghost use Rattle.pg_match.specs.Steps.{Has};
ghost use Rattle.pg_match.specs.Closures.{IsClosed, IsOrdered, AllBelow};
ghost use Rattle.pg_match.specs.Starts.{SeedsStepped};
ghost use Rattle.pg_match.specs.Searches.{Alive, Advanced, IsBestFrom, start_bound, judged, limit_of, ending};
ghost use Rattle.pg_match.specs.Views.{nfa, members, buffers, added, Tells, IsBuilt};

use crate::automaton::Automaton;
use crate::closure::{reach, step};
use crate::sparse_set::StateSet;
use crate::state::ACCEPT;
use std::alloc::{AllocError, Allocator, Global};
use std::mem;

/// The sets of two places, and how many states the last search added.
pub struct StateSets<A: Allocator = Global> {
    pub current: StateSet<A>,
    pub next: StateSet<A>,
    pub visits: u128,
}

impl<A: Allocator> Drop for StateSets<A> {
    fn drop(self) {
        let StateSets {
            current: _,
            next: _,
            visits: _,
        } = self;
    }
}

impl<A: Allocator> StateSets<A> {
    /// Empty sets with room for so many states.
    pub fn new(alloc: A, states: usize) -> Result<StateSets<A>, AllocError>
    where
        A: Copy,
        ensures room { IfOk result (λ s. HaveRoom (buffers s) states) }
        ensures visits { IfOk result (λ s. s.visits ≡ 0) }
        ensures added { IfOk result (λ s. added s ≡ 0) }
    {
        let current = StateSet::new(alloc, states)?;
        let next = StateSet::new(alloc, states)?;
        Ok(StateSets {
            current,
            next,
            visits: 0,
        })
    }
}

/// The better of the best span so far and the match that ends at a place. `mark` is one more than where that match
/// begins, and 0 where none ends there. A match without a byte is no span.
#[inline(always)]
fn judge(place: usize, mark: u32, best: Option<(usize, usize)>) -> Option<(usize, usize)>
    ensures { result ≡ judged place mark best }
{
    if mark == 0 {
        return best;
    }
    let from = mark as usize - 1;
    if from < place {
        match best {
            None => Some((from, place)),
            Some((first, last)) => {
                if from <= first {
                    Some((from, place))
                } else {
                    Some((first, last))
                }
            }
        }
    } else {
        best
    }
}

/// The greatest mark of a match that may still win.
#[inline(always)]
fn limit(best: Option<(usize, usize)>) -> u32
    requires { limit_of best < 2 ^ 32 }
    ensures { result ≡ limit_of best }
{
    match best {
        None => u32::MAX,
        Some((first, _)) => first as u32 + 1,
    }
}

impl<A: Allocator> Automaton<A> {
    /// Begins a search at a place: takes all states out, and adds the start if a line begins there. Starts at other
    /// places are added behind their first byte.
    pub(crate) fn enter(&self, sets: &mut StateSets<A>, line: &[u8], from: usize)
        requires built { IsBuilt self.now }
        requires room { HaveRoom (buffers sets.old) (length self.now.states.items) }
        requires visits { sets.old.visits < 2 ^ 98 }
        ensures alive { Alive self.now.states.items line.now self.now.start (MayBegin self.now.bounds line.now) from
            (start_bound from) from (members sets.new.current) None }
        ensures room { HaveRoom (buffers sets.new) (length self.now.states.items) }
        ensures visits { sets.new.visits ≤ sets.old.visits + length self.now.states.items }
        ensures inside { 0 < from → sets.new.visits ≡ sets.old.visits }
        ensures told { Tells sets.old sets.new }
    {
        sets.current.clear();
        if from == 0 {
            reach(&self.states, line, 0, &mut sets.current, self.start, 1);
            sets.visits += sets.current.len as u128;
        }
    }

    /// The mark of the match that ends at `place`, or 0.
    #[inline(always)]
    pub(crate) fn ending(&self, set: &StateSet<A>, line: &[u8], place: usize) -> u32
        requires built { IsBuilt self.now }
        requires size { length set.now.marks.items ≡ length self.now.states.items }
        requires place { place ≤ length line.now }
        ensures { result ≡ ending (nfa self.now) line.now place (members set.now) }
    {
        if self.bounds.may_end(line, place) {
            set.marks[ACCEPT as usize]
        } else {
            0
        }
    }

    /// Adds what the byte at a place leads to from a start there.
    #[inline(always)]
    fn step_seeds(&self, line: &[u8], place: usize, next: &mut StateSet<A>)
        requires built { IsBuilt self.now }
        requires good { IsGood (members next.old) }
        requires size { length next.old.marks.items ≡ length self.now.states.items }
        requires closed { IsClosed self.now.states.items line.now (place + 1) (members next.old) }
        requires ordered { IsOrdered (members next.old) }
        requires below { AllBelow (members next.old) (place + 1) }
        requires place { place < length line.now }
        requires short { length line.now ≤ 2 ^ 30 }
        ensures { SeedsStepped self.now.states.items line.now place self.now.seeds.items
            (members next.old) (members next.new) (place + 1) }
    {
        let mark = place as u32 + 1;
        let (first, last) = self.starts.row(line[place]);
        for k in first..last {
            let target = self.starts.targets[k];
            reach(&self.states, line, place + 1, next, target, mark);
        }
    }

    /// Goes on to the next place. A start is of no use once there is a best span, which starts earlier.
    #[inline(always)]
    fn advance(
        &self,
        sets: &mut StateSets<A>,
        line: &[u8],
        place: usize,
        best: Option<(usize, usize)>,
    )
        requires built { IsBuilt self.now }
        requires room { HaveRoom (buffers sets.old) (length self.now.states.items) }
        requires ordered { IsOrdered (members sets.old.current) }
        requires below { AllBelow (members sets.old.current) (place + 1) }
        requires place { place < length line.now }
        requires short { length line.now ≤ 2 ^ 30 }
        requires limit { limit_of best < 2 ^ 32 }
        requires visits { sets.old.visits < 2 ^ 100 }
        ensures advanced { Advanced self.now.states.items line.now self.now.start (MayBegin self.now.bounds line.now)
            place (is_none best) (members sets.old.current) (members sets.new.current) (limit_of best) }
        ensures room { HaveRoom (buffers sets.new) (length self.now.states.items) }
        ensures visits { sets.new.visits ≡ sets.old.visits + sets.new.current.len }
        ensures told { Tells sets.old sets.new }
    {
        step(
            &self.states,
            line,
            place,
            &sets.current,
            &mut sets.next,
            limit(best),
        );
        if place > 0 && best.is_none() && self.bounds.may_begin(line, place) {
            self.step_seeds(line, place, &mut sets.next);
        }
        mem::swap(&mut sets.current, &mut sets.next);
        sets.visits += sets.current.len as u128;
    }

    /// Whether all runs in the set of a place began where the best span so far does, and so few states were visited
    /// that four visits a state are to spare of as many as bytes stand before the place.
    #[inline(always)]
    fn is_alone(&self, sets: &StateSets<A>, best: Option<(usize, usize)>, place: usize) -> bool
        requires good { IsGood (members sets.now.current) }
        requires ordered { IsOrdered (members sets.now.current) }
        requires limit { limit_of best < 2 ^ 32 }
        requires short { place ≤ 2 ^ 30 }
        requires visits { sets.now.visits < 2 ^ 100 }
        ensures alone { IsTrue result → (is_some best ≡ true) × ((q : ℕ) → 0 < mark (members sets.now.current) q
            → mark (members sets.now.current) q ≡ limit_of best) }
        ensures spare { IsTrue result
            → sets.now.visits + 4 * length self.now.states.items ≤ place * length self.now.states.items }
    {
        let size = self.states.len() as u128;
        best.is_some()
            && sets.current.has_only(limit(best))
            && sets.visits + 4 * size <= place as u128 * size
    }

    /// The best span from a place on, by runs of the automaton, unless the runs of one start alone are left at a place
    /// before `far`, and there are visits to spare: then the best one so far, and the place. The set at hand is that of
    /// the place `at`, where no span can have ended yet: `from`, or the next one. At most as many states were visited
    /// as there are at each place up to that one.
    pub(crate) fn find_until(
        &self,
        sets: &mut StateSets<A>,
        line: &[u8],
        from: usize,
        at: usize,
        far: usize,
    ) -> (Option<(usize, usize)>, Option<usize>)
        requires built { IsBuilt self.now }
        requires room { HaveRoom (buffers sets.old) (length self.now.states.items) }
        requires short { length line.now ≤ 2 ^ 30 }
        requires place { (from ≤ at) × (at ≤ from + 1) × (at ≤ length line.now) }
        requires alive { Alive self.now.states.items line.now self.now.start (MayBegin self.now.bounds line.now) from
            (start_bound at) at (members sets.old.current) None }
        requires visits { sets.old.visits ≤ (at + 1) * length self.now.states.items }
        ensures room { HaveRoom (buffers sets.new) (length self.now.states.items) }
        ensures best { IfNone result.1 (IsBestFrom (nfa self.now) line.now from result.0) }
        ensures left { IfSome result.1 (λ place. (place < far)
            × IsLone (nfa self.now) line.now from place (Has (members sets.new.current)) result.0) }
        ensures visits { sets.new.visits
            ≤ sets.old.visits + (length line.now - at) * length self.now.states.items }
        ensures spare { IfSome result.1 (λ place. sets.new.visits + 4 * length self.now.states.items
            ≤ place * length self.now.states.items) }
        ensures told { Tells sets.old sets.new }
    {
        let mut best = None;
        for place in at..line.len() {
            best = judge(place, self.ending(&sets.current, line, place), best);
            if best.is_some() && sets.current.is_over() {
                return (best, None);
            }
            if place < far && self.is_alone(sets, best, place) {
                return (best, Some(place));
            }
            self.advance(sets, line, place, best);
        }
        let last = judge(
            line.len(),
            self.ending(&sets.current, line, line.len()),
            best,
        );
        (last, None)
    }

    /// The best span from a place on, by runs of the automaton.
    pub(crate) fn find(
        &self,
        sets: &mut StateSets<A>,
        line: &[u8],
        from: usize,
    ) -> Option<(usize, usize)>
        requires built { IsBuilt self.now }
        requires room { HaveRoom (buffers sets.old) (length self.now.states.items) }
        requires short { length line.now ≤ 2 ^ 30 }
        requires from_in { from ≤ length line.now }
        ensures room { HaveRoom (buffers sets.new) (length self.now.states.items) }
        ensures best { IsBestFrom (nfa self.now) line.now from result }
        ensures visits { sets.new.visits ≤ (length line.now - from + 1) * length self.now.states.items }
        ensures told { added sets.new ≡ added sets.old + sets.new.visits }
    {
        sets.visits = 0;
        self.enter(sets, line, from);
        let (best, _) = self.find_until(sets, line, from, from, 0);
        best
    }
}
