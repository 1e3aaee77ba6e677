//! Where the longest span from a start ends, once the runs of no other start are left.
ghost use Rattle.std.specs.Prelude.{◌≡◌, ◌+◌, ◌-◌, ◌*◌, ◌/◌, ◌<◌, ◌≤◌, ◌^◌, length, IfSome, IsTrue};
ghost use Rattle.pg_match.specs.Anchored.{IsAnchoredDfaOf, IsLongestFrom, FollowsRun, IsAnchoredRun};
ghost use Rattle.pg_pattern.specs.Bounds.{MayBegin};
ghost use Rattle.pg_match.specs.Dfas.{In, Same};
ghost use Rattle.pg_match.specs.StateSets.{HaveRoom};
ghost use Rattle.pg_match.specs.Steps.{Has};
ghost use Rattle.pg_match.specs.Views.{nfa, members, buffers, dfa, Tells, IsBuilt};

use crate::automaton::Automaton;
use crate::dfa_anchored::LONG;
use crate::dfa_cache::{Cache, DEAD, STRIDE};
use crate::search::StateSets;
use std::alloc::Allocator;
use std::mem;

/// The runs from a start, as far as they were followed.
#[derive(Clone, Copy)]
pub(crate) struct AnchoredRun {
    /// Where they began.
    pub start: usize,
    /// The place that they have come to.
    pub place: usize,
    /// The last place up to there where one ends and may.
    pub last: usize,
}

impl<A: Allocator> Automaton<A> {
    /// Where the longest span from a start ends, by the runs in the set of a place, without the cache.
    pub(crate) fn finish_by_states(
        &self,
        sets: &mut StateSets<A>,
        line: &[u8],
        run: AnchoredRun,
    ) -> usize
        requires built { IsBuilt self.now }
        requires room { HaveRoom (buffers sets.old) (length self.now.states.items) }
        requires short { length line.now ≤ 2 ^ 30 }
        requires run { IsAnchoredRun (nfa self.now) line.now run.start run.place run.last
            (Has (members sets.old.current)) }
        requires visits { sets.old.visits < 2 ^ 98 }
        ensures room { HaveRoom (buffers sets.new) (length self.now.states.items) }
        ensures longest { IsLongestFrom (nfa self.now) line.now run.start result }
        ensures visits { sets.new.visits
            ≤ sets.old.visits + (length line.now - run.place + 1) * length self.now.states.items }
        ensures told { Tells sets.old sets.new }
    {
        let mut last = run.last;
        for place in run.place..line.len() {
            self.go_on(sets, line[place], false);
            if sets.current.len == 0 {
                return last;
            }
            if self.ending(&sets.current, line, place + 1) != 0 {
                last = place + 1;
            }
        }
        if self.hits_at_end(sets, false) {
            line.len()
        } else {
            last
        }
    }

    /// One step of the runs from a start, where the row that it leads to is known. Answers the DFA state at that row,
    /// and the runs at the next place.
    #[inline(always)]
    fn cached_step(
        &self,
        cache: &Cache<A>,
        line: &[u8],
        state: u32,
        run: AnchoredRun,
    ) -> Option<(u32, AnchoredRun)>
        requires built { IsBuilt self.now }
        requires cache { IsAnchoredDfaOf (nfa self.now) (dfa cache.now) }
        requires follows { FollowsRun (nfa self.now) (dfa cache.now) line.now run state }
        ensures start { IfSome result (λ r. r.1.start ≡ run.start) }
        ensures place { IfSome result (λ r. r.1.place ≡ run.place + 1) }
        ensures follows { IfSome result (λ r. FollowsRun (nfa self.now) (dfa cache.now) line.now r.1 r.0) }
    {
        if run.place >= line.len() {
            return None;
        }
        let next = cache.steps[state as usize + line[run.place] as usize];
        if next < STRIDE {
            return None;
        }
        let on = AnchoredRun {
            place: run.place + 1,
            ..run
        };
        if !cache.flags[(next / STRIDE) as usize] {
            return Some((next, on));
        }
        if !self.bounds.may_end(line, on.place) {
            return Some((next, on));
        }
        let ended = AnchoredRun {
            last: on.place,
            ..on
        };
        Some((next, ended))
    }

    /// Follows the runs from a start from row to row, as long as the rows are known.
    fn follow_cached(
        &self,
        cache: &Cache<A>,
        line: &[u8],
        state: u32,
        run: AnchoredRun,
    ) -> (u32, AnchoredRun)
        requires built { IsBuilt self.now }
        requires cache { IsAnchoredDfaOf (nfa self.now) (dfa cache.now) }
        requires follows { FollowsRun (nfa self.now) (dfa cache.now) line.now run state }
        ensures start { result.1.start ≡ run.start }
        ensures onward { run.place ≤ result.1.place }
        ensures follows { FollowsRun (nfa self.now) (dfa cache.now) line.now result.1 result.0 }
    {
        let mut state = state;
        let mut at = run;
        while let Some((next, then)) = self.cached_step(cache, line, state, at) {
            state = next;
            at = then;
        }
        (state, at)
    }

    /// Where the longest span from a start ends, from a row on whose next step isn't known.
    fn finish_uncached(
        &self,
        sets: &mut StateSets<A>,
        cache: &Cache<A>,
        line: &[u8],
        state: u32,
        run: AnchoredRun,
    ) -> usize
        requires built { IsBuilt self.now }
        requires room { HaveRoom (buffers sets.old) (length self.now.states.items) }
        requires cache { IsAnchoredDfaOf (nfa self.now) (dfa cache.now) }
        requires short { length line.now ≤ 2 ^ 30 }
        requires begins { MayBegin self.now.bounds line.now run.start }
        requires follows { FollowsRun (nfa self.now) (dfa cache.now) line.now run state }
        requires visits { sets.old.visits < 2 ^ 98 }
        ensures room { HaveRoom (buffers sets.new) (length self.now.states.items) }
        ensures longest { IsLongestFrom (nfa self.now) line.now run.start result }
        ensures visits { sets.new.visits
            ≤ sets.old.visits + (length line.now - run.place + 1) * length self.now.states.items }
        ensures told { Tells sets.old sets.new }
    {
        if run.place < line.len() {
            let next = cache.steps[state as usize + line[run.place] as usize];
            if next == DEAD {
                return run.last;
            }
        }
        cache.load((state / STRIDE) as usize, &mut sets.current);
        self.finish_by_states(sets, line, run)
    }

    /// Where the longest span from a start ends, from a row on. What isn't remembered is learned.
    pub(crate) fn finish_by_cache(
        &self,
        sets: &mut StateSets<A>,
        cache: &mut Cache<A>,
        line: &[u8],
        row: usize,
        run: AnchoredRun,
    ) -> usize
        requires built { IsBuilt self.now }
        requires room { HaveRoom (buffers sets.old) (length self.now.states.items) }
        requires cache { IsAnchoredDfaOf (nfa self.now) (dfa cache.old) }
        requires some { 2 ≤ cache.old.count }
        requires known { row ≤ cache.old.count }
        requires short { length line.now ≤ 2 ^ 30 }
        requires run { IsAnchoredRun (nfa self.now) line.now run.start run.place run.last
            (In (dfa cache.old) row) }
        requires visits { sets.old.visits < 2 ^ 96 }
        ensures room { HaveRoom (buffers sets.new) (length self.now.states.items) }
        ensures cache { IsAnchoredDfaOf (nfa self.now) (dfa cache.new) }
        ensures longest { IsLongestFrom (nfa self.now) line.now run.start result }
        ensures visits { sets.new.visits
            ≤ sets.old.visits + (length line.now - run.place + 2) * length self.now.states.items }
        ensures told { Tells sets.old sets.new }
    {
        let (mut state, mut at) = self.follow_cached(cache, line, STRIDE * row as u32, run);
        while at.place < line.len() {
            self.learn_alone(sets, cache, (state / STRIDE) as usize, line[at.place]);
            let Some((next, then)) = self.cached_step(cache, line, state, at) else {
                return self.finish_uncached(sets, cache, line, state, at);
            };
            let (further, there) = self.follow_cached(cache, line, next, then);
            state = further;
            at = there;
        }
        self.finish_uncached(sets, cache, line, state, at)
    }

    /// Whether the rows of starts, so many of the first two, are there or were added. Those before the last one are.
    fn has_starts(&self, sets: &mut StateSets<A>, cache: &mut Cache<A>, count: usize) -> bool
        requires built { IsBuilt self.now }
        requires room { HaveRoom (buffers sets.old) (length self.now.states.items) }
        requires cache { IsAnchoredDfaOf (nfa self.now) (dfa cache.old) }
        requires few { (count ≤ 2) × (count ≤ cache.old.count + 1) }
        requires visits { sets.old.visits < 2 ^ 98 }
        ensures room { HaveRoom (buffers sets.new) (length self.now.states.items) }
        ensures cache { IsAnchoredDfaOf (nfa self.now) (dfa cache.new) }
        ensures has { IsTrue result → count ≤ cache.new.count }
        ensures next { members sets.new.next ≡ members sets.old.next }
        ensures visits { sets.new.visits ≤ sets.old.visits + length self.now.states.items }
        ensures told { Tells sets.old sets.new }
    {
        if cache.count >= count {
            return true;
        }
        self.first_alone(sets, cache)
    }

    /// Whether the rows of both starts are there or were added.
    fn has_both(&self, sets: &mut StateSets<A>, cache: &mut Cache<A>) -> bool
        requires built { IsBuilt self.now }
        requires room { HaveRoom (buffers sets.old) (length self.now.states.items) }
        requires cache { IsAnchoredDfaOf (nfa self.now) (dfa cache.old) }
        requires visits { sets.old.visits < 2 ^ 97 }
        ensures room { HaveRoom (buffers sets.new) (length self.now.states.items) }
        ensures cache { IsAnchoredDfaOf (nfa self.now) (dfa cache.new) }
        ensures has { IsTrue result → 2 ≤ cache.new.count }
        ensures next { members sets.new.next ≡ members sets.old.next }
        ensures visits { sets.new.visits ≤ sets.old.visits + 2 * length self.now.states.items }
        ensures told { Tells sets.old sets.new }
    {
        if !self.has_starts(sets, cache, 1) {
            return false;
        }
        self.has_starts(sets, cache, 2)
    }

    /// The row of the set of a place, if there is room for it behind those of starts.
    fn row_alone(&self, sets: &mut StateSets<A>, cache: &mut Cache<A>) -> Option<usize>
        requires built { IsBuilt self.now }
        requires room { HaveRoom (buffers sets.old) (length self.now.states.items) }
        requires cache { IsAnchoredDfaOf (nfa self.now) (dfa cache.old) }
        requires visits { sets.old.visits < 2 ^ 97 }
        ensures room { HaveRoom (buffers sets.new) (length self.now.states.items) }
        ensures cache { IsAnchoredDfaOf (nfa self.now) (dfa cache.new) }
        ensures same { members sets.new.current ≡ members sets.old.current }
        ensures some { IfSome result (λ row. (2 ≤ cache.new.count) × (row ≤ cache.new.count)) }
        ensures row { IfSome result (λ row. Same (Has (members sets.old.current)) (In (dfa cache.new) row)) }
        ensures visits { sets.new.visits ≤ sets.old.visits + 2 * length self.now.states.items }
        ensures told { Tells sets.old sets.new }
    {
        mem::swap(&mut sets.current, &mut sets.next);
        let has_both = self.has_both(sets, cache);
        mem::swap(&mut sets.current, &mut sets.next);
        if !has_both {
            return None;
        }
        self.keep_alone(cache, &sets.current)
    }

    /// Where the longest span from a start ends, by the runs in the set of a place.
    pub(crate) fn finish_anchored(
        &self,
        sets: &mut StateSets<A>,
        cache: &mut Cache<A>,
        line: &[u8],
        run: AnchoredRun,
    ) -> usize
        requires built { IsBuilt self.now }
        requires room { HaveRoom (buffers sets.old) (length self.now.states.items) }
        requires cache { IsAnchoredDfaOf (nfa self.now) (dfa cache.old) }
        requires short { length line.now ≤ 2 ^ 30 }
        requires run { IsAnchoredRun (nfa self.now) line.now run.start run.place run.last
            (Has (members sets.old.current)) }
        requires visits { sets.old.visits < 2 ^ 95 }
        ensures room { HaveRoom (buffers sets.new) (length self.now.states.items) }
        ensures cache { IsAnchoredDfaOf (nfa self.now) (dfa cache.new) }
        ensures longest { IsLongestFrom (nfa self.now) line.now run.start result }
        ensures visits { sets.new.visits
            ≤ sets.old.visits + (length line.now - run.place + 4) * length self.now.states.items }
        ensures told { Tells sets.old sets.new }
    {
        match self.row_alone(sets, cache) {
            Some(row) => self.finish_by_cache(sets, cache, line, row, run),
            None => self.finish_by_states(sets, line, run),
        }
    }
}
