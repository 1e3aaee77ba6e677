//! The best span from a place on, first by the runs that begin there alone.
ghost use Rattle.std.specs.Prelude.{◌≡◌, ◌+◌, ◌-◌, ◌*◌, ◌^◌, ◌<◌, ◌≤◌, length, IfNone, IfSome, None};
ghost use Rattle.pg_match.specs.Anchored.{IsAnchoredDfaOf, IsLongestFrom, IsAnchoredRun, StandsFrom, IsLastEnd};
ghost use Rattle.pg_match.specs.Anchored.{IsSecondRow, spared};
ghost use Rattle.pg_pattern.specs.Bounds.{MayBegin};
ghost use Rattle.pg_match.specs.Searches.{Alive, IsBestFrom, start_bound};
ghost use Rattle.pg_match.specs.StateSets.{HaveRoom};
ghost use Rattle.pg_match.specs.Steps.{Has};
ghost use Rattle.pg_match.specs.Views.{nfa, members, buffers, dfa, Tells, IsBuilt};

use crate::automaton::Automaton;
use crate::dfa_anchored::{LONG, StartWalk, start_row};
use crate::dfa_cache::{Cache, STRIDE};
use crate::search::StateSets;
use crate::single_start::AnchoredRun;
use std::alloc::Allocator;

impl<A: Allocator> Automaton<A> {
    /// The row of the runs that began at a line's first place, behind the line's first byte, where a search begins
    /// there and the row is known. The line goes on behind the byte.
    fn second_row(&self, cache: &Cache<A>, line: &[u8], from: usize) -> Option<usize>
        requires built { IsBuilt self.now }
        requires cache { IsAnchoredDfaOf (nfa self.now) (dfa cache.now) }
        ensures { IfSome result (IsSecondRow (nfa self.now) (dfa cache.now) line.now from) }
    {
        if from > 0 || line.len() < 2 || cache.count < 2 {
            return None;
        }
        let next = cache.steps[STRIDE as usize * start_row(0) + line[0] as usize];
        if next < STRIDE {
            return None;
        }
        Some((next / STRIDE) as usize)
    }

    /// Follows the runs from a start, where a span may begin, by states, from the set of a place on up to which none of
    /// them ended where it may, until one does. `None` where none does inside of the line, or too few of `most` visits
    /// are left to tell; not more were made before.
    fn follow_until_end(
        &self,
        sets: &mut StateSets<A>,
        line: &[u8],
        start: usize,
        place: usize,
        most: u128,
    ) -> Option<AnchoredRun>
        requires built { IsBuilt self.now }
        requires room { HaveRoom (buffers sets.old) (length self.now.states.items) }
        requires short { length line.now ≤ 2 ^ 30 }
        requires begins { MayBegin self.now.bounds line.now start }
        requires place { (start ≤ place) × (place ≤ length line.now) }
        requires stands { StandsFrom (nfa self.now) line.now start place (Has (members sets.old.current)) }
        requires none { IsLastEnd (nfa self.now) line.now start place None }
        requires visits { (sets.old.visits ≤ most) × (most < 2 ^ 97) }
        ensures room { HaveRoom (buffers sets.new) (length self.now.states.items) }
        ensures run { IfSome result (λ run. (run.start ≡ start) × (place ≤ run.place)
            × IsAnchoredRun (nfa self.now) line.now run.start run.place run.last (Has (members sets.new.current))) }
        ensures visits { IfSome result (λ run. sets.new.visits
            ≤ sets.old.visits + (run.place - place) * length self.now.states.items) }
        ensures most { sets.new.visits ≤ most }
        ensures told { Tells sets.old sets.new }
    {
        let size = self.states.len() as u128;
        for at in place..line.len() {
            if sets.visits + size > most {
                return None;
            }
            self.go_on(sets, line[at], false);
            if sets.current.len == 0 {
                return None;
            }
            if self.ending(&sets.current, line, at + 1) != 0 {
                return Some(AnchoredRun {
                    start,
                    place: at + 1,
                    last: at + 1,
                });
            }
        }
        None
    }

    /// Where the longest span from a start ends, by the runs from the set of a place: on a long line by what is
    /// remembered. `None` where no visits are to spare for that. At most as many states were visited before as there
    /// are at each byte before the place.
    fn finish_first(
        &self,
        sets: &mut StateSets<A>,
        cache: &mut Cache<A>,
        line: &[u8],
        run: AnchoredRun,
    ) -> Option<usize>
        requires built { IsBuilt self.now }
        requires room { HaveRoom (buffers sets.old) (length self.now.states.items) }
        requires cache { IsAnchoredDfaOf (nfa self.now) (dfa cache.old) }
        requires short { length line.now ≤ 2 ^ 30 }
        requires run { IsAnchoredRun (nfa self.now) line.now run.start run.place run.last
            (Has (members sets.old.current)) }
        requires visits { sets.old.visits ≤ run.place * length self.now.states.items }
        ensures room { HaveRoom (buffers sets.new) (length self.now.states.items) }
        ensures cache { IsAnchoredDfaOf (nfa self.now) (dfa cache.new) }
        ensures longest { IfSome result (IsLongestFrom (nfa self.now) line.now run.start) }
        ensures visits { IfSome result
            (λ _. sets.new.visits ≤ (length line.now + 1) * length self.now.states.items) }
        ensures none { IfNone result ((sets.new.visits ≡ sets.old.visits)
            × (dfa cache.new ≡ dfa cache.old)) }
        ensures told { Tells sets.old sets.new }
    {
        let size = self.states.len() as u128;
        if line.len() - run.place < LONG {
            return Some(self.finish_by_states(sets, line, run));
        }
        if sets.visits + 4 * size > run.place as u128 * size {
            return None;
        }
        Some(self.finish_anchored(sets, cache, line, run))
    }

    /// Where the longest span from a start ends, by the runs that begin there alone: by what is remembered of them, and
    /// behind that by states. `None` where too little is remembered, none of the runs ends where it may, or that can't
    /// be told by as many visits a state as bytes stand before the start, and one, or two at a line's first place. At
    /// most as many states were visited before as there are at each byte before the start.
    fn find_first(
        &self,
        sets: &mut StateSets<A>,
        cache: &mut Cache<A>,
        line: &[u8],
        start: usize,
    ) -> Option<usize>
        requires built { IsBuilt self.now }
        requires room { HaveRoom (buffers sets.old) (length self.now.states.items) }
        requires cache { IsAnchoredDfaOf (nfa self.now) (dfa cache.old) }
        requires short { length line.now ≤ 2 ^ 30 }
        requires start_in { start ≤ length line.now }
        requires visits { sets.old.visits ≤ start * length self.now.states.items }
        ensures room { HaveRoom (buffers sets.new) (length self.now.states.items) }
        ensures cache { IsAnchoredDfaOf (nfa self.now) (dfa cache.new) }
        ensures same { IfNone result (dfa cache.new ≡ dfa cache.old) }
        ensures longest { IfSome result (IsLongestFrom (nfa self.now) line.now start) }
        ensures visits { IfSome result
            (λ _. sets.new.visits ≤ (length line.now + 1) * length self.now.states.items) }
        ensures spared { IfNone result (sets.new.visits ≤ spared start * length self.now.states.items) }
        ensures told { Tells sets.old sets.new }
    {
        if start >= line.len() || cache.count < 2 {
            return None;
        }
        if !self.bounds.may_begin(line, start) {
            return None;
        }
        let StartWalk { state, place, last } = self.follow_start(cache, line, start);
        if let Some(last) = last {
            let run = AnchoredRun { start, place, last };
            return Some(self.finish_by_cache(sets, cache, line, (state / STRIDE) as usize, run));
        }
        cache.load((state / STRIDE) as usize, &mut sets.current);
        let most = (start.max(1) as u128 + 1) * self.states.len() as u128;
        let run = self.follow_until_end(sets, line, start, place, most)?;
        self.finish_first(sets, cache, line, run)
    }

    /// Begins a search at a place, and answers whose place the set is: the place's own, or that behind a line's first
    /// byte where its row is known, as `second_row` says. No more was visited than is to spare beside the search, and
    /// nothing where it begins with the set of a line's first place.
    fn enter_known(
        &self,
        sets: &mut StateSets<A>,
        cache: &Cache<A>,
        line: &[u8],
        from: usize,
        second: Option<usize>,
    ) -> usize
        requires built { IsBuilt self.now }
        requires room { HaveRoom (buffers sets.old) (length self.now.states.items) }
        requires cache { IsAnchoredDfaOf (nfa self.now) (dfa cache.now) }
        requires short { length line.now ≤ 2 ^ 30 }
        requires from_in { from ≤ length line.now }
        requires second { IfSome second (IsSecondRow (nfa self.now) (dfa cache.now) line.now from) }
        requires spared { sets.old.visits ≤ spared from * length self.now.states.items }
        requires visits { second ≡ None → from ≡ 0 → sets.old.visits ≡ 0 }
        ensures alive { Alive self.now.states.items line.now self.now.start (MayBegin self.now.bounds line.now) from
            (start_bound result) result (members sets.new.current) None }
        ensures place { (from ≤ result) × (result ≤ from + 1) × (result ≤ length line.now) }
        ensures room { HaveRoom (buffers sets.new) (length self.now.states.items) }
        ensures visits { sets.new.visits ≤ (result + 1) * length self.now.states.items }
        ensures told { Tells sets.old sets.new }
    {
        match second {
            Some(row) => {
                cache.load(row, &mut sets.current);
                1
            }
            None => {
                self.enter(sets, line, from);
                from
            }
        }
    }

    /// The best span from a place on: by the runs that begin there alone, if that takes few visits, else by those of
    /// all starts until those of one alone are left, and then by what is remembered of them, where many bytes are still
    /// to come. At most as many states were visited before as there are at each byte before the place.
    pub(crate) fn find_long(
        &self,
        sets: &mut StateSets<A>,
        cache: &mut Cache<A>,
        line: &[u8],
        from: usize,
    ) -> Option<(usize, usize)>
        requires built { IsBuilt self.now }
        requires room { HaveRoom (buffers sets.old) (length self.now.states.items) }
        requires cache { IsAnchoredDfaOf (nfa self.now) (dfa cache.old) }
        requires short { length line.now ≤ 2 ^ 30 }
        requires from_in { from ≤ length line.now }
        requires visits { sets.old.visits ≤ from * length self.now.states.items }
        ensures room { HaveRoom (buffers sets.new) (length self.now.states.items) }
        ensures cache { IsAnchoredDfaOf (nfa self.now) (dfa cache.new) }
        ensures best { IsBestFrom (nfa self.now) line.now from result }
        ensures visits { sets.new.visits ≤ (length line.now + 1) * length self.now.states.items }
        ensures told { Tells sets.old sets.new }
    {
        let second = self.second_row(cache, line, from);
        if from > 0 || second.is_some() {
            if let Some(end) = self.find_first(sets, cache, line, from) {
                return Some((from, end));
            }
        }
        let at = self.enter_known(sets, cache, line, from, second);
        let far = line.len().saturating_sub(LONG);
        let (best, left) = self.find_until(sets, line, from, at, far);
        let Some(place) = left else {
            return best;
        };
        let (start, last) = best?;
        let run = AnchoredRun { start, place, last };
        Some((start, self.finish_anchored(sets, cache, line, run)))
    }
}
