//! The search for any match at all, by the DFA cache.
ghost use Rattle.std.specs.Prelude.{◌≡◌, ℕ, ◌+◌, ◌*◌, ◌/◌, ◌<◌, ◌≤◌, ◌^◌, ◌↔◌, ◌⊎◌};
ghost use Rattle.std.specs.Prelude.{length, IsTrue, IfSome, List, true, false, slice_get};
ghost use Rattle.pg_pattern.specs.Patterns.{Pattern};
ghost use Rattle.pg_pattern.specs.Hits.{HasHit};
ghost use Rattle.pg_match.specs.Machines.{Agrees};
ghost use Rattle.pg_pattern.specs.declared.bounds.Bounds.TheVariants.{Whole};
ghost use Rattle.pg_match.specs.StateSets.{IsGood, HaveRoom};
ghost use Rattle.pg_match.specs.Stands.{HasRun};
ghost use Rattle.pg_match.specs.Steps.{Has, Starts, IsQuiet, IsSpent};
ghost use Rattle.pg_match.specs.Dfas.{IsDfaOf, In, flag_at, Same, KeepsRows, IsAtRow, IsRowAt};
ghost use Rattle.pg_match.specs.Dfas.{Learned, Finishes, Settles};
ghost use Rattle.pg_match.specs.Views.{nfa, members, buffers, dfa, added, CachesDfaOf, Tells, IsBuilt};

use crate::automaton::Automaton;
use crate::dfa_cache::{Cache, DEAD, FIRST, HIT, LOST, STRIDE};
use crate::dfa_cursor::{Crossing, Cursor};
use crate::search::StateSets;
use crate::sparse_set::StateSet;
use crate::state::State;
use pg_pattern::Bounds;
use std::alloc::Allocator;

/// What a byte does to a set in the cache.
#[derive(Clone, Copy)]
pub(crate) enum Next {
    /// A match ends before it.
    Hit,
    /// It leads to the row of this DFA state.
    Row(u32),
    /// It leads to a set for which there is no room.
    Lost,
    /// No match ends before it or anywhere behind it.
    Dead,
}

/// Whether a state is where a match ends, reads a byte, or goes on where the line ends.
fn is_alive(states: &[State], state: u32) -> bool
    requires { state < length states.now }
    ensures { result ≡ false → IsQuiet (slice_get states.now state) }
{
    match states[state as usize] {
        State::Accept | State::Read(_, _) | State::AtEnd(_) => true,
        State::Fail | State::Jump(_) | State::AtBegin(_) | State::Split(_, _) => false,
    }
}

/// Whether no state of a set is alive.
fn are_quiet<A: Allocator>(states: &[State], set: &StateSet<A>) -> bool
    requires good { IsGood (members set.now) }
    requires size { length set.now.marks.items ≡ length states.now }
    ensures { IsTrue result → (q : ℕ) → Has (members set.now) q → IsQuiet (slice_get states.now q) }
{
    for k in 0..set.len {
        if is_alive(states, set.order[k]) {
            return false;
        }
    }
    true
}

impl<A: Allocator> Automaton<A> {
    /// Whether runs that begin further right do so in a set, or not at all.
    fn begins_in(&self, set: &StateSet<A>) -> bool
        requires built { IsBuilt self.now }
        requires size { length set.now.marks.items ≡ length self.now.states.items }
        ensures { IsTrue result → Has (members set.now) self.now.start ⊎ (self.now.bounds ≡ Whole) }
    {
        match self.bounds {
            Bounds::Whole => true,
            Bounds::Any | Bounds::Word => set.marks[self.start as usize] != 0,
        }
    }

    /// Whether no match ends at a place inside a line whose set this is, or anywhere behind it, as far as the states
    /// tell.
    fn is_dead(&self, set: &StateSet<A>) -> bool
        requires built { IsBuilt self.now }
        requires good { IsGood (members set.now) }
        requires size { length set.now.marks.items ≡ length self.now.states.items }
        ensures { IsTrue result → IsSpent (nfa self.now) (Has (members set.now)) }
    {
        self.begins_in(set) && are_quiet(&self.states, set)
    }

    /// The row of a set, fresh or not, if it is there or there is room for it.
    fn keep(&self, cache: &mut Cache<A>, set: &StateSet<A>, is_fresh: bool) -> Option<usize>
        requires cache { IsDfaOf (nfa self.now) (dfa cache.old) }
        requires good { IsGood (members set.now) }
        requires size { length set.now.marks.items ≡ length self.now.states.items }
        requires some { 1 ≤ cache.old.count }
        ensures cache { IsDfaOf (nfa self.now) (dfa cache.new) }
        ensures keeps { KeepsRows (dfa cache.old) (dfa cache.new) }
        ensures known { IfSome result (λ row. (1 ≤ row) × (row ≤ cache.new.count)) }
        ensures same { IfSome result (λ row. Same (Has (members set.now)) (In (dfa cache.new) row)) }
        ensures fresh { IfSome result (λ row. flag_at (dfa cache.new) row ≡ is_fresh) }
    {
        if let Some(row) = cache.find(set, is_fresh) {
            return Some(row);
        }
        if cache.add(set, is_fresh) {
            Some(cache.count)
        } else {
            None
        }
    }

    /// Finds out where a byte leads from a row, and remembers it if there is room.
    pub(crate) fn learn(
        &self,
        sets: &mut StateSets<A>,
        cache: &mut Cache<A>,
        row: usize,
        byte: u8,
    ) -> Next
        requires built { IsBuilt self.now }
        requires room { HaveRoom (buffers sets.old) (length self.now.states.items) }
        requires cache { IsDfaOf (nfa self.now) (dfa cache.old) }
        requires known { row ≤ cache.old.count }
        requires some { 1 ≤ cache.old.count }
        requires visits { sets.old.visits < 2 ^ 99 }
        ensures room { HaveRoom (buffers sets.new) (length self.now.states.items) }
        ensures cache { IsDfaOf (nfa self.now) (dfa cache.new) }
        ensures learned { Learned (nfa self.now) (dfa cache.old) (dfa cache.new) row byte
            (members sets.new.current) result }
        ensures some { 1 ≤ cache.new.count }
        ensures visits { sets.new.visits ≤ sets.old.visits + sets.new.current.len }
        ensures told { Tells sets.old sets.new }
    {
        if cache.steps[STRIDE as usize * row + byte as usize] == HIT {
            return Next::Hit;
        }
        if cache.steps[STRIDE as usize * row + byte as usize] == DEAD {
            return Next::Dead;
        }
        cache.load(row, &mut sets.current);
        if self.hits_before(&sets.current, byte) {
            cache.mark(row, byte, HIT);
            return Next::Hit;
        }
        let is_fresh = self.go(sets, byte);
        if self.is_dead(&sets.current) {
            cache.mark(row, byte, DEAD);
            return Next::Dead;
        }
        let Some(to) = self.keep(cache, &sets.current, is_fresh) else {
            cache.mark(row, byte, LOST);
            return Next::Lost;
        };
        cache.mark(row, byte, STRIDE * to as u32);
        Next::Row(STRIDE * to as u32)
    }

    /// Walks by what is remembered, up to the line's last byte.
    #[inline(always)]
    pub(crate) fn walk(
        &self,
        cache: &Cache<A>,
        line: &[u8],
        from: usize,
        state: u32,
    ) -> (u32, usize)
        requires built { IsBuilt self.now }
        requires cache { IsDfaOf (nfa self.now) (dfa cache.now) }
        requires from_in { from < length line.now }
        requires row { IsAtRow (dfa cache.now) state }
        ensures within { result.1 < length line.now }
        ensures onward { from ≤ result.1 }
        ensures row { IsAtRow (dfa cache.now) result.0 }
        ensures stands { (start : ℕ) → start ≤ from + 1
            → IsRowAt (nfa self.now) (dfa cache.now) line.now start from state
            → IsRowAt (nfa self.now) (dfa cache.now) line.now start result.1 result.0 }
    {
        let mut at = state;
        let mut place = from;
        while place + 4 < line.len() {
            let one = cache.steps[at as usize + line[place] as usize];
            if one < STRIDE {
                break;
            }
            let two = cache.steps[one as usize + line[place + 1] as usize];
            if two < STRIDE {
                break;
            }
            let three = cache.steps[two as usize + line[place + 2] as usize];
            if three < STRIDE {
                break;
            }
            let four = cache.steps[three as usize + line[place + 3] as usize];
            if four < STRIDE {
                break;
            }
            at = four;
            place += 4;
        }
        while place + 1 < line.len() {
            let next = cache.steps[at as usize + line[place] as usize];
            if next < STRIDE {
                break;
            }
            at = next;
            place += 1;
        }
        (at, place)
    }

    /// Sees to the first row, if there is room, at the begin of a search.
    pub(crate) fn first(&self, sets: &mut StateSets<A>, cache: &mut Cache<A>) -> bool
        requires built { IsBuilt self.now }
        requires room { HaveRoom (buffers sets.old) (length self.now.states.items) }
        requires cache { IsDfaOf (nfa self.now) (dfa cache.old) }
        requires visits { sets.old.visits < 2 ^ 98 }
        ensures room { HaveRoom (buffers sets.new) (length self.now.states.items) }
        ensures cache { IsDfaOf (nfa self.now) (dfa cache.new) }
        ensures visits { sets.new.visits ≤ sets.old.visits + length self.now.states.items }
        ensures told { Tells sets.old sets.new }
        ensures some { IsTrue result → 1 ≤ cache.new.count }
        ensures full { result ≡ false → (sets.new.visits ≡ sets.old.visits + sets.new.current.len)
            × Starts (nfa self.now) true (Has (members sets.new.current)) }
    {
        cache.refresh();
        if cache.count > 0 {
            return true;
        }
        self.begin(sets, true);
        cache.add(&sets.current, true)
    }

    /// Whether a line has a hit in which a row stands before a byte, if what is remembered of the byte tells that of
    /// all such lines.
    pub(crate) fn recall_step(&self, cache: &Cache<A>, state: u32, byte: u8) -> Option<bool>
        requires built { IsBuilt self.now }
        requires cache { IsDfaOf (nfa self.now) (dfa cache.now) }
        requires row { IsAtRow (dfa cache.now) state }
        ensures { IfSome result (Settles (nfa self.now) byte (In (dfa cache.now) (state / 256))) }
    {
        match cache.steps[state as usize + byte as usize] {
            HIT => Some(true),
            DEAD => Some(false),
            _ => None,
        }
    }

    /// Whether a match ends right before or behind the last byte of a line, if that is remembered.
    pub(crate) fn recall_end(&self, cache: &Cache<A>, state: u32, byte: u8) -> Option<bool>
        requires built { IsBuilt self.now }
        requires cache { IsDfaOf (nfa self.now) (dfa cache.now) }
        requires row { IsAtRow (dfa cache.now) state }
        ensures { IfSome result (Finishes (nfa self.now) byte (In (dfa cache.now) (state / 256))) }
    {
        if let Some(answer) = self.recall_step(cache, state, byte) {
            return Some(answer);
        }
        let next = cache.steps[state as usize + byte as usize];
        if next < STRIDE {
            return None;
        }
        cache.ends[(next / STRIDE) as usize]
    }

    /// Whether a match ends right before or behind the last byte of a line.
    pub(crate) fn finish(
        &self,
        sets: &mut StateSets<A>,
        cache: &mut Cache<A>,
        state: u32,
        byte: u8,
    ) -> bool
        requires built { IsBuilt self.now }
        requires room { HaveRoom (buffers sets.old) (length self.now.states.items) }
        requires cache { IsDfaOf (nfa self.now) (dfa cache.old) }
        requires row { IsAtRow (dfa cache.old) state }
        requires some { 1 ≤ cache.old.count }
        requires visits { sets.old.visits < 2 ^ 98 }
        ensures room { HaveRoom (buffers sets.new) (length self.now.states.items) }
        ensures cache { IsDfaOf (nfa self.now) (dfa cache.new) }
        ensures finishes { Finishes (nfa self.now) byte (In (dfa cache.old) (state / 256)) result }
        ensures visits { sets.new.visits ≤ sets.old.visits + length self.now.states.items }
        ensures told { Tells sets.old sets.new }
    {
        if let Some(answer) = self.recall_end(cache, state, byte) {
            return answer;
        }
        match self.learn(sets, cache, (state / STRIDE) as usize, byte) {
            Next::Hit => true,
            Next::Row(to) => {
                let answer = self.hits_at_end(sets, false);
                cache.mark_end((to / STRIDE) as usize, answer);
                answer
            }
            Next::Lost => self.hits_at_end(sets, false),
            Next::Dead => false,
        }
    }

    /// Whether some span of a line that isn't empty is a hit, by what is remembered.
    fn recall(&self, sets: &mut StateSets<A>, cache: &mut Cache<A>, line: &[u8]) -> bool
        requires built { IsBuilt self.now }
        requires room { HaveRoom (buffers sets.old) (length self.now.states.items) }
        requires cache { IsDfaOf (nfa self.now) (dfa cache.old) }
        requires bytes { 1 ≤ length line.now }
        requires short { length line.now ≤ 2 ^ 30 }
        requires visits { sets.old.visits ≡ 0 }
        ensures room { HaveRoom (buffers sets.new) (length self.now.states.items) }
        ensures cache { IsDfaOf (nfa self.now) (dfa cache.new) }
        ensures exact { IsTrue result ↔ HasRun (nfa self.now) line.now 0 }
        ensures visits { sets.new.visits ≤ (length line.now + 1) * length self.now.states.items }
        ensures told { Tells sets.old sets.new }
    {
        if !self.first(sets, cache) {
            return self.search_first(sets, line);
        }
        let mut cursor = Cursor {
            from: 0,
            place: 0,
            state: FIRST,
        };
        loop {
            let (state, place) = self.walk(cache, line, cursor.place, cursor.state);
            if place + 1 == line.len() {
                return self.finish(sets, cache, state, line[place]);
            }
            let from = cursor.from;
            match self.cross(sets, cache, line, Cursor { from, place, state }) {
                Crossing::Found(answer) => return answer,
                Crossing::At(next) => cursor = next,
            }
        }
    }

    /// Whether some span of the line is a hit.
    pub(crate) fn selects(
        &self,
        sets: &mut StateSets<A>,
        cache: &mut Option<Cache<A>>,
        line: &[u8],
    ) -> bool
        requires built { IsBuilt self.now }
        requires room { HaveRoom (buffers sets.old) (length self.now.states.items) }
        requires cache { CachesDfaOf cache.old (nfa self.now) }
        requires short { length line.now ≤ 2 ^ 30 }
        ensures room { HaveRoom (buffers sets.new) (length self.now.states.items) }
        ensures cache { CachesDfaOf cache.new (nfa self.now) }
        ensures exact { (patterns : List Pattern) → Agrees (nfa self.now) patterns
            → (IsTrue result ↔ HasHit patterns self.now.bounds line.now) }
        ensures visits { sets.new.visits ≤ (length line.now + 1) * length self.now.states.items }
        ensures told { added sets.new ≡ added sets.old + sets.new.visits }
    {
        sets.visits = 0;
        if !self.some {
            return false;
        }
        match cache {
            Some(cache) if !line.is_empty() => self.recall(sets, cache, line),
            _ => self.search(sets, line),
        }
    }
}
