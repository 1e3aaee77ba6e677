//! How a walk by the DFA cache goes past a step that isn't in it, leaves the cache and comes back to it.
ghost use Rattle.std.specs.Prelude.{◌≡◌, ◌+◌, ◌*◌, ◌<◌, ◌≤◌, ◌^◌, length};
ghost use Rattle.pg_match.specs.StateSets.{HaveRoom};
ghost use Rattle.pg_match.specs.Steps.{Has};
ghost use Rattle.pg_match.specs.Starts.{StandsUnseeded};
ghost use Rattle.pg_match.specs.Dfas.{IsDfaOf, IsCursor, Crosses, reached};
ghost use Rattle.pg_match.specs.Views.{nfa, members, buffers, dfa, Tells, IsBuilt};

use crate::automaton::Automaton;
use crate::dfa_cache::{Cache, EMPTY, LOST, STRIDE};
use crate::dfa_search::Next;
use crate::dfa_starts::Scan;
use crate::search::StateSets;
use std::alloc::Allocator;

/// Where a walk by the DFA cache stands in a line.
#[derive(Clone, Copy)]
pub(crate) struct Cursor {
    /// Hits that begin before this place are of no use.
    pub from: usize,
    /// The place whose set the row is, for runs that began at `from` or behind it.
    pub place: usize,
    /// The DFA state at the row.
    pub state: u32,
}

/// What is found at a step that stopped a walk.
#[derive(Clone, Copy)]
pub(crate) enum Crossing {
    /// Whether there is a hit.
    Found(bool),
    /// The walk goes on further on.
    At(Cursor),
}

impl<A: Allocator> Automaton<A> {
    /// Goes on without the cache from the set of a place, but for starts there. The cursor is where the cache was left.
    /// Where no run is left that began before a place, the walk comes back: row 0 stands for the empty set at the place
    /// before, and the byte there leads to what begins behind it.
    fn go_without(
        &self,
        sets: &mut StateSets<A>,
        cache: &mut Cache<A>,
        line: &[u8],
        place: usize,
        cursor: Cursor,
    ) -> Crossing
        requires built { IsBuilt self.now }
        requires room { HaveRoom (buffers sets.old) (length self.now.states.items) }
        requires cache { IsDfaOf (nfa self.now) (dfa cache.old) }
        requires short { length line.now ≤ 2 ^ 30 }
        requires later { 1 ≤ place }
        requires within { place ≤ length line.now }
        requires near { cursor.from ≤ place }
        requires stands { StandsUnseeded (nfa self.now) self.now.seeds.items line.now cursor.from place
            (Has (members sets.old.current)) }
        requires visits { sets.old.visits ≤ place * length self.now.states.items + sets.old.current.len }
        ensures room { HaveRoom (buffers sets.new) (length self.now.states.items) }
        ensures same { dfa cache.new ≡ dfa cache.old }
        ensures crossed { Crosses (nfa self.now) (dfa cache.old) line.now cursor result }
        ensures visits { sets.new.visits ≤ (reached (length line.now) result + 1) * length self.now.states.items }
        ensures told { Tells sets.old sets.new }
    {
        let (answer, here) = self.search_on(sets, line, place, cursor.place);
        cache.lose(here - place);
        match answer {
            Some(answer) => Crossing::Found(answer),
            None => Crossing::At(Cursor {
                from: here,
                place: here - 1,
                state: EMPTY,
            }),
        }
    }

    /// Leaves the cache at a step for whose set there was no room. The runs that are alive there are followed anew from
    /// the last place known before which none of them began, since a row holds the starts of its place too, which may
    /// be many. Where the visits don't allow that, the row is taken.
    fn leave(
        &self,
        sets: &mut StateSets<A>,
        cache: &mut Cache<A>,
        line: &[u8],
        cursor: Cursor,
    ) -> Crossing
        requires built { IsBuilt self.now }
        requires room { HaveRoom (buffers sets.old) (length self.now.states.items) }
        requires cache { IsDfaOf (nfa self.now) (dfa cache.old) }
        requires short { length line.now ≤ 2 ^ 30 }
        requires cursor { IsCursor (nfa self.now) (dfa cache.old) line.now cursor }
        requires visits { sets.old.visits ≤ (cursor.place + 1) * length self.now.states.items }
        ensures room { HaveRoom (buffers sets.new) (length self.now.states.items) }
        ensures same { dfa cache.new ≡ dfa cache.old }
        ensures crossed { Crosses (nfa self.now) (dfa cache.old) line.now cursor result }
        ensures visits { sets.new.visits ≤ (reached (length line.now) result + 1) * length self.now.states.items }
        ensures told { Tells sets.old sets.new }
    {
        let start = match self.scan(cache, line, cursor.from) {
            Scan::NoHit => return Crossing::Found(false),
            Scan::Known(start) | Scan::Unknown(start) => start,
        };
        if start > 0 && sets.visits <= start as u128 * self.states.len() as u128 {
            sets.current.clear();
            let begun = Cursor {
                from: start,
                place: cursor.place,
                state: cursor.state,
            };
            return self.go_without(sets, cache, line, start, begun);
        }
        cache.load((cursor.state / STRIDE) as usize, &mut sets.current);
        let byte = line[cursor.place];
        if self.hits_before(&sets.current, byte) {
            return Crossing::Found(true);
        }
        self.go_on(sets, byte, false);
        self.go_without(sets, cache, line, cursor.place + 1, cursor)
    }

    /// Goes past a step that stopped a walk before the line's last byte.
    pub(crate) fn cross(
        &self,
        sets: &mut StateSets<A>,
        cache: &mut Cache<A>,
        line: &[u8],
        cursor: Cursor,
    ) -> Crossing
        requires built { IsBuilt self.now }
        requires room { HaveRoom (buffers sets.old) (length self.now.states.items) }
        requires cache { IsDfaOf (nfa self.now) (dfa cache.old) }
        requires some { 1 ≤ cache.old.count }
        requires short { length line.now ≤ 2 ^ 30 }
        requires cursor { IsCursor (nfa self.now) (dfa cache.old) line.now cursor }
        requires more { cursor.place + 1 < length line.now }
        requires visits { sets.old.visits ≤ (cursor.place + 1) * length self.now.states.items }
        ensures room { HaveRoom (buffers sets.new) (length self.now.states.items) }
        ensures cache { IsDfaOf (nfa self.now) (dfa cache.new) }
        ensures some { 1 ≤ cache.new.count }
        ensures crossed { Crosses (nfa self.now) (dfa cache.new) line.now cursor result }
        ensures visits { sets.new.visits ≤ (reached (length line.now) result + 1) * length self.now.states.items }
        ensures told { Tells sets.old sets.new }
    {
        let byte = line[cursor.place];
        if cache.steps[cursor.state as usize + byte as usize] == LOST {
            return self.leave(sets, cache, line, cursor);
        }
        match self.learn(sets, cache, (cursor.state / STRIDE) as usize, byte) {
            Next::Hit => Crossing::Found(true),
            Next::Dead => Crossing::Found(false),
            Next::Row(state) => Crossing::At(Cursor {
                from: cursor.from,
                place: cursor.place + 1,
                state,
            }),
            Next::Lost => self.go_without(sets, cache, line, cursor.place + 1, cursor),
        }
    }
}
