//! What the DFA cache tells of the hits of a line from a place on, before any marks are set.
ghost use Rattle.std.specs.Prelude.{◌≡◌, ℕ, ◌+◌, ◌*◌, ◌/◌, ◌<◌, ◌≤◌, ◌^◌, ◌↔◌, length, IfSome, IsTrue, List};
ghost use Rattle.std.specs.Prelude.{MatchOption};
ghost use Rattle.pg_pattern.specs.Patterns.{Pattern};
ghost use Rattle.pg_pattern.specs.Hits.{HasNoNext, IsNext};
ghost use Rattle.pg_match.specs.Machines.{Agrees};
ghost use Rattle.pg_match.specs.StateSets.{HaveRoom};
ghost use Rattle.pg_match.specs.Anchored.{IsLongestFrom};
ghost use Rattle.pg_match.specs.Searches.{IsBestFrom};
ghost use Rattle.pg_match.specs.Closures.{AreSeeds};
ghost use Rattle.pg_match.specs.Steps.{EndsBehind};
ghost use Rattle.pg_match.specs.Stands.{HasRun, latest_start};
ghost use Rattle.pg_match.specs.Dfas.{IsDfaOf, IsAtRow, IsRowAt, HasScanned, Scanned};
ghost use Rattle.pg_match.specs.Views.{nfa, buffers, dfa, added, CachesDfaOf, IsBuilt};
ghost use Rattle.pg_match.specs.Views.{CachesAnchoredDfaOf, Tells};

use crate::automaton::Automaton;
use crate::dfa_cache::{Cache, EMPTY, FIRST, LOST, STRIDE};
use crate::dfa_search::Next;
use crate::search::StateSets;
use crate::state::{ACCEPT, State};
use std::alloc::Allocator;

/// What is known of the hits from a place on.
#[derive(Clone, Copy)]
pub(crate) enum Scan {
    /// There are none.
    NoHit,
    /// There is one, which may be empty, and none begins before this place.
    Known(usize),
    /// None begins before this place, and the rest isn't remembered.
    Unknown(usize),
}

/// How far a line is known by rows.
struct LineWalk {
    /// The DFA state at the row of the place.
    state: u32,
    place: usize,
    /// No hit begins from where the search began on before this place.
    start: usize,
}

impl<A: Allocator> Automaton<A> {
    /// Goes on from a row that stands at a place, four bytes at a time, as long as their rows are known and no hit ends
    /// before them.
    #[inline(always)]
    fn follow_rows(
        &self,
        cache: &Cache<A>,
        line: &[u8],
        from: usize,
        state: u32,
        place: usize,
    ) -> LineWalk
        requires built { IsBuilt self.now }
        requires cache { IsDfaOf (nfa self.now) (dfa cache.now) }
        requires scanned { HasScanned (nfa self.now) (dfa cache.now) line.now from place state from }
        ensures { HasScanned (nfa self.now) (dfa cache.now) line.now from result.place result.state result.start }
    {
        let mut at = state;
        let mut here = place;
        let mut start = from;
        while here + 4 < line.len() {
            let one = cache.steps[at as usize + line[here] as usize];
            if one < STRIDE {
                break;
            }
            let two = cache.steps[one as usize + line[here + 1] as usize];
            if two < STRIDE {
                break;
            }
            let three = cache.steps[two as usize + line[here + 2] as usize];
            if three < STRIDE {
                break;
            }
            let four = cache.steps[three as usize + line[here + 3] as usize];
            if four < STRIDE {
                break;
            }
            if cache.flags[(four / STRIDE) as usize] {
                start = here + 4;
            } else if cache.flags[(three / STRIDE) as usize] {
                start = here + 3;
            } else if cache.flags[(two / STRIDE) as usize] {
                start = here + 2;
            } else if cache.flags[(one / STRIDE) as usize] {
                start = here + 1;
            }
            at = four;
            here += 4;
        }
        LineWalk {
            state: at,
            place: here,
            start,
        }
    }

    /// The place before which no hit begins, where none begins before `start` and none ends before `place`.
    fn latest_start(&self, start: usize, place: usize) -> usize
        ensures { result ≡ latest_start self.now.reach start place }
    {
        match self.reach {
            Some(reach) => start.max(place.saturating_sub(reach)),
            None => start,
        }
    }

    /// Whether there is a hit from where a walk began on, if what is remembered of the row at which it stopped, and of
    /// the byte there, tells that.
    fn recall_stop(&self, cache: &Cache<A>, line: &[u8], state: u32, place: usize) -> Option<bool>
        requires built { IsBuilt self.now }
        requires cache { IsDfaOf (nfa self.now) (dfa cache.now) }
        requires row { IsAtRow (dfa cache.now) state }
        requires within { place < length line.now }
        ensures { IfSome result (λ answer. (from : ℕ) → from ≤ place + 1
            → IsRowAt (nfa self.now) (dfa cache.now) line.now from place state
            → IsTrue answer ↔ HasRun (nfa self.now) line.now from) }
    {
        if place + 1 < line.len() {
            self.recall_step(cache, state, line[place])
        } else {
            self.recall_end(cache, state, line[place])
        }
    }

    /// Looks for hits from a place on in a line that isn't empty, by what is remembered.
    pub(crate) fn scan(&self, cache: &Cache<A>, line: &[u8], from: usize) -> Scan
        requires built { IsBuilt self.now }
        requires cache { IsDfaOf (nfa self.now) (dfa cache.now) }
        requires bytes { 1 ≤ length line.now }
        requires from_in { from ≤ length line.now }
        ensures { Scanned (nfa self.now) line.now from result }
    {
        if cache.count == 0 {
            return Scan::Unknown(from);
        }
        let first = if from == 0 { FIRST } else { EMPTY };
        let LineWalk {
            mut state,
            mut place,
            mut start,
        } = self.follow_rows(cache, line, from, first, from.saturating_sub(1));
        while place + 1 < line.len() {
            let next = cache.steps[state as usize + line[place] as usize];
            if next < STRIDE {
                break;
            }
            state = next;
            place += 1;
            if cache.flags[(next / STRIDE) as usize] {
                start = place;
            }
        }
        let start = self.latest_start(start, place);
        match self.recall_stop(cache, line, state, place) {
            Some(false) => Scan::NoHit,
            Some(true) => Scan::Known(start),
            None => Scan::Unknown(start),
        }
    }

    /// Learns more of a line that isn't empty, from a place on, as far as the visits allow.
    fn study(&self, sets: &mut StateSets<A>, cache: &mut Cache<A>, line: &[u8], from: usize)
        requires built { IsBuilt self.now }
        requires room { HaveRoom (buffers sets.old) (length self.now.states.items) }
        requires cache { IsDfaOf (nfa self.now) (dfa cache.old) }
        requires bytes { 1 ≤ length line.now }
        requires short { length line.now ≤ 2 ^ 30 }
        requires from_in { from ≤ length line.now }
        requires visits { sets.old.visits ≤ (length line.now + 1) * length self.now.states.items }
        ensures room { HaveRoom (buffers sets.new) (length self.now.states.items) }
        ensures cache { IsDfaOf (nfa self.now) (dfa cache.new) }
        ensures visits { sets.new.visits ≤ (length line.now + 1) * length self.now.states.items }
        ensures told { Tells sets.old sets.new }
    {
        let size = self.states.len() as u128;
        let most = line.len() as u128 * size;
        if sets.visits > most {
            return;
        }
        if !self.first(sets, cache) {
            return;
        }
        let mut state = if from == 0 { FIRST } else { EMPTY };
        let mut place = from.saturating_sub(1);
        loop {
            let (at, here) = self.walk(cache, line, place, state);
            if sets.visits > most {
                return;
            }
            if here + 1 == line.len() {
                self.finish(sets, cache, at, line[here]);
                return;
            }
            if cache.steps[at as usize + line[here] as usize] == LOST {
                cache.lose(line.len() - here);
                return;
            }
            match self.learn(sets, cache, (at / STRIDE) as usize, line[here]) {
                Next::Row(next) => {
                    state = next;
                    place = here + 1;
                }
                Next::Hit | Next::Dead => return,
                Next::Lost => {
                    cache.lose(line.len() - here);
                    return;
                }
            }
        }
    }

    /// Whether some seed reads the byte, and a match ends behind it for each that does.
    fn ends_behind(&self, byte: u8) -> bool
        requires { AreSeeds self.now.states.items self.now.start self.now.seeds.items }
        ensures { IsTrue result → EndsBehind self.now.states.items self.now.seeds.items byte }
    {
        let mut some = false;
        for k in 0..self.seeds.len() {
            let state = self.seeds[k];
            if let State::Read(set, to) = &self.states[state as usize] {
                if set.contains(byte) {
                    if *to != ACCEPT {
                        return false;
                    }
                    some = true;
                }
            }
        }
        some
    }

    /// Whether the best span from a place on is found to be the byte there alone.
    fn is_one_byte(&self, line: &[u8], place: usize) -> bool
        requires built { IsBuilt self.now }
        requires place { place ≤ length line.now }
        ensures { IsTrue result → IsLongestFrom (nfa self.now) line.now place (place + 1) }
    {
        if place == 0 || place >= line.len() {
            return false;
        }
        self.bounds.may_begin(line, place)
            && self.bounds.may_end(line, place + 1)
            && self.ends_behind(line[place])
    }

    /// The best span from a place on, by what is remembered of the runs that begin at one place, where that is wanted.
    fn find_behind(
        &self,
        sets: &mut StateSets<A>,
        cache: &mut Cache<A>,
        anchored: &mut Option<Cache<A>>,
        line: &[u8],
        start: usize,
    ) -> Option<(usize, usize)>
        requires built { IsBuilt self.now }
        requires room { HaveRoom (buffers sets.old) (length self.now.states.items) }
        requires anchored { CachesAnchoredDfaOf anchored.old (nfa self.now) }
        requires short { length line.now ≤ 2 ^ 30 }
        requires start_in { start ≤ length line.now }
        ensures room { HaveRoom (buffers sets.new) (length self.now.states.items) }
        ensures same { dfa cache.new ≡ dfa cache.old }
        ensures anchored { CachesAnchoredDfaOf anchored.new (nfa self.now) }
        ensures best { IsBestFrom (nfa self.now) line.now start result }
        ensures visits { sets.new.visits ≤ (length line.now + 1) * length self.now.states.items }
        ensures told { added sets.new ≡ added sets.old + sets.new.visits }
    {
        match anchored {
            Some(anchored) => self.find_from(sets, cache, anchored, line, start),
            None => self.find(sets, line, start),
        }
    }

    /// The best span from a place on of a line that isn't empty, by runs of the automaton.
    fn find_by(
        &self,
        sets: &mut StateSets<A>,
        cache: &mut Cache<A>,
        anchored: &mut Option<Cache<A>>,
        line: &[u8],
        from: usize,
    ) -> Option<(usize, usize)>
        requires built { IsBuilt self.now }
        requires room { HaveRoom (buffers sets.old) (length self.now.states.items) }
        requires cache { IsDfaOf (nfa self.now) (dfa cache.old) }
        requires anchored { CachesAnchoredDfaOf anchored.old (nfa self.now) }
        requires bytes { 1 ≤ length line.now }
        requires short { length line.now ≤ 2 ^ 30 }
        requires from_in { from ≤ length line.now }
        ensures room { HaveRoom (buffers sets.new) (length self.now.states.items) }
        ensures cache { IsDfaOf (nfa self.now) (dfa cache.new) }
        ensures anchored { CachesAnchoredDfaOf anchored.new (nfa self.now) }
        ensures best { IsBestFrom (nfa self.now) line.now from result }
        ensures visits { sets.new.visits ≤ (length line.now + 1) * length self.now.states.items }
        ensures told { added sets.new ≡ added sets.old + sets.new.visits }
    {
        match self.scan(cache, line, from) {
            Scan::NoHit => {
                sets.visits = 0;
                None
            }
            Scan::Known(start) if self.is_one_byte(line, start) => {
                sets.visits = 0;
                Some((start, start + 1))
            }
            Scan::Known(start) => self.find_behind(sets, cache, anchored, line, start),
            Scan::Unknown(start) => {
                let best = self.find_behind(sets, cache, anchored, line, start);
                self.study(sets, cache, line, from);
                best
            }
        }
    }

    /// The hit that comes next from a place on.
    pub(crate) fn next_part(
        &self,
        sets: &mut StateSets<A>,
        cache: &mut Option<Cache<A>>,
        anchored: &mut Option<Cache<A>>,
        line: &[u8],
        from: usize,
    ) -> Option<(usize, usize)>
        requires built { IsBuilt self.now }
        requires room { HaveRoom (buffers sets.old) (length self.now.states.items) }
        requires cache { CachesDfaOf cache.old (nfa self.now) }
        requires anchored { CachesAnchoredDfaOf anchored.old (nfa self.now) }
        requires short { length line.now ≤ 2 ^ 30 }
        requires from_in { from ≤ length line.now }
        ensures room { HaveRoom (buffers sets.new) (length self.now.states.items) }
        ensures cache { CachesDfaOf cache.new (nfa self.now) }
        ensures anchored { CachesAnchoredDfaOf anchored.new (nfa self.now) }
        ensures next { (patterns : List Pattern) → Agrees (nfa self.now) patterns
            → MatchOption result (HasNoNext patterns self.now.bounds line.now from)
            (λ b. IsNext patterns self.now.bounds line.now from b.0 b.1) }
        ensures visits { sets.new.visits ≤ (length line.now + 1) * length self.now.states.items }
        ensures told { added sets.new ≡ added sets.old + sets.new.visits }
    {
        match cache {
            Some(cache) if !line.is_empty() => self.find_by(sets, cache, anchored, line, from),
            _ => self.find(sets, line, from),
        }
    }
}
