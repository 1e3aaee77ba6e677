//! The search for any match at all, which needs no marks.
ghost use Rattle.std.specs.Prelude.{◌≡◌, ℕ, ◌+◌, ◌*◌, ◌<◌, ◌≤◌, ◌^◌, ◌↔◌, length, IsTrue, IsNone, true, false};
ghost use Rattle.pg_match.specs.Automata.{IsTidy};
ghost use Rattle.pg_match.specs.StateSets.{IsGood, HaveRoom, CountedAnew};
ghost use Rattle.pg_match.specs.Steps.{Spread, Closed, Moved, Has, Goes, Starts, HitBefore, AnswersEnd, ReadsNone};
ghost use Rattle.pg_match.specs.Steps.{begins_after, ends_before};
ghost use Rattle.pg_match.specs.Stands.{HasRun};
ghost use Rattle.pg_match.specs.Starts.{WithSeeds, SeedsMoved, ByteLeads, StandsUnseeded, Searched};
ghost use Rattle.pg_match.specs.Views.{nfa, members, buffers, Tells, IsBuilt};

use crate::automaton::Automaton;
use crate::search::StateSets;
use crate::sparse_set::StateSet;
use crate::state::{ACCEPT, State};
use pg_pattern::{Bounds, is_word_byte};
use std::alloc::Allocator;
use std::mem;

/// Whether a place is the first one of its line, and whether it is the last one, where the line ends. That of an empty
/// line is both.
#[derive(Clone, Copy)]
struct LineEdges {
    first: bool,
    last: bool,
}

/// A place inside a line.
const INSIDE: LineEdges = LineEdges {
    first: false,
    last: false,
};

/// Adds the states that a state leads to without reading a byte.
#[inline(always)]
fn spread<A: Allocator>(states: &[State], set: &mut StateSet<A>, state: u32, edges: LineEdges)
    requires tidy { IsTidy states.now }
    requires good { IsGood (members set.old) }
    requires size { length set.old.marks.items ≡ length states.now }
    requires within { state < length states.now }
    ensures { Spread states.now edges.first edges.last (members set.old) (members set.new) state }
{
    let LineEdges { first, last } = edges;
    match states[state as usize] {
        State::Jump(next) => set.insert(next, 1),
        State::AtBegin(next) => {
            if first {
                set.insert(next, 1);
            }
        }
        State::AtEnd(next) => {
            if last {
                set.insert(next, 1);
            }
        }
        State::Split(one, other) => {
            set.insert(one, 1);
            set.insert(other, 1);
        }
        State::Read(_, _) | State::Fail | State::Accept => {}
    }
}

/// Adds all that the states of a set lead to without reading a byte.
fn close<A: Allocator>(states: &[State], set: &mut StateSet<A>, edges: LineEdges)
    requires tidy { IsTidy states.now }
    requires good { IsGood (members set.old) }
    requires size { length set.old.marks.items ≡ length states.now }
    ensures { Closed states.now edges.first edges.last (members set.old) (members set.new) }
{
    let mut next = 0;
    while next < set.len {
        let from = set.order[next];
        spread(states, set, from, edges);
        next += 1;
    }
}

/// Makes the set of the states that a byte leads to.
fn move_by<A: Allocator>(states: &[State], byte: u8, current: &StateSet<A>, next: &mut StateSet<A>)
    requires tidy { IsTidy states.now }
    requires good { IsGood (members current.now) }
    requires size { length current.now.marks.items ≡ length states.now }
    requires next_good { IsGood (members next.old) }
    requires next_size { length next.old.marks.items ≡ length states.now }
    ensures moved { Moved states.now byte (members current.now) (members next.new) current.now.len }
    ensures counted { CountedAnew (members next.old) (members next.new) }
{
    next.clear();
    for k in 0..current.len {
        let state = current.order[k];
        if let State::Read(set, to) = &states[state as usize] {
            if set.contains(byte) {
                next.insert(*to, 1);
            }
        }
    }
}

/// Whether a match may begin right behind a byte.
fn begins_after(bounds: Bounds, byte: u8) -> bool
    ensures { result ≡ begins_after bounds byte }
{
    match bounds {
        Bounds::Any => true,
        Bounds::Word => !is_word_byte(byte),
        Bounds::Whole => false,
    }
}

/// Whether a match may end right before a byte.
fn ends_before(bounds: Bounds, byte: u8) -> bool
    ensures { result ≡ ends_before bounds byte }
{
    match bounds {
        Bounds::Any => true,
        Bounds::Word => !is_word_byte(byte),
        Bounds::Whole => false,
    }
}

impl<A: Allocator> Automaton<A> {
    /// Makes the set of a start at a line's first place, or else inside a line, but for what needs the line's end.
    pub(crate) fn begin(&self, sets: &mut StateSets<A>, first: bool)
        requires built { IsBuilt self.now }
        requires room { HaveRoom (buffers sets.old) (length self.now.states.items) }
        requires visits { sets.old.visits < 2 ^ 100 }
        ensures room { HaveRoom (buffers sets.new) (length self.now.states.items) }
        ensures starts { Starts (nfa self.now) first (Has (members sets.new.current)) }
        ensures next { members sets.new.next ≡ members sets.old.next }
        ensures visits { sets.new.visits ≡ sets.old.visits + sets.new.current.len }
        ensures told { Tells sets.old sets.new }
    {
        sets.current.clear();
        sets.current.insert(self.start, 1);
        let edges = LineEdges { first, ..INSIDE };
        close(&self.states, &mut sets.current, edges);
        sets.visits += sets.current.len as u128;
    }

    /// Goes on to the set behind a byte, but for what needs the line's end. Answers whether no state of the old set
    /// reads the byte.
    pub(crate) fn go(&self, sets: &mut StateSets<A>, byte: u8) -> bool
        requires built { IsBuilt self.now }
        requires room { HaveRoom (buffers sets.old) (length self.now.states.items) }
        requires visits { sets.old.visits < 2 ^ 100 }
        ensures room { HaveRoom (buffers sets.new) (length self.now.states.items) }
        ensures goes { Goes (nfa self.now) byte (Has (members sets.old.current)) (Has (members sets.new.current)) }
        ensures fresh { IsTrue result → ReadsNone (nfa self.now) byte (Has (members sets.old.current)) }
        ensures visits { sets.new.visits ≡ sets.old.visits + sets.new.current.len }
        ensures told { Tells sets.old sets.new }
    {
        move_by(&self.states, byte, &sets.current, &mut sets.next);
        let is_fresh = sets.next.len == 0;
        mem::swap(&mut sets.current, &mut sets.next);
        if begins_after(self.bounds, byte) {
            sets.current.insert(self.start, 1);
        }
        close(&self.states, &mut sets.current, INSIDE);
        sets.visits += sets.current.len as u128;
        is_fresh
    }

    /// Whether a match ends right before a byte.
    pub(crate) fn hits_before(&self, set: &StateSet<A>, byte: u8) -> bool
        requires built { IsBuilt self.now }
        requires size { length set.now.marks.items ≡ length self.now.states.items }
        ensures { IsTrue result ↔ HitBefore (nfa self.now) byte (Has (members set.now)) }
    {
        ends_before(self.bounds, byte) && set.marks[ACCEPT as usize] != 0
    }

    /// Whether a match ends where the line does. The set gets what needs the line's end.
    pub(crate) fn hits_at_end(&self, sets: &mut StateSets<A>, is_empty: bool) -> bool
        requires built { IsBuilt self.now }
        requires room { HaveRoom (buffers sets.old) (length self.now.states.items) }
        requires visits { sets.old.visits < 2 ^ 100 }
        ensures room { HaveRoom (buffers sets.new) (length self.now.states.items) }
        ensures answer { AnswersEnd (nfa self.now) is_empty (Has (members sets.old.current)) result }
        ensures visits { sets.new.visits + sets.old.current.len ≡ sets.old.visits + sets.new.current.len }
        ensures told { Tells sets.old sets.new }
    {
        let before = sets.current.len;
        let edges = LineEdges {
            first: is_empty,
            last: true,
        };
        close(&self.states, &mut sets.current, edges);
        sets.visits += (sets.current.len - before) as u128;
        sets.current.marks[ACCEPT as usize] != 0
    }

    /// Adds the states that a byte leads to from the seeds.
    fn move_seeds(&self, next: &mut StateSet<A>, byte: u8)
        requires built { IsBuilt self.now }
        requires good { IsGood (members next.old) }
        requires size { length next.old.marks.items ≡ length self.now.states.items }
        ensures { SeedsMoved self.now.states.items self.now.seeds.items byte (members next.old) (members next.new) }
    {
        let (first, last) = self.starts.row(byte);
        for k in first..last {
            let target = self.starts.targets[k];
            next.insert(target, 1);
        }
    }

    /// Goes on to the set behind a byte as `go` does, but for starts behind it. Those before it are added only as far
    /// as they read the byte, and only where a match may begin there.
    pub(crate) fn go_on(&self, sets: &mut StateSets<A>, byte: u8, begins: bool)
        requires built { IsBuilt self.now }
        requires room { HaveRoom (buffers sets.old) (length self.now.states.items) }
        requires visits { sets.old.visits < 2 ^ 100 }
        ensures room { HaveRoom (buffers sets.new) (length self.now.states.items) }
        ensures goes { ByteLeads self.now.states.items self.now.seeds.items byte (IsTrue begins)
            (Has (members sets.old.current)) (Has (members sets.new.current)) }
        ensures visits { sets.new.visits ≡ sets.old.visits + sets.new.current.len }
        ensures told { Tells sets.old sets.new }
    {
        move_by(&self.states, byte, &sets.current, &mut sets.next);
        if begins {
            self.move_seeds(&mut sets.next, byte);
        }
        mem::swap(&mut sets.current, &mut sets.next);
        close(&self.states, &mut sets.current, INSIDE);
        sets.visits += sets.current.len as u128;
    }

    /// Whether a match ends right before a byte, of the runs in a set or of one that starts there, if a match may
    /// begin.
    fn hits_here(&self, set: &StateSet<A>, byte: u8, begins: bool) -> bool
        requires built { IsBuilt self.now }
        requires size { length set.now.marks.items ≡ length self.now.states.items }
        ensures { IsTrue result ↔ HitBefore (nfa self.now) byte
            (WithSeeds self.now.seeds.items (IsTrue begins) (Has (members set.now))) }
    {
        ends_before(self.bounds, byte)
            && (set.marks[ACCEPT as usize] != 0 || begins && self.starts.accepts)
    }

    /// Whether a match ends where a line does that isn't empty, of the runs in a set or of one that starts there, if a
    /// match may begin. The set gets what needs the line's end.
    fn hits_behind(&self, sets: &mut StateSets<A>, begins: bool) -> bool
        requires built { IsBuilt self.now }
        requires room { HaveRoom (buffers sets.old) (length self.now.states.items) }
        requires visits { sets.old.visits < 2 ^ 99 }
        ensures room { HaveRoom (buffers sets.new) (length self.now.states.items) }
        ensures answer { AnswersEnd (nfa self.now) false
            (WithSeeds self.now.seeds.items (IsTrue begins) (Has (members sets.old.current))) result }
        ensures visits { sets.new.visits + sets.old.current.len ≡ sets.old.visits + sets.new.current.len }
        ensures told { Tells sets.old sets.new }
    {
        if begins {
            let before = sets.current.len;
            sets.current.insert(self.start, 1);
            sets.visits += (sets.current.len - before) as u128;
        }
        self.hits_at_end(sets, false)
    }

    /// Goes on from the set of a place behind the first byte, but for starts there, without the cache. Answers
    /// whether a match ends, or nothing where no run is left, and the place that it came to. It looks whether a run is
    /// left only behind the byte at `lost`.
    pub(crate) fn search_on(
        &self,
        sets: &mut StateSets<A>,
        line: &[u8],
        from: usize,
        lost: usize,
    ) -> (Option<bool>, usize)
        requires built { IsBuilt self.now }
        requires room { HaveRoom (buffers sets.old) (length self.now.states.items) }
        requires short { length line.now ≤ 2 ^ 30 }
        requires later { 1 ≤ from }
        requires from_in { from ≤ length line.now }
        requires visits { sets.old.visits ≤ from * length self.now.states.items + sets.old.current.len }
        ensures room { HaveRoom (buffers sets.new) (length self.now.states.items) }
        ensures within { result.1 ≤ length line.now }
        ensures onward { from ≤ result.1 }
        ensures left { IsNone result.0 → (lost + 1 < result.1) × (sets.new.current.len ≡ 0) }
        ensures searched { (start : ℕ) → start ≤ from
            → StandsUnseeded (nfa self.now) self.now.seeds.items line.now start from (Has (members sets.old.current))
            → Searched (nfa self.now) self.now.seeds.items line.now start result.1 (Has (members sets.new.current))
            result.0 }
        ensures visits { sets.new.visits ≤ result.1 * length self.now.states.items + sets.new.current.len }
        ensures told { Tells sets.old sets.new }
    {
        for place in from..line.len() {
            let byte = line[place];
            let begins = self.bounds.may_begin(line, place);
            if self.hits_here(&sets.current, byte, begins) {
                return (Some(true), place);
            }
            self.go_on(sets, byte, begins);
            if place > lost && sets.current.len == 0 {
                return (None, place + 1);
            }
        }
        let begins = self.bounds.may_begin(line, line.len());
        (Some(self.hits_behind(sets, begins)), line.len())
    }

    /// Goes on from the set of a line's first place without the cache. The line isn't empty.
    pub(crate) fn search_first(&self, sets: &mut StateSets<A>, line: &[u8]) -> bool
        requires built { IsBuilt self.now }
        requires room { HaveRoom (buffers sets.old) (length self.now.states.items) }
        requires short { length line.now ≤ 2 ^ 30 }
        requires bytes { 1 ≤ length line.now }
        requires begun { Starts (nfa self.now) true (Has (members sets.old.current)) }
        requires visits { sets.old.visits ≡ sets.old.current.len }
        ensures room { HaveRoom (buffers sets.new) (length self.now.states.items) }
        ensures exact { IsTrue result ↔ HasRun (nfa self.now) line.now 0 }
        ensures visits { sets.new.visits ≤ (length line.now + 1) * length self.now.states.items }
        ensures told { Tells sets.old sets.new }
    {
        let byte = line[0];
        if self.hits_before(&sets.current, byte) {
            return true;
        }
        self.go(sets, byte);
        self.search_on(sets, line, 1, line.len()).0.unwrap()
    }

    /// Whether some span of the line is a hit, without the cache.
    pub(crate) fn search(&self, sets: &mut StateSets<A>, line: &[u8]) -> bool
        requires built { IsBuilt self.now }
        requires room { HaveRoom (buffers sets.old) (length self.now.states.items) }
        requires short { length line.now ≤ 2 ^ 30 }
        requires visits { sets.old.visits ≡ 0 }
        ensures room { HaveRoom (buffers sets.new) (length self.now.states.items) }
        ensures exact { IsTrue result ↔ HasRun (nfa self.now) line.now 0 }
        ensures visits { sets.new.visits ≤ (length line.now + 1) * length self.now.states.items }
        ensures told { Tells sets.old sets.new }
    {
        self.begin(sets, true);
        if line.is_empty() {
            return self.hits_at_end(sets, true);
        }
        self.search_first(sets, line)
    }
}
