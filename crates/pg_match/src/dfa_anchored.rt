//! The longest match from a known start, by the DFA cache of the runs that begin there.
ghost use Rattle.std.specs.Prelude.{◌≡◌, ◌+◌, ◌*◌, ◌<◌, ◌≤◌, ◌^◌, length, IfSome, IsTrue};
ghost use Rattle.pg_match.specs.Anchored.{IsAnchoredDfaOf, start_row, NothingBefore, TellsKnownSpan, known_span_of};
ghost use Rattle.pg_match.specs.Anchored.{Follows, IsLongestFrom};
ghost use Rattle.pg_match.specs.Dfas.{In, IsAtRow, KeepsRows, Same};
ghost use Rattle.pg_match.specs.Searches.{IsBestFrom};
ghost use Rattle.pg_match.specs.StateSets.{IsGood, HaveRoom};
ghost use Rattle.pg_match.specs.Steps.{Has};
ghost use Rattle.pg_match.specs.Views.{nfa, members, buffers, dfa, added, Tells, IsBuilt};

use crate::automaton::Automaton;
use crate::dfa_cache::{Cache, DEAD, LOST, SETS, STRIDE, UNKNOWN};
use crate::search::StateSets;
use crate::sparse_set::StateSet;
use crate::state::ACCEPT;
use std::alloc::Allocator;

/// What one try of a start may cost on average, in steps of the cache for each start that is passed.
const TRY: usize = 64;

/// What all tries may cost beyond that.
const TRIES: usize = 1_024;

/// At so many places more is remembered of the runs that begin there, behind one search that the cache couldn't answer.
/// On long lines such a search takes long, so that more is remembered than what it needed.
const PLACES: usize = 32;

/// Where so many bytes stand behind a place, a search from there learns: before it begins, as far as the bytes before
/// the place pay for it, and once the runs of one start alone are left.
pub(crate) const LONG: usize = 4_096;

/// What the cache tells of the spans that begin at a place and have a byte.
#[derive(Clone, Copy)]
pub(crate) enum KnownSpan {
    /// The longest one ends here.
    Longest(usize),
    /// There is none, as was found out at this place.
    Nothing(usize),
    /// That isn't remembered.
    Unknown,
}

/// How far the runs that begin at a place are known by rows.
pub(crate) struct StartWalk {
    /// The DFA state at the row of the place.
    pub state: u32,
    /// The place that was come to.
    pub place: usize,
    /// Where the last of the spans that end up to there ends, if one does.
    pub last: Option<usize>,
}

/// The row of the set of a start at a place.
pub(crate) fn start_row(start: usize) -> usize
    ensures { result ≡ start_row start }
{
    if start == 0 { 2 } else { 1 }
}

/// The end of the last span that was found, or that none was, as is known at a place.
fn outcome_at(last: Option<usize>, place: usize) -> KnownSpan
    ensures { result ≡ known_span_of last place }
{
    match last {
        Some(end) => KnownSpan::Longest(end),
        None => KnownSpan::Nothing(place),
    }
}

impl<A: Allocator> Automaton<A> {
    /// Follows the runs that begin at a place by what is remembered of them, as far as that goes. The place is before
    /// the line's end, and the row of the start is known.
    #[inline(always)]
    pub(crate) fn follow_start(&self, cache: &Cache<A>, line: &[u8], start: usize) -> StartWalk
        requires built { IsBuilt self.now }
        requires cache { IsAnchoredDfaOf (nfa self.now) (dfa cache.now) }
        requires start_in { start < length line.now }
        requires known { start_row start ≤ cache.now.count }
        ensures { Follows (nfa self.now) (dfa cache.now) line.now start result.place result.state result.last }
    {
        let mut state = STRIDE * start_row(start) as u32;
        let mut place = start;
        let mut last = None;
        while place < line.len() {
            let next = cache.steps[state as usize + line[place] as usize];
            if next < STRIDE {
                break;
            }
            state = next;
            place += 1;
            if cache.flags[(next / STRIDE) as usize] && self.bounds.may_end(line, place) {
                last = Some(place);
            }
        }
        StartWalk { state, place, last }
    }

    /// What is remembered of the spans that begin at a place.
    pub(crate) fn longest(&self, cache: &Cache<A>, line: &[u8], start: usize) -> KnownSpan
        requires built { IsBuilt self.now }
        requires cache { IsAnchoredDfaOf (nfa self.now) (dfa cache.now) }
        requires start_in { start ≤ length line.now }
        ensures { TellsKnownSpan (nfa self.now) line.now start result }
    {
        if start >= line.len() || start_row(start) > cache.count {
            return KnownSpan::Unknown;
        }
        if !self.bounds.may_begin(line, start) {
            return KnownSpan::Nothing(start);
        }
        let StartWalk { state, place, last } = self.follow_start(cache, line, start);
        if place < line.len() {
            let next = cache.steps[state as usize + line[place] as usize];
            return if next == DEAD {
                outcome_at(last, place)
            } else {
                KnownSpan::Unknown
            };
        }
        match cache.ends[(state / STRIDE) as usize] {
            Some(is_end) => if is_end {
                KnownSpan::Longest(place)
            } else {
                outcome_at(last, place)
            },
            None => KnownSpan::Unknown,
        }
    }

    /// Tries one place after another from a start on, as far as it is remembered of the spans that begin there, and as
    /// long as that costs little for each. Answers the place that it comes to, and where the longest span from there
    /// ends, if one begins there.
    fn try_starts(&self, cache: &Cache<A>, line: &[u8], start: usize) -> (usize, Option<usize>)
        requires built { IsBuilt self.now }
        requires cache { IsAnchoredDfaOf (nfa self.now) (dfa cache.now) }
        requires start_in { start ≤ length line.now }
        ensures onward { (start ≤ result.0) × (result.0 ≤ length line.now) }
        ensures nothing { NothingBefore (nfa self.now) line.now start result.0 }
        ensures best { IfSome result.1 (λ end. IsLongestFrom (nfa self.now) line.now result.0 end) }
    {
        let mut place = start;
        let mut left = TRIES;
        while place < line.len() {
            match self.longest(cache, line, place) {
                KnownSpan::Longest(end) => return (place, Some(end)),
                KnownSpan::Unknown => return (place, None),
                KnownSpan::Nothing(known) => {
                    let steps = known.saturating_sub(place);
                    if steps > left {
                        return (place, None);
                    }
                    left = (left - steps).saturating_add(TRY);
                    place += 1;
                }
            }
        }
        (place, None)
    }

    /// The row of a set, if it is there or there is room for it.
    pub(crate) fn keep_alone(&self, cache: &mut Cache<A>, set: &StateSet<A>) -> Option<usize>
        requires built { IsBuilt self.now }
        requires cache { IsAnchoredDfaOf (nfa self.now) (dfa cache.old) }
        requires good { IsGood (members set.now) }
        requires size { length set.now.marks.items ≡ length self.now.states.items }
        requires some { 2 ≤ cache.old.count }
        ensures cache { IsAnchoredDfaOf (nfa self.now) (dfa cache.new) }
        ensures keeps { KeepsRows (dfa cache.old) (dfa cache.new) }
        ensures known { IfSome result (λ row. (1 ≤ row) × (row ≤ cache.new.count)) }
        ensures same { IfSome result (λ row. Same (Has (members set.now)) (In (dfa cache.new) row)) }
    {
        let accepts = set.marks[ACCEPT as usize] != 0;
        if let Some(row) = cache.find(set, accepts) {
            return Some(row);
        }
        if cache.add(set, accepts) {
            Some(cache.count)
        } else {
            None
        }
    }

    /// The row that a byte leads to from a row, if it is known or there is room to remember it.
    pub(crate) fn learn_alone(
        &self,
        sets: &mut StateSets<A>,
        cache: &mut Cache<A>,
        row: usize,
        byte: u8,
    ) -> Option<usize>
        requires built { IsBuilt self.now }
        requires room { HaveRoom (buffers sets.old) (length self.now.states.items) }
        requires cache { IsAnchoredDfaOf (nfa self.now) (dfa cache.old) }
        requires known { row ≤ cache.old.count }
        requires some { 2 ≤ cache.old.count }
        requires visits { sets.old.visits < 2 ^ 99 }
        ensures room { HaveRoom (buffers sets.new) (length self.now.states.items) }
        ensures cache { IsAnchoredDfaOf (nfa self.now) (dfa cache.new) }
        ensures keeps { KeepsRows (dfa cache.old) (dfa cache.new) }
        ensures some { 2 ≤ cache.new.count }
        ensures known { IfSome result (λ next. next ≤ cache.new.count) }
        ensures visits { sets.new.visits ≤ sets.old.visits + length self.now.states.items }
        ensures told { Tells sets.old sets.new }
    {
        let step = cache.steps[STRIDE as usize * row + byte as usize];
        if step >= STRIDE {
            return Some((step / STRIDE) as usize);
        }
        if step != UNKNOWN {
            return None;
        }
        cache.load(row, &mut sets.current);
        self.go_on(sets, byte, false);
        if sets.current.len == 0 {
            cache.mark(row, byte, DEAD);
            return None;
        }
        let Some(to) = self.keep_alone(cache, &sets.current) else {
            cache.mark(row, byte, LOST);
            return None;
        };
        cache.mark(row, byte, STRIDE * to as u32);
        Some(to)
    }

    /// Learns whether a match ends where a line does, at a row.
    fn learn_end(&self, sets: &mut StateSets<A>, cache: &mut Cache<A>, row: usize)
        requires built { IsBuilt self.now }
        requires room { HaveRoom (buffers sets.old) (length self.now.states.items) }
        requires cache { IsAnchoredDfaOf (nfa self.now) (dfa cache.old) }
        requires known { row ≤ cache.old.count }
        requires visits { sets.old.visits < 2 ^ 98 }
        ensures room { HaveRoom (buffers sets.new) (length self.now.states.items) }
        ensures cache { IsAnchoredDfaOf (nfa self.now) (dfa cache.new) }
        ensures visits { sets.new.visits ≤ sets.old.visits + length self.now.states.items }
        ensures told { Tells sets.old sets.new }
    {
        if cache.ends[row].is_some() {
            return;
        }
        cache.load(row, &mut sets.current);
        let answer = self.hits_at_end(sets, false);
        cache.mark_end(row, answer);
    }

    /// Adds the next of the first two rows, those of a start, if there is room.
    pub(crate) fn first_alone(&self, sets: &mut StateSets<A>, cache: &mut Cache<A>) -> bool
        requires built { IsBuilt self.now }
        requires room { HaveRoom (buffers sets.old) (length self.now.states.items) }
        requires cache { IsAnchoredDfaOf (nfa self.now) (dfa cache.old) }
        requires few { cache.old.count < 2 }
        requires visits { sets.old.visits < 2 ^ 98 }
        ensures room { HaveRoom (buffers sets.new) (length self.now.states.items) }
        ensures cache { IsAnchoredDfaOf (nfa self.now) (dfa cache.new) }
        ensures more { IsTrue result → cache.old.count < cache.new.count }
        ensures next { members sets.new.next ≡ members sets.old.next }
        ensures visits { sets.new.visits ≤ sets.old.visits + length self.now.states.items }
        ensures told { Tells sets.old sets.new }
    {
        self.begin(sets, cache.count == 1);
        let accepts = sets.current.marks[ACCEPT as usize] != 0;
        cache.add(&sets.current, accepts)
    }

    /// Goes on from a row at a place as long as the rows are known and the line has bytes there. Answers the DFA state
    /// at the row that it comes to, and the place.
    fn walk_alone(&self, cache: &Cache<A>, line: &[u8], state: u32, place: usize) -> (u32, usize)
        requires cache { IsAnchoredDfaOf (nfa self.now) (dfa cache.now) }
        requires row { IsAtRow (dfa cache.now) state }
        ensures row { IsAtRow (dfa cache.now) result.0 }
        ensures onward { place ≤ result.1 }
    {
        let mut at = state;
        let mut here = place;
        while here < line.len() {
            let next = cache.steps[at as usize + line[here] as usize];
            if next < STRIDE {
                break;
            }
            at = next;
            here += 1;
        }
        (at, here)
    }

    /// Learns more of the runs that begin at a place of a line, as long as there were at most `limit` visits a state;
    /// nothing where the place is behind the line's end.
    fn study_from(
        &self,
        sets: &mut StateSets<A>,
        cache: &mut Cache<A>,
        line: &[u8],
        start: usize,
        limit: usize,
    )
        requires built { IsBuilt self.now }
        requires room { HaveRoom (buffers sets.old) (length self.now.states.items) }
        requires cache { IsAnchoredDfaOf (nfa self.now) (dfa cache.old) }
        requires short { limit ≤ 2 ^ 30 }
        requires visits { sets.old.visits ≤ (limit + 1) * length self.now.states.items }
        ensures room { HaveRoom (buffers sets.new) (length self.now.states.items) }
        ensures cache { IsAnchoredDfaOf (nfa self.now) (dfa cache.new) }
        ensures visits { sets.new.visits ≤ (limit + 1) * length self.now.states.items }
        ensures told { Tells sets.old sets.new }
    {
        let size = self.states.len() as u128;
        let most = limit as u128 * size;
        while cache.count < 2 {
            if sets.visits > most {
                return;
            }
            if !self.first_alone(sets, cache) {
                return;
            }
        }
        let first = STRIDE * start_row(start) as u32;
        let (mut state, mut place) = self.walk_alone(cache, line, first, start);
        while place < line.len() {
            if sets.visits > most {
                return;
            }
            match self.learn_alone(sets, cache, (state / STRIDE) as usize, line[place]) {
                Some(next) => {
                    let (at, here) = self.walk_alone(cache, line, STRIDE * next as u32, place + 1);
                    state = at;
                    place = here;
                }
                None => return,
            }
        }
        if sets.visits <= most {
            self.learn_end(sets, cache, (state / STRIDE) as usize);
        }
    }

    /// Learns more of the runs that begin at a place, and at the next places of which too little is remembered, as long
    /// as there were at most `limit` visits a state, and at `places` places at most. Answers true only where the best
    /// span from there on is remembered now.
    fn study_starts(
        &self,
        sets: &mut StateSets<A>,
        cache: &mut Cache<A>,
        line: &[u8],
        start: usize,
        places: usize,
        limit: usize,
    ) -> bool
        requires built { IsBuilt self.now }
        requires room { HaveRoom (buffers sets.old) (length self.now.states.items) }
        requires cache { IsAnchoredDfaOf (nfa self.now) (dfa cache.old) }
        requires short { limit ≤ 2 ^ 30 }
        requires start_in { start ≤ length line.now }
        requires visits { sets.old.visits ≤ (limit + 1) * length self.now.states.items }
        ensures room { HaveRoom (buffers sets.new) (length self.now.states.items) }
        ensures cache { IsAnchoredDfaOf (nfa self.now) (dfa cache.new) }
        ensures visits { sets.new.visits ≤ (limit + 1) * length self.now.states.items }
        ensures told { Tells sets.old sets.new }
    {
        let mut place = start;
        for _round in 0..places {
            self.study_from(sets, cache, line, place, limit);
            let (next, end) = self.try_starts(cache, line, place);
            if end.is_some() {
                return true;
            }
            if next == place {
                return false;
            }
            place = next;
        }
        false
    }

    /// Learns more of the runs that begin at a place and behind it, and of those that begin where the best span does.
    fn study_both(
        &self,
        sets: &mut StateSets<A>,
        cache: &mut Cache<A>,
        line: &[u8],
        place: usize,
        best: Option<(usize, usize)>,
    )
        requires built { IsBuilt self.now }
        requires room { HaveRoom (buffers sets.old) (length self.now.states.items) }
        requires cache { IsAnchoredDfaOf (nfa self.now) (dfa cache.old) }
        requires short { length line.now ≤ 2 ^ 30 }
        requires place_in { place ≤ length line.now }
        requires visits { sets.old.visits ≤ (length line.now + 1) * length self.now.states.items }
        ensures room { HaveRoom (buffers sets.new) (length self.now.states.items) }
        ensures cache { IsAnchoredDfaOf (nfa self.now) (dfa cache.new) }
        ensures visits { sets.new.visits ≤ (length line.now + 1) * length self.now.states.items }
        ensures told { Tells sets.old sets.new }
    {
        let is_known = self.study_starts(sets, cache, line, place, PLACES, line.len());
        match best {
            Some((first, _)) if !is_known => self.study_from(sets, cache, line, first, line.len()),
            _ => {}
        }
    }

    /// Before a search from a place with many bytes behind it, learns of the runs that begin there and behind it, as
    /// long as there were at most as many visits a state as bytes stand before the place, where the search makes none.
    /// Answers as `try_starts` does.
    fn study_before(
        &self,
        sets: &mut StateSets<A>,
        cache: &mut Cache<A>,
        line: &[u8],
        start: usize,
    ) -> (usize, Option<usize>)
        requires built { IsBuilt self.now }
        requires room { HaveRoom (buffers sets.old) (length self.now.states.items) }
        requires cache { IsAnchoredDfaOf (nfa self.now) (dfa cache.old) }
        requires short { length line.now ≤ 2 ^ 30 }
        requires start_in { start ≤ length line.now }
        ensures room { HaveRoom (buffers sets.new) (length self.now.states.items) }
        ensures cache { IsAnchoredDfaOf (nfa self.now) (dfa cache.new) }
        ensures onward { (start ≤ result.0) × (result.0 ≤ length line.now) }
        ensures nothing { NothingBefore (nfa self.now) line.now start result.0 }
        ensures best { IfSome result.1 (λ end. IsLongestFrom (nfa self.now) line.now result.0 end) }
        ensures visits { sets.new.visits ≤ result.0 * length self.now.states.items }
        ensures told { added sets.new ≡ added sets.old + sets.new.visits }
    {
        sets.visits = 0;
        if start == 0 || line.len() - start < LONG {
            return (start, None);
        }
        self.study_starts(sets, cache, line, start, line.len(), start - 1);
        self.try_starts(cache, line, start)
    }

    /// The best span from a place on, by what is remembered of the runs that begin there and behind it, or else by runs
    /// of the automaton; then more is remembered, in a share of the room that both caches have. From a line's end there
    /// is none, and all visits are left to learn of the runs that begin where the line does.
    pub(crate) fn find_from(
        &self,
        sets: &mut StateSets<A>,
        cache: &mut Cache<A>,
        anchored: &mut Cache<A>,
        line: &[u8],
        start: usize,
    ) -> Option<(usize, usize)>
        requires built { IsBuilt self.now }
        requires room { HaveRoom (buffers sets.old) (length self.now.states.items) }
        requires anchored { IsAnchoredDfaOf (nfa self.now) (dfa anchored.old) }
        requires short { length line.now ≤ 2 ^ 30 }
        requires start_in { start ≤ length line.now }
        ensures room { HaveRoom (buffers sets.new) (length self.now.states.items) }
        ensures same { dfa cache.new ≡ dfa cache.old }
        ensures anchored { IsAnchoredDfaOf (nfa self.now) (dfa anchored.new) }
        ensures best { IsBestFrom (nfa self.now) line.now start result }
        ensures visits { sets.new.visits ≤ (length line.now + 1) * length self.now.states.items }
        ensures told { added sets.new ≡ added sets.old + sets.new.visits }
    {
        if start == line.len() {
            sets.visits = 0;
            anchored.leave_room(cache.count.max(SETS / 2));
            self.study_from(sets, anchored, line, 0, line.len());
            cache.leave_room(anchored.count);
            return None;
        }
        let (known, end) = self.try_starts(anchored, line, start);
        if let Some(end) = end {
            sets.visits = 0;
            return Some((known, end));
        }
        anchored.leave_room(cache.count.max(SETS / 2));
        let (place, found) = self.study_before(sets, anchored, line, known);
        cache.leave_room(anchored.count);
        if let Some(end) = found {
            return Some((place, end));
        }
        let best = self.find_long(sets, anchored, line, place);
        self.study_both(sets, anchored, line, place, best);
        cache.leave_room(anchored.count);
        best
    }
}
