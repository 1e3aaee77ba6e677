//! The set of states of a place, and how the set of the next place is made from it.
ghost use Rattle.std.specs.Prelude.{◌≡◌, ◌<◌, length, IfOk};
ghost use Rattle.pg_match.specs.Automata.{IsTidy};
ghost use Rattle.pg_match.specs.StateSets.{IsGood, CountedAnew};
ghost use Rattle.pg_match.specs.Closures.{AreSeeds, HasPaths, Followed, Reached};
ghost use Rattle.pg_match.specs.Closures.{Stepped, IsClosed, IsOrdered, AllBelow};
ghost use Rattle.pg_match.specs.Views.{members};

use crate::sparse_set::StateSet;
use crate::state::State;
use std::alloc::{AllocError, Allocator};

/// Adds the states that a state leads to without reading a byte.
#[inline(always)]
fn follow<A: Allocator>(
    states: &[State],
    line: &[u8],
    place: usize,
    set: &mut StateSet<A>,
    state: u32,
    mark: u32,
)
    requires tidy { IsTidy states.now }
    requires good { IsGood (members set.old) }
    requires size { length set.old.marks.items ≡ length states.now }
    requires within { state < length states.now }
    requires some { 0 < mark }
    ensures { Followed states.now line.now place (members set.old) (members set.new) state mark }
{
    match states[state as usize] {
        State::Jump(next) => set.insert(next, mark),
        State::AtBegin(next) => {
            if place == 0 {
                set.insert(next, mark);
            }
        }
        State::AtEnd(next) => {
            if place == line.len() {
                set.insert(next, mark);
            }
        }
        State::Split(first, second) => {
            set.insert(first, mark);
            set.insert(second, mark);
        }
        State::Read(_, _) | State::Fail | State::Accept => {}
    }
}

/// Adds a state with all that it leads to without reading a byte.
#[inline(always)]
pub(crate) fn reach<A: Allocator>(
    states: &[State],
    line: &[u8],
    place: usize,
    set: &mut StateSet<A>,
    state: u32,
    mark: u32,
)
    requires tidy { IsTidy states.now }
    requires good { IsGood (members set.old) }
    requires size { length set.old.marks.items ≡ length states.now }
    requires within { state < length states.now }
    requires some { 0 < mark }
    requires closed { IsClosed states.now line.now place (members set.old) }
    requires ordered { IsOrdered (members set.old) }
    requires below { AllBelow (members set.old) mark }
    ensures reached { Reached states.now line.now place (members set.old) (members set.new) state mark }
    ensures paths { HasPaths states.now line.now place (members set.old) (members set.new) state }
{
    let mut next = set.len;
    set.insert(state, mark);
    while next < set.len {
        let from = set.order[next];
        follow(states, line, place, set, from, mark);
        next += 1;
    }
}

/// The states that a state leads to, without a byte, at each place that is neither the start nor the end of a line.
pub(crate) fn seeds<A: Allocator + Copy>(
    alloc: A,
    states: &[State],
    start: u32,
) -> Result<Vec<u32, A>, AllocError>
    requires tidy { IsTidy states.now }
    requires within { start < length states.now }
    ensures { IfOk result (λ seeds. AreSeeds states.now start seeds.items) }
{
    let mut set = StateSet::new(alloc, states.len())?;
    reach(states, &[0, 0], 1, &mut set, start, 1);
    Ok(set.into_states())
}

/// Makes the set of the place behind a byte, from the states whose mark is at most a limit.
#[inline(always)]
pub(crate) fn step<A: Allocator>(
    states: &[State],
    line: &[u8],
    place: usize,
    current: &StateSet<A>,
    next: &mut StateSet<A>,
    limit: u32,
)
    requires tidy { IsTidy states.now }
    requires good { IsGood (members current.now) }
    requires size { length current.now.marks.items ≡ length states.now }
    requires ordered { IsOrdered (members current.now) }
    requires next_good { IsGood (members next.old) }
    requires next_size { length next.old.marks.items ≡ length states.now }
    requires place { place < length line.now }
    ensures stepped { Stepped states.now line.now place (members current.now) (members next.new) limit }
    ensures counted { CountedAnew (members next.old) (members next.new) }
{
    next.clear();
    let byte = line[place];
    for k in 0..current.len {
        let state = current.order[k];
        let mark = current.marks[state as usize];
        if mark <= limit {
            if let State::Read(set, to) = &states[state as usize] {
                if set.contains(byte) {
                    reach(states, line, place + 1, next, *to, mark);
                }
            }
        }
    }
}
