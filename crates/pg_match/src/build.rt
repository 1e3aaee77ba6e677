//! How the states of trees are made.
ghost use Rattle.std.specs.Prelude.{◌≡◌, ◌↔◌, ◌+◌, ◌*◌, ◌<◌, ◌≤◌, All, IfOk, IfSome, IsTrue, List, length, map, false};
ghost use Rattle.std.specs.Prelude.{Some, slice_get};
ghost use Rattle.pg_pattern.specs.Patterns.{Pattern, IsProper, Alt, Rep};
ghost use Rattle.pg_pattern.specs.Trees.{pattern};
ghost use Rattle.pg_pattern.specs.Lengths.{HitsEndWithin};
ghost use Rattle.pg_match.specs.Sizes.{size_of, list_size};
ghost use Rattle.pg_match.specs.Automata.{IsTidy};
ghost use Rattle.pg_match.specs.Tables.{Pushed, Added, AddedCopies, AddedOptional, HasFirst};
ghost use Rattle.pg_match.specs.Gaps.{IsHole, IsFilled, Finished, IsGap, Narrowed};
ghost use Rattle.pg_match.specs.Machines.{IsMachineOf};
ghost use Rattle.pg_match.specs.Views.{nfa, IsBuilt};

use crate::automaton::Automaton;
use crate::closure::seeds;
use crate::size::size;
use crate::starts::starts_of;
use crate::state::{ACCEPT, State};
use pg_pattern::{Bounds, Tree, hit_reach};
use std::alloc::{AllocError, Allocator};

/// A state that is to be a `Split`. It is `Fail` until the first of the states that it leads to is there.
#[derive(Clone, Copy)]
struct Hole {
    place: u32,
    /// The second of the states that it is to lead to.
    second: u32,
    /// The state where the whole tree begins.
    entry: u32,
}

/// Where the first part of a tree belongs, which is made last.
#[derive(Clone, Copy)]
struct Gap {
    /// What is to lead to the part. Without a hole the whole tree begins where the part does.
    hole: Option<Hole>,
    /// The state that the part leads on to.
    next: u32,
}

/// The automaton of trees that are not too large.
pub(crate) fn assemble<A: Allocator + Copy>(
    alloc: A,
    trees: &[Tree<A>],
    bounds: Bounds,
) -> Result<Automaton<A>, AllocError>
    requires proper { All IsProper (map pattern trees.now) }
    requires small { list_size (map pattern trees.now) ≤ 65536 }
    ensures { IfOk result (λ m. IsBuilt m × IsMachineOf (nfa m) (map pattern trees.now) bounds) }
{
    let mut states = Vec::new(alloc);
    push(&mut states, State::Accept)?;
    let mut start = 0;
    for i in 0..trees.len() {
        let entry = add(&mut states, &trees[i], ACCEPT)?;
        start = add_choice(&mut states, i, entry, start)?;
    }
    let reach = hit_reach(trees, bounds);
    automaton_of(alloc, states, start, bounds, !trees.is_empty(), reach)
}

/// Adds an alternative, which begins at `entry`, behind those that there are, so many, which begin at `start`. Answers
/// the state where all of them begin. All of the alternative's states are in the table, and lead on to the first one.
pub(crate) fn add_choice<A: Allocator>(
    states: &mut Vec<State, A>,
    before: usize,
    entry: u32,
    start: u32,
) -> Result<u32, AllocError>
    requires { 0 < before → length states.old.items < 65536 }
    ensures { (t : List State) (patterns : List Pattern) (p : Pattern) → HasFirst t patterns before start
        → Added t states.old.items p entry 0 → slice_get patterns before ≡ Some p
        → IfOk result (λ s. HasFirst states.new.items patterns (before + 1) s) }
{
    if before == 0 {
        return Ok(entry);
    }
    let choice = push(states, State::Split(entry, start))?;
    Ok(choice)
}

/// The automaton of a table that has all of some patterns, which begin at `start`. `some` tells whether there is a
/// pattern, and `reach` within how many bytes of where a hit begins one ends, if that is known.
pub(crate) fn automaton_of<A: Allocator + Copy>(
    alloc: A,
    states: Vec<State, A>,
    start: u32,
    bounds: Bounds,
    some: bool,
    reach: Option<usize>,
) -> Result<Automaton<A>, AllocError>
    requires tidy { IsTidy states.items }
    requires start { start < length states.items }
    requires few { length states.items ≤ 65536 }
    ensures { (patterns : List Pattern) → All IsProper patterns
        → HasFirst states.items patterns (length patterns) start → (IsTrue some ↔ (0 < length patterns))
        → IfSome reach (HitsEndWithin patterns bounds)
        → IfOk result (λ m. IsBuilt m × IsMachineOf (nfa m) patterns bounds) }
{
    let seeds = seeds(alloc, &states, start)?;
    let starts = starts_of(alloc, &states, &seeds)?;
    Ok(Automaton {
        states,
        start,
        seeds,
        starts,
        bounds,
        some,
        reach,
    })
}

/// Adds a state.
pub(crate) fn push<A: Allocator>(
    states: &mut Vec<State, A>,
    state: State,
) -> Result<u32, AllocError>
    requires { length states.old.items < 65536 }
    ensures { IfOk result (λ e. Pushed states.old.items states.new.items state e) }
{
    let place = states.len() as u32;
    states.push(state)?;
    Ok(place)
}

/// Makes the hole, if there is one, lead to a state, and answers the state where the whole tree begins.
fn fill<A: Allocator>(states: &mut Vec<State, A>, hole: Option<Hole>, first: u32) -> u32
    requires { IsHole 0 states.old.items hole }
    ensures { IsFilled states.old.items states.new.items hole first result }
{
    match hole {
        None => first,
        Some(hole) => {
            states[hole.place as usize] = State::Split(first, hole.second);
            hole.entry
        }
    }
}

/// Makes the hole, if there is one, lead to a state, and answers another hole.
fn open_hole<A: Allocator>(
    states: &mut Vec<State, A>,
    hole: Option<Hole>,
    first: u32,
    place: u32,
    second: u32,
) -> Hole
    requires { IsHole 0 states.old.items hole }
    ensures place { result.place ≡ place }
    ensures second { result.second ≡ second }
    ensures filled { IsFilled states.old.items states.new.items hole first result.entry }
{
    let entry = fill(states, hole, first);
    Hole {
        place,
        second,
        entry,
    }
}

/// Adds the one state that is lacking, and answers the state where the whole tree begins.
fn finish<A: Allocator>(
    states: &mut Vec<State, A>,
    hole: Option<Hole>,
    state: State,
) -> Result<u32, AllocError>
    requires room { length states.old.items < 65536 }
    requires hole_in { IsHole 0 states.old.items hole }
    ensures { IfOk result (λ e. Finished states.old.items states.new.items hole state e) }
{
    let first = push(states, state)?;
    let entry = fill(states, hole, first);
    Ok(entry)
}

/// Whether repetitions of a tree have no state. A single copy is not looked through, and counts as having some.
fn is_without_states<A: Allocator>(inner: &Tree<A>, least: u8, most: Option<u8>) -> bool
    requires { IsProper (Rep (pattern inner.now) least most) }
    ensures without { IsTrue result → size_of (Rep (pattern inner.now) least most) ≡ 0 }
    ensures single { result ≡ false → size_of (Rep (pattern inner.now) least most) ≡ 0 → most ≡ Some 1 }
    ensures some { result ≡ false → IfSome most (λ n. 0 < n) }
{
    match most {
        None => false,
        Some(0) => true,
        Some(count) => count > 1 && least == count && size(inner) == 0,
    }
}

/// Adds the states of a tree, and answers the one where it begins. They lead on to `next`.
///
/// The left spine of the tree is walked by a loop: all that stands behind its first part is made before it, and
/// what leads to that part is left as a hole. Calls are nested for second parts, which in a parsed tree are as deep
/// as its groups, and for further copies of a part, which at least double its states.
#[cycle(build)]
fn add<A: Allocator>(
    states: &mut Vec<State, A>,
    tree: &Tree<A>,
    next: u32,
) -> Result<u32, AllocError>
    requires proper { IsProper (pattern tree.now) }
    requires fits { length states.old.items + size_of (pattern tree.now) ≤ 65536 }
    requires next_in { next < length states.old.items }
    requires tidy { IsTidy states.old.items }
    ensures { IfOk result (λ e. Added states.old.items states.new.items (pattern tree.now) e next) }
{
    let mut tree = tree;
    let mut gap = Gap { hole: None, next };
    loop {
        match tree {
            Tree::Empty => return finish(states, gap.hole, State::Jump(gap.next)),
            Tree::Set(set) => return finish(states, gap.hole, State::Read(*set, gap.next)),
            Tree::Begin => return finish(states, gap.hole, State::AtBegin(gap.next)),
            Tree::End => return finish(states, gap.hole, State::AtEnd(gap.next)),
            Tree::Cat(first, second) => {
                gap.next = add(states, second, gap.next)?;
                tree = first;
            }
            Tree::Alt(first, second) => {
                gap = open_choice(states, second, gap)?;
                tree = first;
            }
            Tree::Rep(inner, least, most) => {
                if is_without_states(inner, *least, *most) {
                    let entry = fill(states, gap.hole, gap.next);
                    return Ok(entry);
                }
                gap = open_repetition(states, inner, *least, *most, gap)?;
                tree = inner;
            }
        }
    }
}

/// Adds the second of two alternatives, and answers the gap for the first.
#[cycle(build)]
fn open_choice<A: Allocator>(
    states: &mut Vec<State, A>,
    second: &Tree<A>,
    gap: Gap,
) -> Result<Gap, AllocError>
    requires proper { IsProper (pattern second.now) }
    requires fits { length states.old.items + size_of (pattern second.now) + 1 ≤ 65536 }
    requires gap_in { IsGap 0 states.old.items gap }
    ensures { IfOk result
        (λ g. (p : Pattern) → Narrowed states.old.items states.new.items gap g (Alt p (pattern second.now)) p) }
{
    let other = add(states, second, gap.next)?;
    let place = push(states, State::Fail)?;
    let hole = Some(open_hole(states, gap.hole, place, place, other));
    Ok(Gap { hole, ..gap })
}

/// Adds repetitions of a tree but for one copy, and answers the gap for it: that of the loop, the first
/// one that may be left out, or the first of all.
#[cycle(build)]
fn open_repetition<A: Allocator>(
    states: &mut Vec<State, A>,
    inner: &Tree<A>,
    least: u8,
    most: Option<u8>,
    gap: Gap,
) -> Result<Gap, AllocError>
    requires proper { IsProper (Rep (pattern inner.now) least most) }
    requires some { IfSome most (λ n. 0 < n) }
    requires fits { length states.old.items + size_of (Rep (pattern inner.now) least most) ≤ 65536 }
    requires gap_in { IsGap 0 states.old.items gap }
    ensures { IfOk result
        (λ g. Narrowed states.old.items states.new.items gap g
        (Rep (pattern inner.now) least most) (pattern inner.now)) }
{
    match most {
        None => {
            let turn = push(states, State::Fail)?;
            let copies = add_copies(states, inner, least, turn)?;
            let hole = Some(open_hole(states, gap.hole, copies, turn, gap.next));
            Ok(Gap { hole, next: turn })
        }
        Some(most) if least < most => {
            let others = add_optional(states, inner, most - least - 1, gap.next)?;
            let place = push(states, State::Fail)?;
            let copies = add_copies(states, inner, least, place)?;
            let hole = Some(open_hole(states, gap.hole, copies, place, gap.next));
            Ok(Gap { hole, next: others })
        }
        Some(count) => {
            let next = add_copies(states, inner, count - 1, gap.next)?;
            Ok(Gap { next, ..gap })
        }
    }
}

/// Adds copies of a tree that may be left out.
#[cycle(build)]
fn add_optional<A: Allocator>(
    states: &mut Vec<State, A>,
    inner: &Tree<A>,
    count: u8,
    next: u32,
) -> Result<u32, AllocError>
    requires proper { IsProper (pattern inner.now) }
    requires fits { length states.old.items + count * size_of (pattern inner.now) + count ≤ 65536 }
    requires next_in { next < length states.old.items }
    requires tidy { IsTidy states.old.items }
    ensures { IfOk result (λ e. AddedOptional states.old.items states.new.items (pattern inner.now) count e next) }
{
    let mut entry = next;
    for i in 0..count {
        let first = add(states, inner, entry)?;
        entry = push(states, State::Split(first, next))?;
    }
    Ok(entry)
}

/// Adds copies of a tree, one behind the other. Copies without a state are not made one by one.
#[cycle(build)]
fn add_copies<A: Allocator>(
    states: &mut Vec<State, A>,
    inner: &Tree<A>,
    count: u8,
    next: u32,
) -> Result<u32, AllocError>
    requires proper { IsProper (pattern inner.now) }
    requires fits { length states.old.items + count * size_of (pattern inner.now) ≤ 65536 }
    requires next_in { next < length states.old.items }
    requires tidy { IsTidy states.old.items }
    ensures { IfOk result (λ e. AddedCopies states.old.items states.new.items (pattern inner.now) count e next) }
{
    let mut entry = next;
    for i in 0..count {
        let before = states.len();
        entry = add(states, inner, entry)?;
        if states.len() == before {
            return Ok(entry);
        }
    }
    Ok(entry)
}
