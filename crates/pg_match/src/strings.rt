//! How the states of fixed strings are made, without trees.
ghost use Rattle.std.specs.Prelude.{◌≡◌, ◌+◌, ◌<◌, ◌≤◌, Bool, IfOk, IfSome, length, map, min};
ghost use Rattle.std.specs.List.{All};
ghost use Rattle.pg_pattern.specs.Lengths.{HitsEndWithin};
ghost use Rattle.pg_match.specs.Sizes.{size_of, list_size};
ghost use Rattle.pg_match.specs.Automata.{IsTidy};
ghost use Rattle.pg_match.specs.Tables.{Added};
ghost use Rattle.pg_match.specs.Machines.{IsMachineOf};
ghost use Rattle.pg_match.specs.Strings.{string_pattern, string_patterns};
ghost use Rattle.pg_match.specs.Views.{nfa, IsBuilt};

use crate::automaton::Automaton;
use crate::build::{add_choice, automaton_of, push};
use crate::size::capped;
use crate::state::{ACCEPT, State};
use pg_bytes::ByteSet;
use pg_pattern::{Bounds, folded};
use std::alloc::{AllocError, Allocator};

/// The size of a string, or 65,537 where it is larger: its bytes, or one state where it is empty.
fn string_size(string: &[u8]) -> u64
    ensures { (fold : Bool) → result ≡ min (size_of (string_pattern fold string.now)) 65537 }
{
    capped((string.len() as u64).max(1))
}

/// The size of a list of strings, or 65,537 where it is larger.
pub(crate) fn strings_size(strings: &[&[u8]]) -> u64
    ensures { (fold : Bool) → result ≡ min (list_size (string_patterns fold strings.now)) 65537 }
{
    let mut total = 0;
    for (i, string) in strings.iter().enumerate() {
        let one = string_size(string);
        total = capped(total + one + if i == 0 { 0 } else { 1 });
    }
    capped(total + 1)
}

/// The length of the longest string, or 0 where there is none.
fn longest(strings: &[&[u8]]) -> usize
    ensures { All (λ string. length string.now ≤ result) strings.now }
{
    let mut most = 0;
    for string in strings {
        most = string.len().max(most);
    }
    most
}

/// Adds the states of a string, those of its last bytes first, and answers the one where it begins. They lead on to
/// `next`, which is in the table, and there is room for them: the caller has summed their sizes.
fn add_string<A: Allocator>(
    states: &mut Vec<State, A>,
    string: &[u8],
    fold: bool,
    next: u32,
) -> Result<u32, AllocError>
    requires fits { length states.old.items + size_of (string_pattern fold string.now) ≤ 65536 }
    requires next_in { next < length states.old.items }
    requires tidy { IsTidy states.old.items }
    ensures { IfOk result
        (λ e. Added states.old.items states.new.items (string_pattern fold string.now) e next) }
{
    if string.is_empty() {
        let entry = push(states, State::Jump(next))?;
        return Ok(entry);
    }
    let mut entry = next;
    let mut left = string.len();
    while left > 0 {
        left -= 1;
        let set = folded(ByteSet::one(string[left]), fold);
        entry = push(states, State::Read(set, entry))?;
    }
    Ok(entry)
}

/// The automaton of strings whose states, with one for each choice and one for the end, are at most 65,536, as
/// `strings_size` tells.
pub(crate) fn assemble_strings<A: Allocator + Copy>(
    alloc: A,
    strings: &[&[u8]],
    fold: bool,
    bounds: Bounds,
) -> Result<Automaton<A>, AllocError>
    requires { list_size (string_patterns fold strings.now) ≤ 65536 }
    ensures { IfOk result (λ m. IsBuilt m × IsMachineOf (nfa m) (string_patterns fold strings.now) bounds) }
{
    let mut states = Vec::new(alloc);
    push(&mut states, State::Accept)?;
    let mut start = 0;
    for (i, string) in strings.iter().enumerate() {
        let entry = add_string(&mut states, string, fold, ACCEPT)?;
        start = add_choice(&mut states, i, entry, start)?;
    }
    let reach = longest(strings);
    automaton_of(
        alloc,
        states,
        start,
        bounds,
        !strings.is_empty(),
        Some(reach),
    )
}
