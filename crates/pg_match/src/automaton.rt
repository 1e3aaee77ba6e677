//! The automaton of some patterns.
ghost use Rattle.std.specs.Prelude.{◌≡◌, ◌↔◌, IsTrue};

use crate::starts::Starts;
use crate::state::{State, is_same_table};
use pg_pattern::Bounds;
use std::alloc::{Allocator, Global};

/// The states of some patterns. State 0 is the one where a match ends.
pub struct Automaton<A: Allocator = Global> {
    pub states: Vec<State, A>,
    pub start: u32,
    /// The states that a run may be in before its first byte, where it starts inside a line.
    pub seeds: Vec<u32, A>,
    /// Where each byte leads to from these.
    pub starts: Starts<A>,
    pub bounds: Bounds,
    /// Whether there is a pattern. Without one nothing matches.
    pub some: bool,
    /// Within how many bytes of where a hit begins one ends, if that is known.
    pub reach: Option<usize>,
}

impl<A: Allocator> Drop for Automaton<A> {
    fn drop(self) {
        let Automaton {
            states: _,
            start: _,
            seeds: _,
            starts: _,
            bounds: _,
            some: _,
            reach: _,
        } = self;
    }
}

impl<A: Allocator> Automaton<A> {
    ghost use Rattle.pg_match.specs.Views.{nfa};

    /// Whether two automata are the same, state by state.
    pub fn is_same(&self, other: &Automaton<A>) -> bool
        ensures { IsTrue result ↔ (nfa self.now ≡ nfa other.now) }
    {
        if self.start != other.start {
            return false;
        }
        if self.bounds != other.bounds {
            return false;
        }
        if self.some != other.some {
            return false;
        }
        is_same_table(&self.states, &other.states)
    }
}
