//! Automata of patterns, and the search of a line.
//!
//! The automaton of some patterns has exactly as many states as their size says, and a search follows all runs of
//! it at once: for each place of the line it has the set of the states that some run has reached. So a line of n
//! bytes costs at most n + 1 times the size, whatever the patterns are. Patterns match bytes, in the C locale.
//!
//! Where a byte leads from a set doesn't depend on the line, so a scratch has a DFA cache: up to 256 sets and the steps
//! from them. A line whose steps are all in the cache costs one look-up a byte. Where a step leads to a set for which
//! there is no room, the search goes on without the cache, and comes back to it as soon as no run is left.
//!
//! A scratch that is made for matched parts has a second cache, in a share of the same room: of the sets that the runs
//! from one place lead to. The first one tells before which place no match begins, and the second one where the longest
//! from that place ends.
#![tactic(auto)]

mod automaton;
mod build;
mod closure;
mod dfa_anchored;
mod dfa_cache;
mod dfa_cursor;
mod dfa_line;
mod dfa_search;
mod dfa_starts;
mod first_start;
mod machine;
mod nfa_search;
mod search;
mod single_start;
mod size;
mod sparse_set;
mod starts;
mod state;
mod strings;

pub use dfa_line::KnownLine;
pub use machine::{BuildFault, Machine, Scratch};
