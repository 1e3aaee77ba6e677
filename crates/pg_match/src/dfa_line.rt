//! The search of a line whose end isn't known yet, by the DFA cache.
ghost use Rattle.std.specs.Prelude.{◌≡◌, ℕ, ◌<◌, ◌≤◌, length, slice_index, IfSome};
ghost use Rattle.pg_match.specs.Lines.{IsFirstText, StandsInLine, TellsLine};
ghost use Rattle.pg_match.specs.Dfas.{IsDfaOf};
ghost use Rattle.pg_match.specs.Stands.{HasRun};
ghost use Rattle.pg_match.specs.Views.{nfa, dfa, IsBuilt};

use crate::automaton::Automaton;
use crate::dfa_cache::{Cache, FIRST, STRIDE};
use memchr::memchr;
use std::alloc::Allocator;

/// Behind so many bytes of a line its end is looked for at once, and not byte by byte.
const NEAR: usize = 16;

/// What is remembered of the line that some bytes begin with.
#[derive(Clone, Copy)]
pub struct KnownLine {
    /// Whether some span of it is matched.
    pub has_hit: bool,
    /// How many of its bytes were read. Its text ends there or further on.
    pub read: usize,
}

/// Where the text of the first line of some bytes ends, which has the byte at a place.
fn first_end(end: u8, bytes: &[u8], place: usize) -> usize
    requires within { place < length bytes.now }
    requires clear { (i : ℕ) → i ≤ place → slice_index bytes.now i ≡ end → ⊥ }
    ensures behind { place < result }
    ensures first { IsFirstText end bytes.now result }
{
    match memchr(end, &bytes[place + 1..]) {
        Some(len) => place + 1 + len,
        None => bytes.len(),
    }
}

impl<A: Allocator> Automaton<A> {
    /// Walks by what is remembered through the line that some bytes begin with, which isn't empty, up to its last byte
    /// or its `NEAR`th. Answers the DFA state at the row of a place, and the
    /// place.
    #[inline(always)]
    fn walk_line(&self, cache: &Cache<A>, end: u8, bytes: &[u8]) -> (u32, usize)
        requires built { IsBuilt self.now }
        requires cache { IsDfaOf (nfa self.now) (dfa cache.now) }
        requires begins { StandsInLine (nfa self.now) (dfa cache.now) end bytes.now 256 0 }
        ensures { StandsInLine (nfa self.now) (dfa cache.now) end bytes.now result.0 result.1 }
    {
        let near = bytes.len().min(NEAR + 1);
        let mut state = FIRST;
        let mut place = 0;
        while place + 1 < near {
            if bytes[place + 1] == end {
                break;
            }
            let next = cache.steps[state as usize + bytes[place] as usize];
            if next < STRIDE {
                break;
            }
            state = next;
            place += 1;
        }
        (state, place)
    }

    /// What is remembered of the line that some bytes begin with, from a place inside it on. Its end is looked for.
    fn recall_rest(
        &self,
        cache: &Cache<A>,
        end: u8,
        bytes: &[u8],
        state: u32,
        place: usize,
    ) -> Option<KnownLine>
        requires built { IsBuilt self.now }
        requires cache { IsDfaOf (nfa self.now) (dfa cache.now) }
        requires stands { StandsInLine (nfa self.now) (dfa cache.now) end bytes.now state place }
        ensures { IfSome result (TellsLine (λ l. HasRun (nfa self.now) l 0) end bytes.now) }
    {
        let read = first_end(end, bytes, place);
        let line = &bytes[..read];
        let (at, here) = self.walk(cache, line, place, state);
        let has_hit = if here + 1 == read {
            self.recall_end(cache, at, line[here])?
        } else {
            self.recall_step(cache, at, line[here])?
        };
        Some(KnownLine { has_hit, read })
    }

    /// Whether the line that some bytes begin with has a hit, if that is remembered of its bytes; it isn't of an empty
    /// line. The end of a long line is looked for.
    pub(crate) fn recall_line(&self, cache: &Cache<A>, end: u8, bytes: &[u8]) -> Option<KnownLine>
        requires built { IsBuilt self.now }
        requires cache { IsDfaOf (nfa self.now) (dfa cache.now) }
        ensures { IfSome result (TellsLine (λ l. HasRun (nfa self.now) l 0) end bytes.now) }
    {
        if cache.count == 0 || bytes.is_empty() || bytes[0] == end {
            return None;
        }
        let (state, place) = self.walk_line(cache, end, bytes);
        let read = place + 1;
        if read == bytes.len() || bytes[read] == end {
            let has_hit = self.recall_end(cache, state, bytes[place])?;
            return Some(KnownLine { has_hit, read });
        }
        match self.recall_step(cache, state, bytes[place]) {
            Some(has_hit) => Some(KnownLine { has_hit, read }),
            None => self.recall_rest(cache, end, bytes, state, place),
        }
    }
}
