//! Machines, and what a search needs.
ghost use Rattle.std.specs.Prelude.{◌≡◌, ◌+◌, ◌*◌, ◌^◌, ◌<◌, ◌≤◌, ◌↔◌, List, [], All};
ghost use Rattle.std.specs.Prelude.{length, map, IsTrue, IfOk, IfSome, IsErrOf, MatchOption};
ghost use Rattle.pg_pattern.specs.Patterns.{Pattern, IsProper};
ghost use Rattle.pg_pattern.specs.Trees.{pattern};
ghost use Rattle.pg_match.specs.Sizes.{list_size};
ghost use Rattle.pg_pattern.specs.Hits.{HasHit, HasNoNext, IsNext};
ghost use Rattle.pg_match.specs.Lines.{TellsLine};
ghost use Rattle.pg_match.specs.Machines.{IsMachineOf, IsOfSome, Fits};
ghost use Rattle.pg_match.specs.Dfas.{IsBlank};
ghost use Rattle.pg_match.specs.Strings.{string_patterns};
ghost use Rattle.pg_match.specs.Views.{dfa, nfa, IsBuilt};
ghost use Rattle.pg_pattern.specs.declared.bounds.Bounds.{Bounds};

use crate::automaton::Automaton;
use crate::build::assemble;
use crate::dfa_cache::Cache;
use crate::dfa_line::KnownLine;
use crate::search::StateSets;
use crate::size::{MAX_STATES, list_size};
use crate::strings::{assemble_strings, strings_size};
use pg_pattern::{Bounds, Tree};
use std::alloc::{AllocError, Allocator, Global};
use std::marker::Model;
use std::sync::Arc;
use thiserror::Error;

/// Why no machine is built.
#[derive(Clone, Copy, Debug, PartialEq, Eq, Error)]
pub enum BuildFault {
    /// The patterns ask for more than 65,536 states.
    #[error("pattern too large")]
    TooManyStates,
    /// A request for memory was refused.
    #[error("out of memory")]
    OutOfMemory,
}

/// The automaton of some patterns. It can be shared by threads.
#[derive(Drop)]
pub struct Machine<A: Allocator = Global> {
    automaton: Arc<Automaton<A>, A>,
}

impl<A: Allocator> Model for Machine<A> {
    ghost use Rattle.std.specs.Arc.{arc_value};
    ghost use Rattle.pg_match.specs.Automata.{Nfa};
    ghost use Rattle.pg_match.specs.Machines.{IsOfSome};
    ghost use Rattle.pg_match.specs.Views.{nfa, IsBuilt};

    ghost Value = { Nfa };

    ghost view = { λ m. nfa (arc_value m.automaton) };

    ghost invariant = { λ m. IsBuilt (arc_value m.automaton) × IsOfSome (nfa (arc_value m.automaton)) };
}

/// The room that searches with one machine need, so that they ask for no memory, and what they remember from line to
/// line.
pub struct Scratch<A: Allocator = Global> {
    automaton: Arc<Automaton<A>, A>,
    sets: StateSets<A>,
    /// The DFA cache. None where the memory for it was refused. Searches are slower then.
    cache: Option<Cache<A>>,
    /// The DFA cache of the runs from one place. None where it wasn't asked for, or the memory for it was refused.
    anchored: Option<Cache<A>>,
    /// Whether an empty line has a hit, once one was searched.
    empty: Option<bool>,
}

impl<A: Allocator> Drop for Scratch<A> {
    fn drop(self) {
        let Scratch {
            automaton: _,
            sets: _,
            cache: _,
            anchored: _,
            empty: _,
        } = self;
    }
}

impl<A: Allocator> Model for Scratch<A> {
    ghost use Rattle.std.specs.Prelude.{length};
    ghost use Rattle.std.specs.Arc.{arc_value};
    ghost use Rattle.pg_match.specs.Machines.{Room, TellsEmpty};
    ghost use Rattle.pg_match.specs.StateSets.{HaveRoom};
    ghost use Rattle.pg_match.specs.Views.{nfa, buffers, added, CachesDfaOf, CachesAnchoredDfaOf};

    ghost Value = { Room };

    ghost view = { λ s. record {
      machine = nfa (arc_value s.automaton);
      visits = s.sets.visits;
      added = added s.sets;
    } };

    ghost invariant = { λ s. HaveRoom (buffers s.sets) (length (nfa (arc_value s.automaton)).states)
        × CachesDfaOf s.cache (nfa (arc_value s.automaton))
        × CachesAnchoredDfaOf s.anchored (nfa (arc_value s.automaton))
        × TellsEmpty (nfa (arc_value s.automaton)) s.empty };
}

impl From<AllocError> for BuildFault {
    ghost use Rattle.pg_match.specs.declared.machine.BuildFault.TheVariants.{OutOfMemory};

    ghost from_gives = { λ _ e. e ≡ OutOfMemory };

    fn from(_error: AllocError) -> BuildFault {
        BuildFault::OutOfMemory
    }
}

impl<A: Allocator> Machine<A> {
    /// The machine of some trees, whose matches begin and end as the bounds say. The trees are
    /// alternatives; without a tree nothing matches.
    ///
    /// # Errors
    ///
    /// `TooManyStates` comes exactly where the trees ask for more than 65,536 states, and before
    /// anything is built; `OutOfMemory` where a request for memory was refused.
    pub fn build(alloc: A, trees: &[Tree<A>], bounds: Bounds) -> Result<Machine<A>, BuildFault>
    where
        A: Copy,
        requires { All IsProper (map pattern trees.now) }
        ensures built { IfOk result (λ machine. IsMachineOf machine (map pattern trees.now) bounds) }
        ensures large { IsErrOf result BuildFault.TooManyStates ↔ (65536 < list_size (map pattern trees.now)) }
    {
        if list_size(trees) > MAX_STATES {
            return Err(BuildFault::TooManyStates);
        }
        let automaton = assemble(alloc, trees, bounds)?;
        let machine = share(alloc, automaton)?;
        Ok(machine)
    }

    /// The machine of some fixed strings, whose matches begin and end as the bounds say: that which [`Machine::build`]
    /// gives for the trees that they spell, made without these. With `fold` both cases of a letter match.
    ///
    /// # Errors
    ///
    /// As for [`Machine::build`].
    pub fn of_strings(
        alloc: A,
        strings: &[&[u8]],
        fold: bool,
        bounds: Bounds,
    ) -> Result<Machine<A>, BuildFault>
    where
        A: Copy,
        ensures built { IfOk result (λ machine. IsMachineOf machine (string_patterns fold strings.now) bounds) }
        ensures large { IsErrOf result BuildFault.TooManyStates
            ↔ (65536 < list_size (string_patterns fold strings.now)) }
    {
        if strings_size(strings) > MAX_STATES {
            return Err(BuildFault::TooManyStates);
        }
        let automaton = assemble_strings(alloc, strings, fold, bounds)?;
        let machine = share(alloc, automaton)?;
        Ok(machine)
    }

    /// Whether some span of the line is matched, as the machine's bounds allow. The scratch has to fit
    /// the machine ([`Scratch::fits`]). The line has no terminator and at most 2^30 bytes.
    pub fn selects(&self, scratch: &mut Scratch<A>, line: &[u8]) -> bool
        requires fits { Fits scratch.old self.now }
        requires short { length line.now ≤ 2 ^ 30 }
        ensures fits { Fits scratch.new self.now }
        ensures exact { (patterns : List Pattern) (bounds : Bounds) → IsMachineOf self.now patterns bounds
            → (IsTrue result ↔ HasHit patterns bounds line.now) }
        ensures visits { (patterns : List Pattern) (bounds : Bounds) → IsMachineOf self.now patterns bounds
            → scratch.new.visits ≤ (length line.now + 1) * list_size patterns }
        ensures counted { scratch.new.added ≡ scratch.old.added + scratch.new.visits }
        ensures some { IsOfSome self.now }
    {
        if line.is_empty() {
            return self.selects_empty(scratch);
        }
        let automaton: &Automaton<A> = &self.automaton;
        automaton.selects(&mut scratch.sets, &mut scratch.cache, line)
    }

    /// Whether an empty line has a hit. It is searched once.
    fn selects_empty(&self, scratch: &mut Scratch<A>) -> bool
        requires fits { Fits scratch.old self.now }
        ensures fits { Fits scratch.new self.now }
        ensures exact { (patterns : List Pattern) (bounds : Bounds) → IsMachineOf self.now patterns bounds
            → (IsTrue result ↔ HasHit patterns bounds []) }
        ensures visits { (patterns : List Pattern) (bounds : Bounds) → IsMachineOf self.now patterns bounds
            → scratch.new.visits ≤ list_size patterns }
        ensures counted { scratch.new.added ≡ scratch.old.added + scratch.new.visits }
        ensures some { IsOfSome self.now }
    {
        let automaton: &Automaton<A> = &self.automaton;
        if let Some(answer) = scratch.empty {
            scratch.sets.visits = 0;
            return answer;
        }
        let answer = automaton.selects(&mut scratch.sets, &mut scratch.cache, b"");
        scratch.empty = Some(answer);
        answer
    }

    /// What is remembered of the line that some bytes begin with, whose end is looked for by the way: `end` is the byte
    /// that ends lines. `None` where too little is remembered: then [`Machine::selects`] has to be asked. No state is
    /// visited. The scratch has to fit the machine.
    pub fn recall_line(&self, scratch: &Scratch<A>, end: u8, bytes: &[u8]) -> Option<KnownLine>
        requires fits { Fits scratch.now self.now }
        ensures known { (patterns : List Pattern) (bounds : Bounds) → IsMachineOf self.now patterns bounds
            → IfSome result (TellsLine (HasHit patterns bounds) end bytes.now) }
        ensures some { IsOfSome self.now }
    {
        let automaton: &Automaton<A> = &self.automaton;
        if bytes.is_empty() || bytes[0] == end {
            let has_hit = scratch.empty?;
            return Some(KnownLine { has_hit, read: 0 });
        }
        match &scratch.cache {
            Some(cache) if automaton.some => automaton.recall_line(cache, end, bytes),
            _ => None,
        }
    }

    /// The matched part that -o shows next: of the spans from `from` on that are matched and not
    /// empty the one that starts first, and of these the longest; `None` if there is none. Its
    /// offsets count bytes from the line's start, and the second is that behind its last byte. `from`
    /// is at most the line's length; otherwise as for [`Machine::selects`].
    pub fn next_part(
        &self,
        scratch: &mut Scratch<A>,
        line: &[u8],
        from: usize,
    ) -> Option<(usize, usize)>
        requires fits { Fits scratch.old self.now }
        requires short { length line.now ≤ 2 ^ 30 }
        requires from_in { from ≤ length line.now }
        ensures fits { Fits scratch.new self.now }
        ensures next { (patterns : List Pattern) (bounds : Bounds) → IsMachineOf self.now patterns bounds
            → MatchOption result (HasNoNext patterns bounds line.now from)
            (λ b. IsNext patterns bounds line.now from b.0 b.1) }
        ensures visits { (patterns : List Pattern) (bounds : Bounds) → IsMachineOf self.now patterns bounds
            → scratch.new.visits ≤ (length line.now + 1) * list_size patterns }
        ensures counted { scratch.new.added ≡ scratch.old.added + scratch.new.visits }
        ensures some { IsOfSome self.now }
    {
        let automaton: &Automaton<A> = &self.automaton;
        let sets = &mut scratch.sets;
        automaton.next_part(sets, &mut scratch.cache, &mut scratch.anchored, line, from)
    }
}

/// The machine of an automaton, which has at least one pattern.
fn share<A: Allocator>(alloc: A, automaton: Automaton<A>) -> Result<Machine<A>, AllocError>
    requires { IsBuilt automaton × IsOfSome (nfa automaton) }
    ensures { IfOk result (λ machine. machine ≡ nfa automaton) }
{
    let automaton = Arc::new(alloc, automaton)?;
    Ok(Machine { automaton })
}

/// The cache of the runs from one place, beside another one, for automata with so many states, if it is wanted and
/// there is memory.
fn anchored_cache<A: Allocator + Copy>(alloc: A, states: usize, is_wanted: bool) -> Option<Cache<A>>
    ensures { IfSome result (λ cache. IsBlank (dfa cache)) }
{
    if is_wanted {
        Cache::new(alloc, states, true).ok()
    } else {
        None
    }
}

impl<A: Allocator> Scratch<A> {
    /// Room for searches with a machine, of which few ask for matched parts.
    ///
    /// # Errors
    ///
    /// `AllocError` where memory for the sets of states was refused. Where only that for the DFA cache is, searches are
    /// slower and answer the same.
    pub fn new(alloc: A, machine: &Machine<A>) -> Result<Scratch<A>, AllocError>
    where
        A: Copy,
        ensures fits { IfOk result (λ scratch. Fits scratch machine.now) }
        ensures visits { IfOk result (λ scratch. scratch.visits ≡ 0) }
        ensures added { IfOk result (λ scratch. scratch.added ≡ 0) }
    {
        Scratch::prepare(alloc, machine, false)
    }

    /// Room for searches that ask for matched parts, line after line: what the runs that begin at one place lead to is
    /// remembered too. That takes more memory, and searches answer the same.
    ///
    /// # Errors
    ///
    /// As for [`Scratch::new`].
    pub fn with_parts(alloc: A, machine: &Machine<A>) -> Result<Scratch<A>, AllocError>
    where
        A: Copy,
        ensures fits { IfOk result (λ scratch. Fits scratch machine.now) }
        ensures visits { IfOk result (λ scratch. scratch.visits ≡ 0) }
        ensures added { IfOk result (λ scratch. scratch.added ≡ 0) }
    {
        Scratch::prepare(alloc, machine, true)
    }

    /// Room for searches with a machine, with or without a cache for matched parts.
    fn prepare(alloc: A, machine: &Machine<A>, with_parts: bool) -> Result<Scratch<A>, AllocError>
    where
        A: Copy,
        ensures fits { IfOk result (λ scratch. Fits scratch machine.now) }
        ensures visits { IfOk result (λ scratch. scratch.visits ≡ 0) }
        ensures added { IfOk result (λ scratch. scratch.added ≡ 0) }
    {
        let automaton = Arc::try_clone(&machine.automaton)?;
        let states: &Automaton<A> = &machine.automaton;
        let sets = StateSets::new(alloc, states.states.len())?;
        let cache = Cache::new(alloc, states.states.len(), with_parts).ok();
        let anchored = anchored_cache(alloc, states.states.len(), with_parts);
        Ok(Scratch {
            automaton,
            sets,
            cache,
            anchored,
            empty: None,
        })
    }

    /// Whether the scratch was made for this machine, or for one with the same automaton. The time
    /// is at most linear in the number of states.
    pub fn fits(&self, machine: &Machine<A>) -> bool
        ensures { IsTrue result ↔ Fits self.now machine.now }
    {
        let automaton: &Automaton<A> = &self.automaton;
        automaton.is_same(&machine.automaton)
    }

    /// How often the last search added a state to the set of a place. A step that is in the cache takes none.
    pub fn visits(&self) -> u128
        ensures { result ≡ self.now.visits }
    {
        self.sets.visits
    }
}
