//! Where the literals of a query stand in a block.
ghost use Rattle.std.specs.Prelude.{◌≡◌, ◌⊎◌, ◌<◌, ◌≤◌, ◌==◌, ℕ, List, length, map, drop};
ghost use Rattle.std.specs.Prelude.{IfOk, IfSome, IfNone, IsSomeAnd};
ghost use Rattle.std.specs.List.{All, Any};
ghost use Rattle.pg_selection.specs.Search.{terminator_of};
ghost use Rattle.pg_prefilter.specs.Literals.{data_of};
ghost use Rattle.pg_prefilter.specs.Candidates.{literal_of, IsAhead, NeedleAt, IsBefore, IsNeedleList};
ghost use Rattle.pg_prefilter.specs.Candidates.{AreWithout, IsFirstWith, IsFoundBehind};

use crate::candidate::Candidate;
use memchr::memmem::Finder;
use pg_literal::Literal;
use pg_selection::QueryText;
use std::alloc::{AllocError, Allocator};

/// A literal, prepared for the search of a block.
#[derive(Drop)]
pub struct Needle<'n> {
    finder: Finder<'n>,
    /// Each line that holds it has a hit.
    is_enough: bool,
    /// Where it stands next, or before it was looked for, where it may; `None` where it stands nowhere further.
    next: Option<usize>,
    /// It was looked for.
    is_sought: bool,
}

/// A place where a needle stands.
#[derive(Clone, Copy)]
pub struct Place {
    at: usize,
    /// Each line that holds the needle has a hit.
    is_enough: bool,
}

impl<'n> Needle<'n> {
    /// The needle of a literal, which isn't looked for yet.
    fn new<A: Allocator>(literal: &'n Literal<A>) -> Needle<'n>
        ensures literal { literal_of result ≡ data_of literal.now }
        ensures ahead { (searched : List ℕ) → IsAhead searched 0 result }
    {
        Needle {
            finder: Finder::new(&literal.text),
            is_enough: literal.is_enough,
            next: Some(0),
            is_sought: false,
        }
    }

    /// Finds its next place where it wasn't looked for yet, or that was passed.
    fn advance(&mut self, searched: &[u8], at: usize)
        requires at { at ≤ length searched.now }
        requires ahead { IsAhead searched.now at self.old }
        ensures literal { literal_of self.new ≡ literal_of self.old }
        ensures ahead { IsAhead searched.now at self.new }
        ensures found { IsFoundBehind searched.now at self.new }
    {
        let is_behind = match self.next {
            Some(place) => at <= place,
            None => true,
        };
        if is_behind && self.is_sought {
            return;
        }
        self.is_sought = true;
        self.next = match self.finder.find(&searched[at..]) {
            Some(found) => Some(at + found),
            None => None,
        };
    }

    /// The lesser of a place and the needle's own; where both are one, that of a needle that is enough.
    fn or_before(&self, other: Option<Place>) -> Option<Place>
        ensures stands { IfSome result (λ place. (other ≡ result) ⊎ NeedleAt place self.now) }
        ensures least { IsBefore result self.now }
        ensures other { IfSome other (λ place. IsSomeAnd result (λ least. least.at ≤ place.at)) }
    {
        let Some(next) = self.next else {
            return other;
        };
        let own = Place {
            at: next,
            is_enough: self.is_enough,
        };
        match other {
            Some(place) if place.at < next || place.at == next && place.is_enough => other,
            _ => Some(own),
        }
    }
}

/// A needle for each of some literals, and the bytes of a block in which they are looked for.
pub struct NeedleList<'n, A: Allocator> {
    needles: Vec<Needle<'n>, A>,
    /// The block's bytes, where case is folded in lower case.
    searched: &'n [u8],
}

impl<'n, A: Allocator> Drop for NeedleList<'n, A> {
    fn drop(self) {
        let NeedleList {
            needles: _,
            searched: _,
        } = self;
    }
}

impl<'n, A: Allocator> NeedleList<'n, A> {
    /// The needles of some literals.
    pub fn new(
        alloc: A,
        literals: &'n [Literal<A>],
        searched: &'n [u8],
    ) -> Result<NeedleList<'n, A>, AllocError>
        ensures searched { IfOk result (λ needles. needles.searched.now ≡ searched.now) }
        ensures literals { IfOk result
            (λ needles. map literal_of needles.needles.items ≡ map data_of literals.now) }
        ensures ahead { IfOk result
            (λ needles. (bytes : List ℕ) → All (IsAhead bytes 0) needles.needles.items) }
    {
        let mut needles = Vec::new(alloc);
        for literal in literals {
            needles.push(Needle::new(literal))?;
        }
        Ok(NeedleList { needles, searched })
    }

    /// Whether there is none.
    pub fn is_empty(&self) -> bool
        ensures { result ≡ (length self.now.needles.items == 0) }
    {
        self.needles.is_empty()
    }

    /// Finds each place that isn't known yet, or was passed.
    fn advance(&mut self, at: usize)
        requires at { at ≤ length self.old.searched.now }
        requires ahead { All (IsAhead self.old.searched.now at) self.old.needles.items }
        ensures searched { self.new.searched ≡ self.old.searched }
        ensures literals { map literal_of self.new.needles.items ≡ map literal_of self.old.needles.items }
        ensures ahead { All (IsAhead self.new.searched.now at) self.new.needles.items }
        ensures found { All (IsFoundBehind self.new.searched.now at) self.new.needles.items }
    {
        let searched = self.searched;
        for needle in self.needles.iter_mut() {
            needle.advance(searched, at);
        }
    }

    /// The least place.
    fn first(&self) -> Option<Place>
        ensures stands { IfSome result (λ place. Any (NeedleAt place) self.now.needles.items) }
        ensures least { All (IsBefore result) self.now.needles.items }
    {
        let mut first = None;
        for needle in &self.needles {
            first = needle.or_before(first);
        }
        first
    }

    /// The first line at or behind a place that holds a needle.
    pub fn next_line(&mut self, text: &QueryText<A>, bytes: &[u8], at: usize) -> Option<Candidate>
        requires at { at ≤ length bytes.now }
        requires needles { IsNeedleList text.now bytes.now at self.old }
        requires some { 0 < length self.old.needles.items }
        ensures needles { IsNeedleList text.now bytes.now at self.new }
        ensures literals { map literal_of self.new.needles.items ≡ map literal_of self.old.needles.items }
        ensures within { IfSome result (λ found. (at ≤ found.line.start) × (found.line.start < found.line.end)
            × (found.line.end ≤ length bytes.now)) }
        ensures some { IfSome result (IsFirstWith text.now.fold (terminator_of text.now)
            (map literal_of self.new.needles.items) at (drop at bytes.now)) }
        ensures none { IfNone result (AreWithout text.now.fold (terminator_of text.now)
            (map literal_of self.new.needles.items) (drop at bytes.now)) }
    {
        if at == bytes.len() {
            return None;
        }
        self.advance(at);
        let first = self.first()?;
        Some(Candidate::around(text.terminator(), bytes, at, first.at, first.is_enough))
    }
}
