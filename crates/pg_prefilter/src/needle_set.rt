//! Where one of many literals stands in a block.
ghost use Rattle.std.specs.Prelude.{◌≡◌, ◌≤◌, ◌+◌, ℕ, List, [], ◌∷◌, length, drop, slice_range, IsTrue};
ghost use Rattle.std.specs.List.{Any};
ghost use Rattle.memchr.specs.Find.{OccursAt};
ghost use Rattle.pg_blocks.specs.Lines.{lines};
ghost use Rattle.pg_selection.specs.Search.{terminator_of};
ghost use Rattle.pg_prefilter.specs.Literals.{set_literals};
ghost use Rattle.pg_prefilter.specs.Enough.{strings_if_some};
ghost use Rattle.pg_prefilter.specs.Candidates.{IsNeedleSet, IsNextWith};
ghost use Rattle.pg_prefilter.specs.declared.candidate.NextLine.TheVariants.{Found};

use crate::candidate::{Candidate, NextLine};
use crate::literal_set::LiteralSet;
use pg_blocks::{Span, text_of};
use pg_selection::QueryText;
use pg_strings::{Budget, Outcome};
use std::alloc::Allocator;

/// Many literals, and the bytes of a block in which they are looked for.
pub struct NeedleSet<'n, A: Allocator> {
    literals: &'n LiteralSet<A>,
    /// The block's bytes, where case is folded in lower case.
    searched: &'n [u8],
    budget: Budget,
}

impl<'n, A: Allocator> Drop for NeedleSet<'n, A> {
    fn drop(self) {
        let NeedleSet {
            literals: _,
            searched: _,
            budget: _,
        } = self;
    }
}

impl<'n, A: Allocator> NeedleSet<'n, A> {
    pub fn new(literals: &'n LiteralSet<A>, searched: &'n [u8]) -> NeedleSet<'n, A>
        ensures literals { result.literals.now ≡ literals.now }
        ensures searched { result.searched.now ≡ searched.now }
    {
        NeedleSet {
            literals,
            searched,
            budget: literals.block_budget(),
        }
    }

    /// Whether a line of a block holds a literal that is enough, where only some of them are; false also where to look
    /// for them takes too long.
    fn holds_enough(&mut self, end: u8, bytes: &[u8], line: Span) -> bool
        requires line { (line.start ≤ line.end) × (line.end ≤ length bytes.now) }
        requires searched { length self.old.searched.now ≡ length bytes.now }
        ensures literals { self.new.literals ≡ self.old.literals }
        ensures searched { self.new.searched ≡ self.old.searched }
        ensures held { IsTrue result → (text : List ℕ)
            → lines end (slice_range bytes.now line.start line.end) ≡ text ∷ []
            → Any (λ string. (place : ℕ) × OccursAt (slice_range self.old.searched.now line.start
            (line.start + length text)) string place)
            (strings_if_some self.old.literals.now.enough) }
    {
        let Some(enough) = &self.literals.enough else {
            return false;
        };
        let text = text_of(end, &bytes[line.start..line.end]);
        let searched = &self.searched[line.start..line.start + text.len()];
        match enough.find(searched, 0, &mut self.budget) {
            Outcome::Found(_) => true,
            Outcome::NotFound | Outcome::GaveUp(_) => false,
        }
    }

    /// The line that was found, told to be enough where it holds a literal that is.
    fn with_its_flag(
        &mut self,
        text: &QueryText<A>,
        bytes: &[u8],
        at: usize,
        found: Candidate,
    ) -> Candidate
        requires at { at ≤ length bytes.now }
        requires needles { IsNeedleSet text.now bytes.now self.old }
        requires found { IsNextWith text.now.fold (terminator_of text.now)
            (set_literals self.old.literals.now) at bytes.now (Found found) }
        ensures literals { self.new.literals ≡ self.old.literals }
        ensures searched { self.new.searched ≡ self.old.searched }
        ensures found { IsNextWith text.now.fold (terminator_of text.now)
            (set_literals self.old.literals.now) at bytes.now (Found result) }
    {
        if found.is_enough || !self.holds_enough(text.terminator(), bytes, found.line) {
            return found;
        }
        Candidate {
            line: found.line,
            is_enough: true,
        }
    }

    /// The first line at or behind a place that holds one of the literals.
    pub fn next_line(&mut self, text: &QueryText<A>, bytes: &[u8], at: usize) -> NextLine
        requires at { at ≤ length bytes.now }
        requires needles { IsNeedleSet text.now bytes.now self.old }
        ensures literals { self.new.literals ≡ self.old.literals }
        ensures searched { self.new.searched ≡ self.old.searched }
        ensures next { IsNextWith text.now.fold (terminator_of text.now)
            (set_literals self.old.literals.now) at bytes.now result }
    {
        if at == bytes.len() {
            return NextLine::Nowhere;
        }
        let set = self.literals;
        match set.strings.find(self.searched, at, &mut self.budget) {
            Outcome::Found(place) => {
                let end = text.terminator();
                let found = Candidate::around(end, bytes, at, place, set.is_enough);
                NextLine::Found(self.with_its_flag(text, bytes, at, found))
            }
            Outcome::NotFound => NextLine::Nowhere,
            Outcome::GaveUp(_) => NextLine::GaveUp,
        }
    }
}
