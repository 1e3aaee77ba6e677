//! Where the literals of a query stand in a block, few or many.
ghost use Rattle.std.specs.Prelude.{◌≡◌, ◌<◌, ◌≤◌, ◌==◌, ℕ, List, length, map, IfOk, IfSome};
ghost use Rattle.pg_literal.specs.Literals.{as_searched};
ghost use Rattle.pg_selection.specs.Search.{SearchText, terminator_of};
ghost use Rattle.pg_prefilter.specs.Literals.{AreLiterals, data_of, literals_given, set_literals};
ghost use Rattle.pg_prefilter.specs.Candidates.{AreLiteralNeedles, IsNextWith, literals_of};

use crate::candidate::NextLine;
use crate::literal_set::LiteralSet;
use crate::needle::NeedleList;
use crate::needle_set::NeedleSet;
use pg_literal::Literal;
use pg_selection::QueryText;
use std::alloc::{AllocError, Allocator};

/// The literals of a query, as they are looked for in a block: a few one by one, or many together.
pub enum LiteralNeedles<'n, A: Allocator> {
    Few(NeedleList<'n, A>),
    Many(NeedleSet<'n, A>),
}

impl<'n, A: Allocator> Drop for LiteralNeedles<'n, A> {
    fn drop(self) {
        match self {
            LiteralNeedles::Few(_) => {}
            LiteralNeedles::Many(_) => {}
        }
    }
}

impl<'n, A: Allocator> LiteralNeedles<'n, A> {
    /// The needles of a set of literals, if there is one, else those of a few. A refused request for memory is the only
    /// error.
    pub fn new(
        alloc: A,
        literals: &'n [Literal<A>],
        set: Option<&'n LiteralSet<A>>,
        searched: &'n [u8],
    ) -> Result<LiteralNeedles<'n, A>, AllocError>
        ensures literals { IfOk result (λ needles. literals_of needles ≡ literals_given set.entry literals.now) }
        ensures needles { (text : SearchText) → (bytes : List ℕ) → AreLiterals text (map data_of literals.now)
            → IfSome set.entry (λ set. AreLiterals text (set_literals set.now))
            → (0 < length literals.now → searched.now ≡ as_searched text.fold bytes)
            → IfSome set.entry (λ _. searched.now ≡ as_searched text.fold bytes)
            → IfOk result (AreLiteralNeedles text bytes 0) }
    {
        match set {
            Some(set) => Ok(LiteralNeedles::Many(NeedleSet::new(set, searched))),
            None => {
                let list = NeedleList::new(alloc, literals, searched)?;
                Ok(LiteralNeedles::Few(list))
            }
        }
    }

    /// Whether there is none.
    pub fn is_empty(&self) -> bool
        ensures { result ≡ (length (literals_of self.now) == 0) }
    {
        match self {
            LiteralNeedles::Few(list) => list.is_empty(),
            LiteralNeedles::Many(_) => false,
        }
    }

    /// The first line at or behind a place of a block, or its end, that holds one of the literals. They are needles of
    /// the text in the block, as they are from that place on, and there is one.
    pub fn next_line(&mut self, text: &QueryText<A>, bytes: &[u8], at: usize) -> NextLine
        requires at { at ≤ length bytes.now }
        requires needles { AreLiteralNeedles text.now bytes.now at self.old }
        requires some { 0 < length (literals_of self.old) }
        ensures needles { AreLiteralNeedles text.now bytes.now at self.new }
        ensures literals { literals_of self.new ≡ literals_of self.old }
        ensures next { IsNextWith text.now.fold (terminator_of text.now) (literals_of self.new) at bytes.now result }
    {
        match self {
            LiteralNeedles::Few(list) => match list.next_line(text, bytes, at) {
                Some(found) => NextLine::Found(found),
                None => NextLine::Nowhere,
            },
            LiteralNeedles::Many(set) => set.next_line(text, bytes, at),
        }
    }
}
