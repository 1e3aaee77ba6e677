//! Where a row of sets stands in a block.
ghost use Rattle.std.specs.Prelude.{◌≡◌, ◌≤◌, length};
ghost use Rattle.pg_selection.specs.Search.{terminator_of};
ghost use Rattle.pg_prefilter.specs.Literals.{IsRowOf};
ghost use Rattle.pg_prefilter.specs.Candidates.{IsNextWithRow};

use crate::candidate::{Candidate, NextLine};
use crate::literal_needles::LiteralNeedles;
use crate::needles::BYTES_PER_CANDIDATE;
use pg_literal::{RowFinder, RowOutcome};
use pg_selection::QueryText;
use std::alloc::Allocator;

/// How many lines may have the row, beyond one for each `BYTES_PER_CANDIDATE` bytes, until the rest of the block is
/// searched line by line.
const CROWD: usize = 8;

/// A row of sets, by which lines are looked for.
pub struct NeedleRow<'n, A: Allocator> {
    finder: &'n RowFinder<A>,
    /// How many lines were found close to the one before, less one for each `BYTES_PER_CANDIDATE` bytes that were
    /// passed.
    close: usize,
    /// The needles of literals that may take its place.
    literals: Option<LiteralNeedles<'n, A>>,
}

impl<'n, A: Allocator> Drop for NeedleRow<'n, A> {
    fn drop(self) {
        let NeedleRow {
            finder: _,
            close: _,
            literals: _,
        } = self;
    }
}

impl<'n, A: Allocator> NeedleRow<'n, A> {
    /// A row, and the needles of literals that may take its place, if there are such.
    pub fn new(
        finder: &'n RowFinder<A>,
        literals: Option<LiteralNeedles<'n, A>>,
    ) -> NeedleRow<'n, A>
        ensures finder { result.finder.now ≡ finder.now }
        ensures literals { result.literals ≡ literals.entry }
    {
        NeedleRow {
            finder,
            close: 0,
            literals,
        }
    }

    /// The needles of literals that may take its place.
    pub fn into_literals(self) -> Option<LiteralNeedles<'n, A>>
        ensures { result ≡ self.entry.literals }
    {
        let NeedleRow {
            finder: _,
            close: _,
            literals,
        } = self;
        literals
    }

    /// The first line at or behind a place of a block, or its end, in which the row stands, which is one of the query.
    pub fn next_line(&mut self, text: &QueryText<A>, bytes: &[u8], at: usize) -> NextLine
        requires at { at ≤ length bytes.now }
        requires row { IsRowOf text.now self.old.finder.now }
        ensures finder { self.new.finder ≡ self.old.finder }
        ensures literals { self.new.literals ≡ self.old.literals }
        ensures next { IsNextWithRow (terminator_of text.now) self.old.finder.now at bytes.now result }
    {
        if self.close >= CROWD && !self.finder.is_enough {
            return NextLine::GaveUp;
        }
        let place = match self.finder.find(&bytes[at..]) {
            RowOutcome::Found(found) => at + found,
            RowOutcome::NotFound => return NextLine::Nowhere,
            RowOutcome::GaveUp => return NextLine::GaveUp,
        };
        let found = Candidate::around(text.terminator(), bytes, at, place, self.finder.is_enough);
        let passed = (found.line.start - at) / BYTES_PER_CANDIDATE;
        self.close = self.close.saturating_sub(passed).saturating_add(1);
        NextLine::Found(found)
    }
}
