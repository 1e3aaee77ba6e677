//! What lines with a hit hold, as it is looked for in a block.
ghost use Rattle.std.specs.Prelude.{◌≡◌, ◌↔◌, ◌<◌, ◌≤◌, ℕ, List, [], length, map, false, None, Some};
ghost use Rattle.std.specs.Prelude.{IfNone, IfOk, IfSome, IsSome, IsTrue};
ghost use Rattle.pg_prefilter.specs.declared.needles.Needles.TheVariants.{GivenUp, Row};
ghost use Rattle.pg_literal.specs.Literals.{as_searched};
ghost use Rattle.pg_selection.specs.Search.{SearchText};
ghost use Rattle.pg_prefilter.specs.Literals.{AreLiterals, IsRowOf, data_of, literals_given, set_literals};
ghost use Rattle.pg_prefilter.specs.Candidates.{AreNeedles, AreSome, IsNextSought, literals_behind, literals_sought};
ghost use Rattle.pg_prefilter.specs.Candidates.{row_sought};

use crate::candidate::NextLine;
use crate::literal_needles::LiteralNeedles;
use crate::literal_set::LiteralSet;
use crate::needle_row::NeedleRow;
use pg_literal::{Literal, RowFinder};
use pg_selection::QueryText;
use std::alloc::{AllocError, Allocator};
use std::mem;

/// It takes as long to look at a line that holds a needle as to search so many bytes line by line.
pub const BYTES_PER_CANDIDATE: usize = 128;

/// What lines with a hit hold, as it is looked for in a block: literals, a row of sets, or nothing any more.
pub enum Needles<'n, A: Allocator> {
    Literals(LiteralNeedles<'n, A>),
    Row(NeedleRow<'n, A>),
    /// They stood in too many lines in vain.
    GivenUp,
    /// To compare them with the text takes too long, in single lines as in the block, or the row stands in too many
    /// lines.
    TooSlow,
}

impl<'n, A: Allocator> Drop for Needles<'n, A> {
    fn drop(self) {
        match self {
            Needles::Literals(_) => {}
            Needles::Row(_) => {}
            Needles::GivenUp => {}
            Needles::TooSlow => {}
        }
    }
}

impl<'n, A: Allocator> Needles<'n, A> {
    /// A row, if there is one, whose place literals may take; else the needles of a set of literals, if there is one,
    /// else those of a few literals. They are needles of the text in which these were found. A refused request for
    /// memory is the only error.
    pub fn new(
        alloc: A,
        literals: &'n [Literal<A>],
        set: Option<&'n LiteralSet<A>>,
        row: Option<&'n RowFinder<A>>,
        searched: &'n [u8],
    ) -> Result<Needles<'n, A>, AllocError>
        ensures row { IfSome row.entry (λ row. IfOk result (λ needles. (row_sought needles ≡ Some row.now)
            × (literals_behind needles ≡ literals_given set.entry literals.now))) }
        ensures literals { IfNone row.entry
            (IfOk result (λ needles. literals_sought needles ≡ literals_given set.entry literals.now)) }
        ensures needles { (text : SearchText) → (bytes : List ℕ) → AreLiterals text (map data_of literals.now)
            → IfSome set.entry (λ set. AreLiterals text (set_literals set.now))
            → IfSome row.entry (λ row. IsRowOf text row.now)
            → (0 < length literals.now → searched.now ≡ as_searched text.fold bytes)
            → IfSome set.entry (λ _. searched.now ≡ as_searched text.fold bytes)
            → IfOk result (AreNeedles text bytes 0) }
    {
        let literals = LiteralNeedles::new(alloc, literals, set, searched)?;
        match row {
            Some(row) => Ok(Needles::Row(NeedleRow::new(row, Some(literals)))),
            None => Ok(Needles::Literals(literals)),
        }
    }

    /// Whether there is none.
    pub fn is_empty(&self) -> bool
        ensures { result ≡ false → AreSome self.now }
    {
        match self {
            Needles::Literals(literals) => literals.is_empty(),
            Needles::Row(_) => false,
            Needles::GivenUp | Needles::TooSlow => true,
        }
    }

    /// Whether to compare them with the text takes too long.
    pub fn are_too_slow(&self) -> bool {
        match self {
            Needles::TooSlow => true,
            Needles::Literals(_) | Needles::Row(_) | Needles::GivenUp => false,
        }
    }

    /// The row that they are, if they are one.
    fn into_row(self) -> Option<NeedleRow<'n, A>>
        ensures row { IfSome result (λ row. self.entry ≡ Row row) }
        ensures none { IfNone result (literals_behind self.entry ≡ []) }
    {
        match self {
            Needles::Row(row) => Some(row),
            Needles::Literals(_) | Needles::GivenUp | Needles::TooSlow => None,
        }
    }

    /// Gives up a row, and falls back to its literals, if it has some. Tells whether it has.
    pub fn fall_back(&mut self) -> bool
        ensures needles { (text : SearchText) (bytes : List ℕ) (at : ℕ)
            → AreNeedles text bytes at self.old → AreNeedles text bytes at self.new }
        ensures some { IsTrue result → AreSome self.new }
        ensures literals { IsTrue result → literals_sought self.new ≡ literals_behind self.old }
        ensures row { IsTrue result → IsSome (row_sought self.old) × (row_sought self.new ≡ None) }
        ensures none { result ≡ false → (self.new ≡ GivenUp) × (literals_behind self.old ≡ []) }
    {
        let Some(row) = mem::replace(self, Needles::GivenUp).into_row() else {
            return false;
        };
        let Some(literals) = row.into_literals() else {
            return false;
        };
        if literals.is_empty() {
            return false;
        }
        *self = Needles::Literals(literals);
        true
    }

    /// Gives them up, since they stood in too many lines in vain: the literals of a row take its place, and that of
    /// literals the row that is given, if there is one. Tells whether something does. The row is one that was found in
    /// the query's text.
    pub fn give_up(&mut self, row: Option<&'n RowFinder<A>>) -> bool
        ensures needles { (text : SearchText) (bytes : List ℕ) (at : ℕ)
            → AreNeedles text bytes at self.old → IfSome row.entry (λ row. IsRowOf text row.now)
            → AreNeedles text bytes at self.new }
        ensures some { IsTrue result → AreSome self.new }
        ensures literals { IsTrue result → literals_sought self.new ≡ literals_behind self.old }
        ensures row { IsTrue result → IsSome (row_sought self.old) ↔ (row_sought self.new ≡ None) }
        ensures given { IfSome row.entry
            (λ row. 0 < length (literals_sought self.old) → row_sought self.new ≡ Some row.now) }
        ensures none { result ≡ false → (self.new ≡ GivenUp) × (literals_behind self.old ≡ []) }
    {
        match row {
            Some(row) if matches!(self, Needles::Literals(_)) => {
                *self = Needles::Row(NeedleRow::new(row, None));
                true
            }
            _ => self.fall_back(),
        }
    }

    /// The first line at or behind a place of a block, or its end, that holds one of the literals, or the row, that
    /// they are of. They are needles of the text in the block, as they are from that place on, some of them, and not
    /// given up.
    pub fn next_line(&mut self, text: &QueryText<A>, bytes: &[u8], at: usize) -> NextLine
        requires at { at ≤ length bytes.now }
        requires needles { AreNeedles text.now bytes.now at self.old }
        requires some { AreSome self.old }
        ensures needles { AreNeedles text.now bytes.now at self.new }
        ensures some { AreSome self.new }
        ensures literals { literals_sought self.new ≡ literals_sought self.old }
        ensures row { row_sought self.new ≡ row_sought self.old }
        ensures behind { literals_behind self.new ≡ literals_behind self.old }
        ensures next { IsNextSought text.now self.new at bytes.now result }
    {
        match self {
            Needles::Literals(literals) => literals.next_line(text, bytes, at),
            Needles::Row(row) => row.next_line(text, bytes, at),
            Needles::GivenUp | Needles::TooSlow => NextLine::GaveUp,
        }
    }
}
