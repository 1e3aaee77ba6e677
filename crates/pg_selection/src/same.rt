//! What selects lines is compared by its patterns and options.
ghost use Rattle.std.specs.Cmp.{partial_equiv_from_equiv};

use crate::text::{QueryText, Selector};
use std::alloc::Allocator;

impl<A: Allocator> PartialEq for QueryText<A> {
    ghost use Rattle.pg_selection.specs.Same.{same_text, same_text-laws};

    ghost eq = { same_text };

    ghost laws = { partial_equiv_from_equiv same_text-laws };

    fn eq(&self, other: &Self) -> bool {
        let kind = self.kind == other.kind;
        let lists = self.lists == other.lists;
        let fold = self.fold == other.fold;
        let whole = self.whole == other.whole;
        let word = self.word == other.word;
        let invert = self.invert == other.invert;
        let with_parts = self.with_parts == other.with_parts;
        let zero = self.zero == other.zero;
        kind & lists & fold & whole & word & invert & with_parts & zero
    }
}

impl<A: Allocator> Eq for QueryText<A> {
    ghost use Rattle.pg_selection.specs.Same.{same_text-laws};

    ghost laws = { same_text-laws };
}

impl<A: Allocator> PartialEq for Selector<A> {
    ghost use Rattle.pg_selection.specs.Same.{same_text, same_text-laws};

    ghost eq = { same_text };

    ghost laws = { partial_equiv_from_equiv same_text-laws };

    fn eq(&self, other: &Self) -> bool {
        self.text() == other.text()
    }
}

impl<A: Allocator> Eq for Selector<A> {
    ghost use Rattle.pg_selection.specs.Same.{same_text-laws};

    ghost laws = { same_text-laws };
}
