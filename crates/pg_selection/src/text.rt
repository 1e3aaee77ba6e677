//! What selects lines, as a query is compiled from it.
ghost use Rattle.std.specs.Prelude.{◌≡◌};
ghost use Rattle.pg_selection.specs.Search.{HasTrees, bounds_of, terminator_of};

use pg_blocks::NEWLINE;
use pg_grammar::{Kind, PatternList};
use pg_pattern::Bounds;
use std::alloc::{Allocator, Global};
use std::marker::Model;

/// What a query is compiled from: the patterns, and the options that say what they match.
pub struct QueryText<A: Allocator = Global> {
    pub kind: Kind,
    /// All -e texts in their order, then all -f files in theirs.
    pub lists: Vec<PatternList<A>, A>,
    /// -i: upper and lower case letters are the same.
    pub fold: bool,
    /// -x: only a whole line is matched, also with -w.
    pub whole: bool,
    /// -w: no letter, digit or `_` stands right before or behind a match.
    pub word: bool,
    /// -v: the lines that are otherwise not selected are selected.
    pub invert: bool,
    /// Whether the matched parts of lines are looked for: with -o, and where they are colored.
    pub with_parts: bool,
    /// -z: byte 0 ends a line, in place of newline.
    pub zero: bool,
}

impl<A: Allocator> Drop for QueryText<A> {
    fn drop(self) {
        let QueryText {
            kind: _,
            lists: _,
            fold: _,
            whole: _,
            word: _,
            invert: _,
            with_parts: _,
            zero: _,
        } = self;
    }
}

impl<A: Allocator> Model for QueryText<A> {
    ghost use Rattle.std.specs.Prelude.{map};
    ghost use Rattle.pg_selection.specs.Search.{SearchText};

    ghost Value = { SearchText };

    ghost use Rattle.pg_grammar.specs.Memory.{patterns_of};

    ghost view = { λ t. record {
      kind = t.kind;
      lists = map patterns_of t.lists.items;
      fold = t.fold;
      whole = t.whole;
      word = t.word;
      invert = t.invert;
      with_parts = t.with_parts;
      zero = t.zero;
    } };
}

impl<A: Allocator> QueryText<A> {
    /// Where a match may begin and end.
    pub fn bounds(&self) -> Bounds
        ensures { result ≡ bounds_of self.now }
    {
        if self.whole {
            Bounds::Whole
        } else if self.word {
            Bounds::Word
        } else {
            Bounds::Any
        }
    }

    /// The byte that ends a line.
    pub fn terminator(&self) -> u8
        ensures { result ≡ terminator_of self.now }
    {
        if self.zero { 0 } else { NEWLINE }
    }
}

/// The text of a query each of whose patterns is an expression of its kind, so that each line is either selected or
/// not. Contracts see it as its text.
pub struct Selector<A: Allocator = Global> {
    text: QueryText<A>,
}

impl<A: Allocator> Drop for Selector<A> {
    fn drop(self) {
        let Selector { text: _ } = self;
    }
}

impl<A: Allocator> Model for Selector<A> {
    ghost use Rattle.pg_selection.specs.Search.{SearchText, HasTrees};

    ghost Value = { SearchText };

    ghost view = { λ s. s.text };

    ghost invariant = { λ s. HasTrees s.text };
}

impl<A: Allocator> Selector<A> {
    /// The selector of a text. Each of its patterns is an expression of its kind.
    pub fn new(text: QueryText<A>) -> Selector<A>
        requires spelled { HasTrees text }
        ensures { result ≡ text }
    {
        Selector { text }
    }

    /// The patterns and options. Each of the patterns is an expression of its kind.
    pub fn text(&self) -> &QueryText<A>
        ensures text { result.now ≡ self.now }
        ensures spelled { HasTrees self.now }
    {
        &self.text
    }

    /// The byte that ends a line.
    pub fn terminator(&self) -> u8
        ensures { result ≡ terminator_of self.now }
    {
        self.text.terminator()
    }
}
