//! Lists of patterns.
ghost use Rattle.std.specs.Cmp.{on_equiv, on_per, partial_equiv_from_equiv};

use std::alloc::{Allocator, Global};

/// The syntax of the patterns (XCU grep, -E and -F).
#[derive(Clone, Copy, Debug, PartialEq, Eq)]
pub enum Kind {
    /// Basic regular expressions (XBD 9.3).
    Basic,
    /// Extended regular expressions (XBD 9.4).
    Extended,
    /// Fixed strings.
    Fixed,
}

/// Patterns that came together.
#[derive(Drop)]
pub enum PatternList<A: Allocator = Global> {
    /// A text, as that of -e: each newline in it separates two patterns.
    Text(Vec<u8, A>),
    /// The bytes of a file, as that of -f: each of its lines is a pattern.
    Lines(Vec<u8, A>),
}

impl<A: Allocator> PartialEq for PatternList<A> {
    ghost use Rattle.pg_grammar.specs.Memory.{patterns_of};
    ghost use Rattle.pg_grammar.specs.Same.{same_patterns, same_patterns-laws};

    ghost eq = { λ a b. same_patterns (patterns_of a) (patterns_of b) };

    ghost laws = { on_per patterns_of (partial_equiv_from_equiv same_patterns-laws) };

    fn eq(&self, other: &Self) -> bool {
        match (self, other) {
            (PatternList::Text(a), PatternList::Text(b)) => a.as_slice() == b.as_slice(),
            (PatternList::Lines(a), PatternList::Lines(b)) => a.as_slice() == b.as_slice(),
            _ => false,
        }
    }
}

impl<A: Allocator> Eq for PatternList<A> {
    ghost use Rattle.pg_grammar.specs.Memory.{patterns_of};
    ghost use Rattle.pg_grammar.specs.Same.{same_patterns-laws};

    ghost laws = { on_equiv patterns_of same_patterns-laws };
}
