//! Whether a line with a hit may stand among some bytes.
ghost use Rattle.std.specs.Prelude.{◌≡◌, ◌<◌, ℕ, List, false, length};
ghost use Rattle.std.specs.List.{All};
ghost use Rattle.memchr.specs.Find.{OccursAt, Nowhere};
ghost use Rattle.pg_strings.specs.Sets.{SomeStands};
ghost use Rattle.pg_strings.specs.Outcomes.{strings_of};
ghost use Rattle.pg_literal.specs.Literals.{as_searched};
ghost use Rattle.pg_selection.specs.Search.{Pattern, AreTreesOf, search_of, uninverted};
ghost use Rattle.pg_selection.specs.Runs.{AllLines};
ghost use Rattle.pg_prefilter.specs.Prefilters.{IsPrefilterOf};

use crate::literal_set::LiteralSet;
use crate::prefilter::Prefilter;
use memchr::memmem::Finder;
use pg_literal::Literal;
use pg_selection::QueryText;
use pg_strings::Outcome;
use std::alloc::Allocator;

/// Whether some literal stands among bytes.
fn some_stands<A: Allocator>(literals: &[Literal<A>], searched: &[u8]) -> bool
    ensures { result ≡ false
        → All (λ literal. (place : ℕ) → OccursAt searched.now literal.text.items place → ⊥) literals.now }
{
    for literal in literals {
        if Finder::new(&literal.text).find(searched).is_some() {
            return true;
        }
    }
    false
}

/// Whether one of many literals stands among bytes, or to look for them takes too long.
fn may_stand<A: Allocator>(set: &LiteralSet<A>, searched: &[u8]) -> bool
    ensures { result ≡ false
        → Nowhere (SomeStands (strings_of set.now.strings) searched.now) 0 (length searched.now) }
{
    let mut budget = set.block_budget();
    match set.strings.find(searched, 0, &mut budget) {
        Outcome::NotFound => false,
        Outcome::Found(_) | Outcome::GaveUp(_) => true,
    }
}

impl<A: Allocator> Prefilter<A> {
    /// Whether it has literals.
    pub fn has_literals(&self) -> bool {
        self.literal_set.is_some() || !self.literals.is_empty()
    }

    /// Whether a line of some bytes, at least one, may have a hit, as the literals tell: false where none of them
    /// stands among the bytes. The bytes are given as literals are looked for in them: where case is folded, in lower
    /// case. Where there are no literals, and where to look for many of them takes too long, the answer is true. The
    /// text is the one that the prefilter was found in.
    pub fn may_hold(&self, text: &QueryText<A>, searched: &[u8]) -> bool
        requires found { IsPrefilterOf text.now self.now }
        requires bytes { 0 < length searched.now }
        ensures { result ≡ false → (bytes : List ℕ) → searched.now ≡ as_searched text.now.fold bytes
            → (trees : List Pattern) → AreTreesOf text.now trees
            → AllLines (search_of (uninverted text.now) trees) false bytes }
    {
        match &self.literal_set {
            Some(set) => may_stand(set, searched),
            None => self.literals.is_empty() || some_stands(&self.literals, searched),
        }
    }
}
