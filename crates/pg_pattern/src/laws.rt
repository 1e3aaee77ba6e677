//! Laws of the definitions that contracts cite. They speak of all values, and a call does nothing.
ghost use Rattle.std.specs.Prelude.{◌≡◌, ℕ, List};
ghost use Rattle.pg_pattern.specs.Patterns.{Pattern};
ghost use Rattle.pg_pattern.specs.Hits.{IsNext};
ghost use Rattle.pg_pattern.specs.Tests.{TestsHits, TestsMatches};
ghost use Rattle.pg_pattern.specs.Parts.{AreParts, parts};
ghost use Rattle.pg_pattern.specs.declared.bounds.Bounds.{Bounds};

/// The tests of patterns and of lines tell which spans match, which of them are hits, and whether a line has one.
pub fn hits_are_decided()
    ensures matches { (pattern : Pattern) (line : List ℕ) → TestsMatches pattern line }
    ensures hits { (patterns : List Pattern) (bounds : Bounds) (line : List ℕ) → TestsHits patterns bounds line }
{}

/// A line has at most one next part from a place on.
pub fn next_part_is_one()
    ensures { (patterns : List Pattern) (bounds : Bounds) (line : List ℕ) (place i j i' j' : ℕ)
        → IsNext patterns bounds line place i j → IsNext patterns bounds line place i' j' → (i ≡ i') × (j ≡ j') }
{}

/// A line has matched parts, and no others than these.
pub fn parts_are_one()
    ensures exist { (patterns : List Pattern) (bounds : Bounds) (line : List ℕ)
        → AreParts patterns bounds line 0 (parts patterns bounds line) }
    ensures one { (patterns : List Pattern) (bounds : Bounds) (line : List ℕ) (found : List (ℕ × ℕ))
        → AreParts patterns bounds line 0 found → found ≡ parts patterns bounds line }
{}
