//! What was found in the patterns of a query.
ghost use Rattle.std.specs.Prelude.{◌≡◌, ◌<◌, ℕ, List, length, map, All, IfOk, IfSome, IsTrue};
ghost use Rattle.std.specs.List.{AllZip};
ghost use Rattle.pg_grammar.specs.Grammar.{Spells};
ghost use Rattle.pg_pattern.specs.Trees.{pattern};
ghost use Rattle.pg_selection.specs.Search.{SearchText, AreTreesOf, Fixed, patterns};
ghost use Rattle.pg_blocks.specs.Lines.{IsLine};
ghost use Rattle.pg_grammar.specs.Slices.{bytes_of};
ghost use Rattle.pg_literal.specs.Literals.{as_searched};
ghost use Rattle.pg_prefilter.specs.Fixed.{AreFixed};
ghost use Rattle.pg_prefilter.specs.Literals.{AreLiterals, IsRowOf, TellHeads, data_of};
ghost use Rattle.pg_strings.specs.Outcomes.{strings_of};
ghost use Rattle.pg_prefilter.specs.Strings.{AreNonEmpty, HitsIgnoreFront, IsTextReach, IsSetOf, IsSuffixOf};
ghost use Rattle.pg_prefilter.specs.Prefilters.{IsPrefilterOf};

use crate::fixed::{have_empty, string_literals, with_bytes};
use crate::literal_set::{LiteralSet, few_of, has_empty};
use pg_literal::{FEW_TEXTS, LineSuffix, Literal, RowFinder, are_strings, looks_behind, reach};
use pg_pattern::{Bounds, Tree};
use pg_selection::QueryText;
use pg_strings::StringSet;
use std::alloc::{AllocError, Allocator, Global};

/// What was found in the patterns of a query, by which lines are judged before the automaton is asked.
pub struct Prefilter<A: Allocator = Global> {
    /// A few literals, if there are few.
    pub(crate) literals: Vec<Literal<A>, A>,
    /// All literals, if there are many.
    pub(crate) literal_set: Option<LiteralSet<A>>,
    /// The patterns with a byte, if parts of lines are asked for, the patterns are plain, more than 8, and some of them
    /// empty, and case isn't folded.
    non_empty: Option<StringSet<A>>,
    /// The suffix that each match is, if there is one.
    suffix: Option<LineSuffix<A>>,
    /// What stands before a place of a line doesn't matter to the matches behind it.
    ignores_front: bool,
    /// How many bytes at most a match needs from where it begins, if any match counts and such a bound is known.
    reach: Option<usize>,
    /// A row that stands in each line with a hit, if one is known that is rare.
    row: Option<RowFinder<A>>,
}

impl<A: Allocator> Drop for Prefilter<A> {
    fn drop(self) {
        let Prefilter {
            literals: _,
            literal_set: _,
            non_empty: _,
            suffix: _,
            ignores_front: _,
            reach: _,
            row: _,
        } = self;
    }
}

impl<A: Allocator> Prefilter<A> {
    /// What is found in a text's patterns, whose trees these are. A refused request for memory is the only error.
    pub fn of(alloc: A, text: &QueryText<A>, trees: &[Tree<A>]) -> Result<Prefilter<A>, AllocError>
    where
        A: Copy,
        requires trees { AreTreesOf text.now (map pattern trees.now) }
        ensures { IfOk result (IsPrefilterOf text.now) }
    {
        let literals = literals_of(alloc, text, trees)?;
        let is_fixed = are_strings(trees, text.fold);
        let literal_set = LiteralSet::of(alloc, &literals, is_fixed, text.bounds())?;
        let suffix = suffix_of(alloc, text, trees)?;
        let ignores_front = ignores_front(text, trees);
        let reach = reach_of(text, trees);
        let row = row_of(alloc, text, trees, &literals)?;
        Ok(Prefilter {
            literals: few_of(alloc, literals),
            literal_set,
            non_empty: None,
            suffix,
            ignores_front,
            reach,
            row,
        })
    }

    /// What is found in a text whose patterns are plain: fixed strings, or expressions without special bytes. It needs
    /// no trees. The strings are the patterns, all of them and in their order, as `pg_syntax::texts_of` gives them. A
    /// refused request for memory is the only error.
    pub fn of_strings(
        alloc: A,
        text: &QueryText<A>,
        strings: &[&[u8]],
    ) -> Result<Prefilter<A>, AllocError>
    where
        A: Copy,
        requires fixed { AreFixed text.now }
        requires strings { bytes_of strings.now ≡ patterns text.now.lists }
        ensures { IfOk result (IsPrefilterOf text.now) }
    {
        let literals = literals_of_strings(alloc, text, strings)?;
        let literal_set = LiteralSet::of(alloc, &literals, true, text.bounds())?;
        let non_empty = non_empty_of(alloc, text, strings)?;
        Ok(Prefilter {
            literals: few_of(alloc, literals),
            literal_set,
            non_empty,
            suffix: None,
            ignores_front: false,
            reach: None,
            row: None,
        })
    }

    /// At most 8 texts of which each line with a hit holds one; none where such texts weren't found, or there are more
    /// of them. With -i they are in lower case, as those lines are where they are searched for. Where a text is enough,
    /// each line that holds it has a hit.
    pub fn literals(&self) -> &[Literal<A>]
        ensures literals { (text : SearchText) → IsPrefilterOf text self.now
            → AreLiterals text (map data_of result.now) }
        ensures heads { (text : SearchText) → IsPrefilterOf text self.now → TellHeads text result.now }
    {
        &self.literals
    }

    /// The texts of which each line with a hit holds one, where there are more than 8, and whether they are all
    /// patterns.
    pub fn literal_set(&self) -> Option<&LiteralSet<A>>
        ensures { (text : SearchText) → IsPrefilterOf text self.now → IfSome result (λ set. IsSetOf text set.now) }
    {
        self.literal_set.as_ref()
    }

    /// The strings with a byte that the patterns spell, where parts of lines are asked for and some pattern is empty:
    /// then they alone tell which parts have a byte.
    pub fn non_empty(&self) -> Option<&StringSet<A>>
        ensures { (text : SearchText) → IsPrefilterOf text self.now
            → IfSome result (λ set. AreNonEmpty text (strings_of set.now)) }
    {
        self.non_empty.as_ref()
    }

    /// Whether the hits behind a place of a line are those of the rest of the line.
    pub fn ignores_front(&self) -> bool
        ensures { (text : SearchText) → IsPrefilterOf text self.now → IsTrue result → HitsIgnoreFront text }
    {
        self.ignores_front
    }

    /// How many bytes at most a match needs from where it begins: wherever a match begins, one ends within so many
    /// bytes, and each match is one by itself. `None` where such a bound isn't known, or not any match counts.
    pub fn reach(&self) -> Option<usize>
        ensures { (text : SearchText) → IsPrefilterOf text self.now → IfSome result (IsTextReach text) }
    {
        self.reach
    }

    /// The suffix that each match is, if there is one: then it alone judges lines.
    pub fn suffix(&self) -> Option<&LineSuffix<A>>
        ensures { (text : SearchText) → IsPrefilterOf text self.now
            → IfSome result (λ suffix. IsSuffixOf text suffix.now) }
    {
        self.suffix.as_ref()
    }

    /// A row that stands in each line with a hit, if one is known that is rare.
    fn row(&self) -> Option<&RowFinder<A>>
        ensures { (text : SearchText) → IsPrefilterOf text self.now → IfSome result (λ row. IsRowOf text row.now) }
    {
        self.row.as_ref()
    }

    /// A row that stands in each line with a hit, if it costs less to look for than the literals.
    pub fn first_row(&self) -> Option<&RowFinder<A>>
        ensures { (text : SearchText) → IsPrefilterOf text self.now → IfSome result (λ row. IsRowOf text row.now) }
    {
        let row = self.row()?;
        if row.is_first { Some(row) } else { None }
    }

    /// A row that stands in each line with a hit, if it costs as much to look for as the literals, or more. It may take
    /// the place of literals that stand in too many lines in vain.
    pub fn later_row(&self) -> Option<&RowFinder<A>>
        ensures { (text : SearchText) → IsPrefilterOf text self.now → IfSome result (λ row. IsRowOf text row.now) }
    {
        let row = self.row()?;
        if row.is_first { None } else { Some(row) }
    }
}

/// Texts of which each line with a hit holds one, where such are found.
fn literals_of<A: Allocator + Copy>(
    alloc: A,
    text: &QueryText<A>,
    trees: &[Tree<A>],
) -> Result<Vec<Literal<A>, A>, AllocError>
    requires trees { AreTreesOf text.now (map pattern trees.now) }
    ensures literals { IfOk result (λ literals. AreLiterals text.now (map data_of literals.items)) }
    ensures heads { IfOk result (λ literals. TellHeads text.now literals.items) }
    ensures exact { (fixed : List (List ℕ)) → AllZip (Spells Fixed text.now.fold) fixed (map pattern trees.now)
        → IfOk result (λ literals. 0 < length literals.items
        → map (λ literal. literal.text.items) literals.items ≡ map (as_searched text.now.fold) fixed) }
{
    let literals = Literal::of(alloc, trees, text.bounds(), text.fold)?;
    if are_within_lines(text.terminator(), &literals) {
        Ok(literals)
    } else {
        Ok(Vec::new(alloc))
    }
}

/// The literals of a text whose patterns are plain, and are these strings; none where one has the byte that ends a
/// line, or is empty and not any match counts, for each line holds the empty string.
fn literals_of_strings<A: Allocator + Copy>(
    alloc: A,
    text: &QueryText<A>,
    strings: &[&[u8]],
) -> Result<Vec<Literal<A>, A>, AllocError>
    requires fixed { AreFixed text.now }
    requires strings { bytes_of strings.now ≡ patterns text.now.lists }
    ensures literals { IfOk result (λ literals. AreLiterals text.now (map data_of literals.items)) }
    ensures heads { IfOk result (λ literals. TellHeads text.now literals.items) }
    ensures fixed { IfOk result (λ literals. 0 < length literals.items
        → map (λ literal. literal.text.items) literals.items
        ≡ map (as_searched text.now.fold) (patterns text.now.lists)) }
{
    let literals = string_literals(alloc, strings, text.bounds(), text.fold)?;
    let tell_nothing = text.bounds() != Bounds::Any && has_empty(&literals);
    if tell_nothing || !are_within_lines(text.terminator(), &literals) {
        return Ok(Vec::new(alloc));
    }
    Ok(literals)
}

/// The strings with a byte of a text whose patterns are plain, and are these strings: where parts of lines are asked
/// for, there are more than 8 strings, some of them empty, and case isn't folded.
fn non_empty_of<A: Allocator + Copy>(
    alloc: A,
    text: &QueryText<A>,
    strings: &[&[u8]],
) -> Result<Option<StringSet<A>>, AllocError>
    requires fixed { AreFixed text.now }
    requires strings { bytes_of strings.now ≡ patterns text.now.lists }
    ensures { IfOk result (λ found. IfSome found (λ set. AreNonEmpty text.now (strings_of set))) }
{
    if text.fold || !text.with_parts || strings.len() <= FEW_TEXTS || !have_empty(strings) {
        return Ok(None);
    }
    let set = StringSet::new(alloc, with_bytes(alloc, strings)?)?;
    Ok(Some(set))
}

/// The suffix that each match of a text's patterns is, whose trees these are, where there is one.
fn suffix_of<A: Allocator + Copy>(
    alloc: A,
    text: &QueryText<A>,
    trees: &[Tree<A>],
) -> Result<Option<LineSuffix<A>>, AllocError>
    requires trees { AreTreesOf text.now (map pattern trees.now) }
    ensures { IfOk result (λ found. IfSome found (IsSuffixOf text.now)) }
{
    LineSuffix::of(alloc, trees, text.bounds())
}

/// The finder of a row that stands in each line with a hit of a text's patterns, whose trees and literals these are,
/// where one is known that is rare.
fn row_of<A: Allocator + Copy>(
    alloc: A,
    text: &QueryText<A>,
    trees: &[Tree<A>],
    literals: &[Literal<A>],
) -> Result<Option<RowFinder<A>>, AllocError>
    requires trees { AreTreesOf text.now (map pattern trees.now) }
    ensures { IfOk result (λ found. IfSome found (IsRowOf text.now)) }
{
    RowFinder::of(
        alloc,
        trees,
        text.bounds(),
        text.fold,
        text.terminator(),
        literals,
    )
}

/// Whether what stands before a place of a line doesn't matter to the matches of a text's patterns behind it, whose
/// trees these are.
fn ignores_front<A: Allocator>(text: &QueryText<A>, trees: &[Tree<A>]) -> bool
    requires trees { AreTreesOf text.now (map pattern trees.now) }
    ensures { IsTrue result → HitsIgnoreFront text.now }
{
    !looks_behind(trees, text.bounds())
}

/// How many bytes at most a match of a text's patterns, whose trees these are, needs from where it begins, where any
/// match counts and such a bound is known.
fn reach_of<A: Allocator>(text: &QueryText<A>, trees: &[Tree<A>]) -> Option<usize>
    requires trees { AreTreesOf text.now (map pattern trees.now) }
    ensures { IfSome result (IsTextReach text.now) }
{
    match text.bounds() {
        Bounds::Any => reach(trees),
        Bounds::Word | Bounds::Whole => None,
    }
}

/// Whether no literal has the byte that ends a line.
fn are_within_lines<A: Allocator>(end: u8, literals: &[Literal<A>]) -> bool
    ensures { IsTrue result → All (λ literal. IsLine end literal.text.items) literals.now }
{
    literals.iter().all(|literal| !literal.text.contains(&end))
}
