//! What judges lines before the automaton: the strings of a query whose patterns are all fixed strings, or spell what
//! such strings do, a text that stands near where each match begins, or a suffix of lines that each match is.
ghost use Rattle.std.specs.Prelude.{◌≡◌, ◌↔◌, ◌<◌, ◌≤◌, List, ℕ, length, map, IfSome, IsTrue};
ghost use Rattle.pg_strings.specs.Outcomes.{strings_of};
ghost use Rattle.pg_selection.specs.Search.{SearchText, Pattern, Bounds, AreTreesOf, bounds_of};
ghost use Rattle.pg_prefilter.specs.Literals.{AreLiterals, TellHeads, data_of};
ghost use Rattle.pg_literal.specs.Literals.{as_searched};
ghost use Rattle.pg_literal.specs.Suffixes.{IsSuffix, suffix_row};
ghost use Rattle.pg_prefilter.specs.Strings.{FindsString, FindsPart, IsNear, IsTextReach, JudgesLine};
ghost use Rattle.pg_prefilter.specs.Strings.{first_judge, of_all};
ghost use Rattle.pg_prefilter.specs.declared.strings.LineJudge.TheVariants.{Nothing};

use memchr::memmem::Finder;
use pg_blocks::Span;
use pg_literal::{LineSuffix, Literal};
use pg_pattern::Bounds;
use pg_selection::QueryText;
use pg_strings::{Budget, Outcome, Rate, StringSet};
use std::alloc::Allocator;

/// What the search of one line may spend on comparing strings, beyond what the bytes that are passed add. It is little,
/// since a line in which comparing takes long spends it in vain before the automaton judges it.
const LINE_BUDGET: usize = 128;

/// What the search for the next string of a line came to.
#[derive(Clone, Copy)]
pub enum NextString {
    /// Where it stands in the line.
    Found(Span),
    /// There is none.
    Nowhere,
    /// There is none with a byte.
    OnlyEmpty,
    /// It doesn't begin before this place, and isn't empty.
    Behind(usize),
    /// To look for strings takes too long here, or there are none to look for.
    GaveUp,
}

/// A text that stands in each match, or near where it begins: at most `before` bytes behind that.
#[derive(Drop)]
pub struct NearText<'s> {
    finder: Finder<'s>,
    before: usize,
}

/// What judges a line before the automaton does.
pub enum LineJudge<'s, A: Allocator> {
    /// The strings that the patterns of a query spell, where each of these is bytes one behind the other.
    Strings(&'s StringSet<A>),
    /// Of such strings those with a byte, where case isn't folded. What the others match has none.
    NonEmpty(&'s StringSet<A>),
    /// The suffix of a line that each match is.
    Suffix(&'s LineSuffix<A>),
    /// A text that stands near where each match begins.
    Near(NearText<'s>),
    /// Nothing: the automaton alone is asked.
    Nothing,
}

impl<'s, A: Allocator> Drop for LineJudge<'s, A> {
    fn drop(self) {
        match self {
            LineJudge::Strings(_) => {}
            LineJudge::NonEmpty(_) => {}
            LineJudge::Suffix(_) => {}
            LineJudge::Near(_) => {}
            LineJudge::Nothing => {}
        }
    }
}

/// What judges the lines of a block, and the block's bytes as it needs them.
pub struct BlockJudge<'s, A: Allocator> {
    judge: LineJudge<'s, A>,
    /// The block's bytes in which strings and a text are looked for, in lower case where case is folded.
    searched: &'s [u8],
}

impl<'s, A: Allocator> Drop for BlockJudge<'s, A> {
    fn drop(self) {
        let BlockJudge {
            judge: _,
            searched: _,
        } = self;
    }
}

/// The first string from a place of a line on, and of those that start there the longest, where a match may begin and
/// end.
// There is one for each kind of bounds, so that the other asks nothing of the bytes around a string.
#[inline(always)]
fn next_standing<A: Allocator>(
    set: &StringSet<A>,
    bounds: Bounds,
    line: &[u8],
    from: usize,
) -> NextString
    requires { from ≤ length line.now }
    ensures { FindsString (strings_of set.now) bounds line.now from result }
{
    let mut budget = Budget {
        left: LINE_BUDGET,
        rate: Rate::High,
    };
    let start = match set.find_hit(bounds, line, from, &mut budget) {
        Outcome::Found(place) => place,
        Outcome::NotFound => return NextString::Nowhere,
        Outcome::GaveUp(_) => return NextString::GaveUp,
    };
    match set.longest_at(bounds, line, start) {
        Some(len) => NextString::Found(Span {
            start,
            end: start + len,
        }),
        None => NextString::Nowhere,
    }
}

/// The whole line, if it is one of the strings and the search begins at its start.
fn whole_line<A: Allocator>(set: &StringSet<A>, line: &[u8], from: usize) -> NextString
    ensures { FindsString (strings_of set.now) Bounds.Whole line.now from result }
{
    if from == 0 && set.contains(line) {
        NextString::Found(Span {
            start: 0,
            end: line.len(),
        })
    } else {
        NextString::Nowhere
    }
}

/// The next string of a line, as the bounds ask for it.
fn next_string<A: Allocator>(
    set: &StringSet<A>,
    bounds: Bounds,
    line: &[u8],
    from: usize,
) -> NextString
    requires { from ≤ length line.now }
    ensures { FindsString (strings_of set.now) bounds line.now from result }
{
    match bounds {
        Bounds::Whole => whole_line(set, line, from),
        Bounds::Any => next_standing(set, Bounds::Any, line, from),
        Bounds::Word => next_standing(set, Bounds::Word, line, from),
    }
}

/// What was found of all strings, where only those with a byte were looked for.
fn of_all(found: NextString) -> NextString
    ensures { result ≡ of_all found }
{
    match found {
        NextString::Found(span) => NextString::Found(span),
        NextString::Nowhere | NextString::OnlyEmpty => NextString::OnlyEmpty,
        NextString::Behind(_) | NextString::GaveUp => NextString::GaveUp,
    }
}

/// The match of a line, from a place on, whose matches are a suffix.
fn next_suffix<A: Allocator>(suffix: &LineSuffix<A>, line: &[u8], from: usize) -> NextString
    ensures { (trees : List Pattern) (bounds : Bounds) → IsSuffix trees bounds (suffix_row suffix.now)
        → FindsPart trees bounds line.now from result }
{
    let Some(start) = suffix.find(line) else {
        return NextString::Nowhere;
    };
    if start < from {
        return NextString::Nowhere;
    }
    NextString::Found(Span {
        start,
        end: line.len(),
    })
}

/// A place of a line, at or behind `from`, before which no match begins, as the next place of the text that stands near
/// where each begins tells; or that there is none. The line is given as it is searched.
fn next_near(near: &NearText<'_>, line: &[u8], from: usize) -> NextString
    requires { from ≤ length line.now }
    ensures { (text : SearchText) → IsNear text near.now.finder near.now.before
        → (own : List ℕ) → line.now ≡ as_searched text.fold own → (trees : List Pattern) → AreTreesOf text trees
        → FindsPart trees (bounds_of text) own from result }
{
    match near.finder.find(&line[from..]) {
        Some(place) => {
            let first = (from + place).saturating_sub(near.before);
            NextString::Behind(from.max(first))
        }
        None => NextString::Nowhere,
    }
}

/// The text that stands near where each match of a query begins, if the query has but this literal. Where parts of
/// lines are asked for, that is one that each match begins with, or one within as many bytes as a match needs from
/// where it begins, if that is known. Where they aren't, it is but the former, and only if the rest of a line tells
/// whether it has a hit, since what stands before it is ignored. Else a line is judged faster by the automaton alone,
/// which needn't find where a match ends. The literals and the reach are those that were found in the text.
pub fn near_text<'l, A: Allocator>(
    text: &QueryText<A>,
    literals: &'l [Literal<A>],
    ignores_front: bool,
    reach: Option<usize>,
) -> Option<NearText<'l>>
    requires heads { TellHeads text.now literals.now }
    requires literals { AreLiterals text.now (map data_of literals.now) }
    requires reach { IfSome reach (IsTextReach text.now) }
    ensures near { IfSome result (λ near. IsNear text.now near.finder near.before) }
    ensures some { IfSome result (λ _. 0 < length literals.now) }
{
    if literals.len() != 1 {
        return None;
    }
    let needle = &literals[0].text;
    let has_parts = text.with_parts && !text.invert;
    if literals[0].is_head && (has_parts || ignores_front) {
        return Some(NearText {
            finder: Finder::new(needle),
            before: 0,
        });
    }
    if !has_parts || needle.is_empty() {
        return None;
    }
    let before = reach?.checked_sub(needle.len())?;
    Some(NearText {
        finder: Finder::new(needle),
        before,
    })
}

impl<'s, A: Allocator> LineJudge<'s, A> {
    /// The first judge that is given: the strings, those with a byte, the suffix, the near text; or nothing. The near
    /// text comes last: it tells where no match begins, and not where one does.
    pub fn first_of(
        set: Option<&'s StringSet<A>>,
        non_empty: Option<&'s StringSet<A>>,
        suffix: Option<&'s LineSuffix<A>>,
        near: Option<NearText<'s>>,
    ) -> LineJudge<'s, A>
        ensures { result ≡ first_judge set.entry non_empty.entry suffix.entry near.entry }
    {
        if let Some(set) = set {
            return LineJudge::Strings(set);
        }
        if let Some(set) = non_empty {
            return LineJudge::NonEmpty(set);
        }
        if let Some(suffix) = suffix {
            return LineJudge::Suffix(suffix);
        }
        match near {
            Some(near) => LineJudge::Near(near),
            None => LineJudge::Nothing,
        }
    }
}

impl<'s, A: Allocator> BlockJudge<'s, A> {
    /// Judges the lines of a block so. `searched` has the block's bytes as they are searched.
    pub fn new(judge: LineJudge<'s, A>, searched: &'s [u8]) -> BlockJudge<'s, A>
        ensures judge { result.judge ≡ judge.entry }
        ensures searched { result.searched.now ≡ searched.now }
    {
        BlockJudge { judge, searched }
    }

    /// Nothing to look for: the automaton alone is asked.
    pub fn none() -> BlockJudge<'s, A>
        ensures { result.judge ≡ Nothing }
    {
        BlockJudge {
            judge: LineJudge::Nothing,
            searched: &[],
        }
    }

    /// Whether there is nothing to look for before the automaton is asked.
    pub fn is_nothing(&self) -> bool
        ensures { IsTrue result ↔ (self.now.judge ≡ Nothing) }
    {
        matches!(&self.judge, LineJudge::Nothing)
    }

    /// Whether there is but a text that stands near where each match begins.
    pub fn is_near_text(&self) -> bool {
        matches!(&self.judge, LineJudge::Near(_))
    }

    /// Of a line that stands at a place of the block the next match from a place of the line on, or from its end. The
    /// strings are the text's, and the block's bytes are those that they were made with.
    pub fn next_part(&self, text: &QueryText<A>, line: &[u8], at: usize, from: usize) -> NextString
        requires line { JudgesLine text.now self.now line.now at }
        requires from { from ≤ length line.now }
        ensures { (trees : List Pattern) → AreTreesOf text.now trees
            → FindsPart trees (bounds_of text.now) line.now from result }
    {
        match &self.judge {
            LineJudge::Strings(set) => {
                let searched = &self.searched[at..at + line.len()];
                next_string(set, text.bounds(), searched, from)
            }
            LineJudge::NonEmpty(set) => of_all(next_string(set, text.bounds(), line, from)),
            LineJudge::Suffix(suffix) => next_suffix(suffix, line, from),
            LineJudge::Near(near) => next_near(near, &self.searched[at..at + line.len()], from),
            LineJudge::Nothing => NextString::GaveUp,
        }
    }
}
