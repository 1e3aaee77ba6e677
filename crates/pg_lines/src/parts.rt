//! The matched parts of selected lines.
ghost use Rattle.std.specs.Prelude.{◌≡◌, ◌+◌, ◌<◌, ◌≤◌, ◌^◌, ◌++◌, ◌∷◌, [], OnOk, List, ℕ, length, map, true};
ghost use Rattle.std.specs.Prelude.{if◌then◌else◌, slice_range, IfSome, MatchOption};
ghost use Rattle.pg_pattern.specs.Hits.{HasNoNext, IsNext};
ghost use Rattle.pg_match.specs.Machines.{Fits};
ghost use Rattle.pg_blocks.specs.Lines.{lines};
ghost use Rattle.pg_selection.specs.Search.{Pattern, AreTreesOf, bounds_of, search_of, terminator_of};
ghost use Rattle.pg_selection.specs.Selection.{selects, parts_of_line};
ghost use Rattle.pg_selection.specs.BlockParts.{part_at};
ghost use Rattle.pg_prefilter.specs.Strings.{IsBlockJudge, FindsPart, JudgesLine};

use crate::query::Query;
use pg_blocks::{Span, text_of};
use pg_match::Scratch;
use pg_prefilter::{BlockJudge, NextString};
use pg_selection::Part;
use std::alloc::{AllocError, Allocator};

/// Of a line that stands at a place in its block the next match from a place of the line on, or from its end, as far as
/// what judges the block's lines can tell.
pub(crate) fn next_by_judge<A: Allocator>(
    query: &Query<A>,
    judge: &BlockJudge<'_, A>,
    line: &[u8],
    at: usize,
    from: usize,
) -> NextString
    requires line { JudgesLine query.now.text judge.now line.now at }
    requires from { from ≤ length line.now }
    ensures { (trees : List Pattern) → AreTreesOf query.now.text trees
        → FindsPart trees (bounds_of query.now.text) line.now from result }
{
    judge.next_part(query.text(), line, at, from)
}

/// The next matched part of a line that stands at a place in its block: by what judges the block's lines, or, where
/// that can't tell, by the query's automaton, from where a match may begin.
fn next_part<A: Allocator>(
    query: &Query<A>,
    judge: &BlockJudge<'_, A>,
    scratch: &mut Scratch<A>,
    line: &[u8],
    at: usize,
    from: usize,
) -> Option<(usize, usize)>
    requires fits { Fits scratch.old query.now.machine }
    requires short { length line.now ≤ 2 ^ 30 }
    requires line { JudgesLine query.now.text judge.now line.now at }
    requires from { from ≤ length line.now }
    ensures fits { Fits scratch.new query.now.machine }
    ensures within { IfSome result (λ part. (from ≤ part.0) × (part.0 < part.1) × (part.1 ≤ length line.now)) }
    ensures next { (trees : List Pattern) → AreTreesOf query.now.text trees
        → MatchOption result (HasNoNext trees (bounds_of query.now.text) line.now from)
        (λ part. IsNext trees (bounds_of query.now.text) line.now from part.0 part.1) }
{
    let machine = query.machine();
    match next_by_judge(query, judge, line, at, from) {
        NextString::Found(part) => Some((part.start, part.end)),
        NextString::Nowhere => None,
        NextString::OnlyEmpty => None,
        NextString::Behind(place) => machine.next_part(scratch, line, place),
        NextString::GaveUp => machine.next_part(scratch, line, from),
    }
}

/// Keeps the matched parts of a line that stands at a place in its block, behind some lines.
fn push_parts<A: Allocator>(
    query: &Query<A>,
    judge: &BlockJudge<'_, A>,
    scratch: &mut Scratch<A>,
    line: &[u8],
    at: usize,
    number: usize,
    found: &mut Vec<Part, A>,
) -> Result<(), AllocError>
    requires fits { Fits scratch.old query.now.machine }
    requires short { length line.now ≤ 2 ^ 30 }
    requires within { at + length line.now < 2 ^ 63 }
    requires line { JudgesLine query.now.text judge.now line.now at }
    ensures fits { Fits scratch.new query.now.machine }
    ensures parts { (trees : List Pattern) → AreTreesOf query.now.text trees → OnOk result (found.new.items
        ≡ found.old.items ++ map (part_at at number) (parts_of_line (search_of query.now.text trees) line.now)) }
{
    let mut place = 0;
    while let Some((start, end)) = next_part(query, judge, scratch, line, at, place) {
        let span = Span {
            start: at + start,
            end: at + end,
        };
        found.push(Part { line: number, span })?;
        place = end;
    }
    Ok(())
}

/// Keeps the matched parts of a selected line of a block, behind some lines, where they are asked for. A line that is
/// selected since nothing in it is matched has none.
pub(crate) fn push_line_parts<A: Allocator>(
    query: &Query<A>,
    judge: &BlockJudge<'_, A>,
    scratch: &mut Scratch<A>,
    bytes: &[u8],
    line: Span,
    number: usize,
    found: &mut Vec<Part, A>,
) -> Result<(), AllocError>
    requires fits { Fits scratch.old query.now.machine }
    requires judge { IsBlockJudge query.now.text bytes.now judge.now }
    requires ordered { line.start ≤ line.end }
    requires within { line.end ≤ length bytes.now }
    requires one { (text : List ℕ) × (length text ≤ 2 ^ 30)
        × (lines (terminator_of query.now.text) (slice_range bytes.now line.start line.end) ≡ text ∷ []) }
    ensures fits { Fits scratch.new query.now.machine }
    ensures parts { (trees : List Pattern) → AreTreesOf query.now.text trees → (text : List ℕ)
        → lines (terminator_of query.now.text) (slice_range bytes.now line.start line.end) ≡ text ∷ []
        → selects (search_of query.now.text trees) text ≡ true → OnOk result (found.new.items ≡ found.old.items
        ++ (if query.now.text.with_parts
        then map (part_at line.start number) (parts_of_line (search_of query.now.text trees) text) else [])) }
{
    let options = query.text();
    if options.with_parts && !options.invert {
        let text = text_of(query.terminator(), line.of(bytes));
        push_parts(query, judge, scratch, text, line.start, number, found)
    } else {
        Ok(())
    }
}
