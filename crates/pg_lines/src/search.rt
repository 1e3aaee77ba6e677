//! The search of one block.
ghost use Rattle.std.specs.Prelude.{◌≡◌, ◌⊎◌, ℕ, ◌+◌, ◌<◌, ◌≤◌, ◌^◌, IfOk, IfSome, MatchOption, List, length, map};
ghost use Rattle.std.specs.Prelude.{drop, slice_range, true, false};
ghost use Rattle.std.specs.Arc.{arc_value};
ghost use Rattle.pg_literal.specs.Literals.{as_searched};
ghost use Rattle.pg_match.specs.Lines.{IsTextAt};
ghost use Rattle.pg_match.specs.Machines.{Fits};
ghost use Rattle.pg_blocks.specs.Lines.{lines, AreShort};
ghost use Rattle.pg_selection.specs.Search.{Pattern, AreTreesOf, bounds_of, search_of, terminator_of};
ghost use Rattle.pg_selection.specs.Selection.{has_match};
ghost use Rattle.pg_selection.specs.Searched.{IsFound};
ghost use Rattle.pg_lines.specs.Queries.{IsCompiled};
ghost use Rattle.pg_prefilter.specs.Literals.{AreLiterals, TellHeads, data_of};
ghost use Rattle.pg_prefilter.specs.Strings.{IsBlockJudge, FindsPart, IsSetOf, JudgesLine};
ghost use Rattle.pg_prefilter.specs.declared.strings.NextString.TheVariants.{Behind};
ghost use Rattle.pg_prefilter.specs.Candidates.{AreNeedles, AreSome, IsNextSought, row_sought};
ghost use Rattle.pg_prefilter.specs.NextHits.{HasNoNextHit, IsNextHit};
ghost use Rattle.pg_lines.specs.Finding.{CanSearch};

use crate::every_line::{hits_each_line, runs_of_each_line};
use crate::parts::{next_by_judge, push_line_parts};
use crate::query::Query;
use crate::runs::{push_run, run_between, with_line};
use memchr::memchr;
use pg_blocks::{Block, Span, count_lines, line_end, text_of};
use pg_literal::Literal;
use pg_match::Scratch;
use pg_prefilter::{
    BYTES_PER_CANDIDATE, BlockJudge, LineJudge, LiteralSet, Needles, NextLine, NextString,
    fixed_strings, near_text,
};
use pg_selection::{BlockResult, Found, Run};
use std::alloc::{AllocError, Allocator};
use std::sync::Arc;

/// How many lines may hold a needle and have no hit, beyond one for each `BYTES_PER_CANDIDATE` bytes, until the rest of
/// the block is searched for what takes the needles' place, or line by line.
const MAX_FALSE_CANDIDATES: usize = 8;

/// Lines of fewer bytes are read by the automaton as fast as a text is looked for in them.
const SHORT: usize = 32;

/// Whether some span of a line is a hit, where none begins before a place, and none is empty. The line has at most 2^30
/// bytes, and the scratch is of the query's machine.
fn has_hit_behind<A: Allocator>(
    query: &Query<A>,
    scratch: &mut Scratch<A>,
    line: &[u8],
    place: usize,
) -> bool
    requires fits { Fits scratch.old query.now.machine }
    requires short { length line.now ≤ 2 ^ 30 }
    requires behind { (trees : List Pattern) → AreTreesOf query.now.text trees
        → FindsPart trees (bounds_of query.now.text) line.now 0 (Behind place) }
    ensures fits { Fits scratch.new query.now.machine }
    ensures hit { (trees : List Pattern) → AreTreesOf query.now.text trees
        → result ≡ has_match (search_of query.now.text trees) line.now }
{
    let machine = query.machine();
    if query.prefilter().ignores_front() {
        machine.selects(scratch, &line[place..])
    } else {
        machine.next_part(scratch, line, place).is_some()
    }
}

/// Whether some span of a line that stands at a place in the block is a hit: by what judges the block's lines, or,
/// where that can't tell, by the query's automaton.
fn has_hit<A: Allocator>(
    query: &Query<A>,
    judge: &BlockJudge<'_, A>,
    scratch: &mut Scratch<A>,
    line: &[u8],
    at: usize,
) -> bool
    requires fits { Fits scratch.old query.now.machine }
    requires short { length line.now ≤ 2 ^ 30 }
    requires line { JudgesLine query.now.text judge.now line.now at }
    ensures fits { Fits scratch.new query.now.machine }
    ensures hit { (trees : List Pattern) → AreTreesOf query.now.text trees →
        result ≡ has_match (search_of query.now.text trees) line.now }
{
    match next_by_judge(query, judge, line, at, 0) {
        NextString::Found(_) => true,
        NextString::Nowhere => false,
        NextString::Behind(place) => has_hit_behind(query, scratch, line, place),
        NextString::OnlyEmpty | NextString::GaveUp => query.machine().selects(scratch, line),
    }
}

/// Whether a line is told by what the automaton remembers: where there is nothing else to ask, and where a text stands
/// near where each match begins but the line is so short that to look for the text takes longer. The line begins some
/// bytes.
fn asks_automaton<A: Allocator>(judge: &BlockJudge<'_, A>, end: u8, bytes: &[u8]) -> bool {
    let near = &bytes[..bytes.len().min(SHORT)];
    judge.is_nothing() || judge.is_near_text() && memchr(end, near).is_some()
}

/// Where the text of a line ends that goes on up to a place, at most the count of bytes: at its terminator, or where
/// the bytes end.
fn text_end(end: u8, bytes: &[u8], place: usize) -> usize
    requires { place ≤ length bytes.now }
    ensures { IsTextAt end bytes.now place result }
{
    if place < bytes.len() && bytes[place] != end {
        line_end(end, bytes, place)
    } else {
        place
    }
}

/// Where the text of the line ends that starts at a place, and whether the line has a hit. It has at most 2^30 bytes,
/// as all behind it have, and stands at `at` in the block. Where the automaton alone is asked, what it remembers is,
/// which looks for the line's end by the way.
fn judge_line<A: Allocator>(
    query: &Query<A>,
    judge: &BlockJudge<'_, A>,
    scratch: &mut Scratch<A>,
    bytes: &[u8],
    start: usize,
    at: usize,
) -> (usize, bool)
    requires fits { Fits scratch.old query.now.machine }
    requires start { start < length bytes.now }
    requires short { AreShort (terminator_of query.now.text) (drop start bytes.now) }
    requires lines { (stop : ℕ) → start ≤ stop → stop ≤ length bytes.now
        → JudgesLine query.now.text judge.now (slice_range bytes.now start stop) at }
    ensures fits { Fits scratch.new query.now.machine }
    ensures text { IsTextAt (terminator_of query.now.text) bytes.now start result.0 }
    ensures hit { (trees : List Pattern) → AreTreesOf query.now.text trees
        → result.1 ≡ has_match (search_of query.now.text trees) (slice_range bytes.now start result.0) }
{
    let end = query.terminator();
    if asks_automaton(judge, end, &bytes[start..]) {
        if let Some(line) = query.machine().recall_line(scratch, end, &bytes[start..]) {
            return (text_end(end, bytes, start + line.read), line.has_hit);
        }
    }
    let stop = line_end(end, bytes, start);
    let line = &bytes[start..stop];
    let has_hit = has_hit(query, judge, scratch, line, at);
    (stop, has_hit)
}

/// The first line with a hit at or behind a place where a line starts, with its terminator. It isn't compiled into its
/// callers, whose other ways would have fewer registers.
#[inline(never)]
fn next_matched<A: Allocator>(
    query: &Query<A>,
    judge: &BlockJudge<'_, A>,
    scratch: &mut Scratch<A>,
    bytes: &[u8],
    at: usize,
) -> Option<Span>
    requires at { at ≤ length bytes.now }
    requires judge { IsBlockJudge query.now.text bytes.now judge.now }
    requires fits { Fits scratch.old query.now.machine }
    requires short { AreShort (terminator_of query.now.text) (drop at bytes.now) }
    ensures fits { Fits scratch.new query.now.machine }
    ensures found { MatchOption result (HasNoNextHit query.now.text bytes.now at)
        (IsNextHit query.now.text bytes.now at) }
{
    let rest = &bytes[at..];
    let mut start = 0;
    while start < rest.len() {
        let (stop, has_hit) = judge_line(query, judge, scratch, rest, start, at + start);
        let next = if stop < rest.len() { stop + 1 } else { stop };
        if has_hit {
            return Some(Span {
                start: at + start,
                end: at + next,
            });
        }
        start = next;
    }
    None
}

/// The first line with a hit at or behind a place where a line starts, with its terminator. The automaton alone is
/// asked.
fn next_by_automaton<A: Allocator>(
    query: &Query<A>,
    scratch: &mut Scratch<A>,
    bytes: &[u8],
    at: usize,
) -> Option<Span>
    requires at { at ≤ length bytes.now }
    requires fits { Fits scratch.old query.now.machine }
    requires short { AreShort (terminator_of query.now.text) (drop at bytes.now) }
    ensures fits { Fits scratch.new query.now.machine }
    ensures found { MatchOption result (HasNoNextHit query.now.text bytes.now at)
        (IsNextHit query.now.text bytes.now at) }
{
    let judge = BlockJudge::none();
    next_matched(query, &judge, scratch, bytes, at)
}

/// How many lines held a needle and had no hit, with one more; without it there were fewer than 8. Where these are too
/// many, the needles are given up, and for what takes their place none has been counted: the literals for a row, and
/// the query's row for literals.
fn with_one_in_vain<'n, A: Allocator>(
    query: &'n Query<A>,
    needles: &mut Needles<'n, A>,
    in_vain: usize,
) -> usize
    requires { in_vain < 8 }
    ensures few { result ≤ 8 }
    ensures needles { (bytes : List ℕ) (at : ℕ) → AreNeedles query.now.text bytes at needles.old
        → AreNeedles query.now.text bytes at needles.new }
    ensures some { result < 8 → AreSome needles.old → AreSome needles.new }
{
    let more = in_vain + 1;
    if more < MAX_FALSE_CANDIDATES {
        return more;
    }
    if needles.give_up(query.prefilter().later_row()) {
        0
    } else {
        more
    }
}

/// The first line at or behind a place of a block, or its end, that holds one of the needles. They are the query's, as
/// they are from that place on, some of them, and not given up.
fn next_candidate<'n, A: Allocator>(
    query: &Query<A>,
    needles: &mut Needles<'n, A>,
    bytes: &[u8],
    at: usize,
) -> NextLine
    requires at { at ≤ length bytes.now }
    requires needles { AreNeedles query.now.text bytes.now at needles.old }
    requires some { AreSome needles.old }
    ensures needles { AreNeedles query.now.text bytes.now at needles.new }
    ensures some { AreSome needles.new }
    ensures row { row_sought needles.new ≡ row_sought needles.old }
    ensures next { IsNextSought query.now.text needles.new at bytes.now result }
{
    needles.next_line(query.text(), bytes, at)
}

/// The first line with a hit at or behind a place where a line starts, with its terminator, where such lines hold a
/// needle: only those that do are looked at. If too many of them have none, or the needles stand in too many lines,
/// others take their place, if there are such, and at last the rest of the block is searched line by line.
#[inline(never)]
fn next_confirmed<'n, A: Allocator>(
    query: &'n Query<A>,
    judge: &BlockJudge<'_, A>,
    needles: &mut Needles<'n, A>,
    scratch: &mut Scratch<A>,
    bytes: &[u8],
    at: usize,
) -> Option<Span>
    requires ready { CanSearch query.now bytes.now judge.now needles.old scratch.old at }
    requires some { AreSome needles.old }
    ensures needles { IfSome result (λ line. AreNeedles query.now.text bytes.now line.end needles.new) }
    ensures fits { Fits scratch.new query.now.machine }
    ensures found { MatchOption result (HasNoNextHit query.now.text bytes.now at)
        (IsNextHit query.now.text bytes.now at) }
{
    let end = query.terminator();
    let mut from = at;
    let mut in_vain = 0;
    while in_vain < MAX_FALSE_CANDIDATES {
        let found = match next_candidate(query, needles, bytes, from) {
            NextLine::Found(found) => found,
            NextLine::Nowhere => return None,
            NextLine::GaveUp => {
                if needles.fall_back() {
                    in_vain = 0;
                    continue;
                }
                *needles = Needles::TooSlow;
                return next_by_automaton(query, scratch, bytes, from);
            }
        };
        let line = found.line;
        let text = text_of(end, &bytes[line.start..line.end]);
        if found.is_enough || has_hit(query, judge, scratch, text, line.start) {
            return Some(line);
        }
        let passed = (line.start - from) / BYTES_PER_CANDIDATE;
        in_vain = with_one_in_vain(query, needles, in_vain.saturating_sub(passed));
        from = line.end;
    }
    next_matched(query, judge, scratch, bytes, from)
}

/// The first line with a hit at or behind a place where a line starts, with its terminator: by the needles where there
/// are any, else line by line.
#[inline(always)]
fn next_hit<'n, A: Allocator>(
    query: &'n Query<A>,
    judge: &BlockJudge<'_, A>,
    needles: &mut Needles<'n, A>,
    scratch: &mut Scratch<A>,
    bytes: &[u8],
    at: usize,
) -> Option<Span>
    requires { CanSearch query.now bytes.now judge.now needles.old scratch.old at }
    ensures needles { IfSome result (λ line. AreNeedles query.now.text bytes.now line.end needles.new) }
    ensures fits { Fits scratch.new query.now.machine }
    ensures found { MatchOption result (HasNoNextHit query.now.text bytes.now at)
        (IsNextHit query.now.text bytes.now at) }
{
    if needles.are_too_slow() {
        return next_by_automaton(query, scratch, bytes, at);
    }
    if needles.is_empty() {
        next_matched(query, judge, scratch, bytes, at)
    } else {
        next_confirmed(query, judge, needles, scratch, bytes, at)
    }
}

/// The runs of lines with a hit, their parts, and the number of all lines.
fn runs_of_hits<'n, A: Allocator + Copy>(
    alloc: A,
    query: &'n Query<A>,
    judge: &BlockJudge<'_, A>,
    needles: &mut Needles<'n, A>,
    scratch: &mut Scratch<A>,
    bytes: &[u8],
) -> Result<Found<A>, AllocError>
    requires compiled { IsCompiled query.now }
    requires upright { query.now.text.invert ≡ false }
    requires ready { CanSearch query.now bytes.now judge.now needles.old scratch.old 0 }
    ensures fits { Fits scratch.new query.now.machine }
    ensures found { IfOk result (IsFound query.now.text bytes.now) }
{
    let end = query.terminator();
    let mut runs = Vec::new(alloc);
    let mut parts = Vec::new(alloc);
    let mut run = Run {
        span: Span { start: 0, end: 0 },
        first: 0,
        count: 0,
    };
    while let Some(line) = next_hit(query, judge, needles, scratch, bytes, run.span.end) {
        run = with_line(&mut runs, run, end, bytes, line)?;
        let number = run.first + run.count - 1;
        push_line_parts(query, judge, scratch, bytes, line, number, &mut parts)?;
    }
    push_run(&mut runs, run)?;
    let lines = run.first + run.count + count_lines(end, &bytes[run.span.end..]);
    Ok(Found { runs, parts, lines })
}

/// The runs of lines between those with a hit, and the number of all lines.
fn runs_between_hits<'n, A: Allocator + Copy>(
    alloc: A,
    query: &'n Query<A>,
    judge: &BlockJudge<'_, A>,
    needles: &mut Needles<'n, A>,
    scratch: &mut Scratch<A>,
    bytes: &[u8],
) -> Result<Found<A>, AllocError>
    requires compiled { IsCompiled query.now }
    requires inverted { query.now.text.invert ≡ true }
    requires ready { CanSearch query.now bytes.now judge.now needles.old scratch.old 0 }
    ensures fits { Fits scratch.new query.now.machine }
    ensures found { IfOk result (IsFound query.now.text bytes.now) }
{
    let end = query.terminator();
    let mut runs = Vec::new(alloc);
    let mut at = 0;
    let mut seen = 0;
    while let Some(line) = next_hit(query, judge, needles, scratch, bytes, at) {
        let run = run_between(end, bytes, at, line.start, seen);
        push_run(&mut runs, run)?;
        at = line.end;
        seen += run.count + 1;
    }
    let last = run_between(end, bytes, at, bytes.len(), seen);
    push_run(&mut runs, last)?;
    Ok(Found {
        runs,
        parts: Vec::new(alloc),
        lines: seen + last.count,
    })
}

/// The runs of selected lines, their parts, and the number of all lines.
fn selected_runs<'n, A: Allocator + Copy>(
    alloc: A,
    query: &'n Query<A>,
    judge: &BlockJudge<'_, A>,
    needles: &mut Needles<'n, A>,
    scratch: &mut Scratch<A>,
    bytes: &[u8],
) -> Result<Found<A>, AllocError>
    requires compiled { IsCompiled query.now }
    requires ready { CanSearch query.now bytes.now judge.now needles.old scratch.old 0 }
    ensures fits { Fits scratch.new query.now.machine }
    ensures found { IfOk result (IsFound query.now.text bytes.now) }
{
    if query.text().invert {
        runs_between_hits(alloc, query, judge, needles, scratch, bytes)
    } else {
        runs_of_hits(alloc, query, judge, needles, scratch, bytes)
    }
}

/// The set in which lines are looked for. There is none where the query is for fixed strings and whole lines: then one
/// look-up tells of each line.
fn sought_set<'l, A: Allocator>(
    query: &Query<A>,
    set: Option<&'l LiteralSet<A>>,
) -> Option<&'l LiteralSet<A>>
    ensures { (result ≡ set.entry) ⊎ (result ≡ None) }
{
    match set {
        Some(found) => {
            if found.is_fixed && query.text().whole {
                None
            } else {
                set
            }
        }
        None => None,
    }
}

/// The runs of selected lines, found by the literals. `searched` is the block, in lower case where case is folded.
fn search_by<A: Allocator + Copy>(
    alloc: A,
    query: &Query<A>,
    literals: &[Literal<A>],
    set: Option<&LiteralSet<A>>,
    scratch: &mut Scratch<A>,
    bytes: &[u8],
    searched: &[u8],
) -> Result<Found<A>, AllocError>
    requires compiled { IsCompiled query.now }
    requires literals { AreLiterals query.now.text (map data_of literals.now) }
    requires heads { TellHeads query.now.text literals.now }
    requires set { IfSome set (λ set. IsSetOf query.now.text set.now) }
    requires searched { 0 < length literals.now → searched.now ≡ as_searched query.now.text.fold bytes.now }
    requires set_searched { IfSome set (λ _. searched.now ≡ as_searched query.now.text.fold bytes.now) }
    requires fits { Fits scratch.old query.now.machine }
    requires short { AreShort (terminator_of query.now.text) bytes.now }
    ensures fits { Fits scratch.new query.now.machine }
    ensures found { IfOk result (IsFound query.now.text bytes.now) }
{
    let options = query.text();
    if !options.with_parts && hits_each_line(query, literals) {
        return runs_of_each_line(alloc, query, bytes);
    }
    let found = query.prefilter();
    let judge = LineJudge::first_of(
        fixed_strings(set),
        found.non_empty(),
        found.suffix(),
        near_text(options, literals, found.ignores_front(), found.reach()),
    );
    let judge = BlockJudge::new(judge, searched);
    let mut needles = Needles::new(
        alloc,
        literals,
        sought_set(query, set),
        found.first_row(),
        searched,
    )?;
    selected_runs(alloc, query, &judge, &mut needles, scratch, bytes)
}

/// The runs of selected lines, their parts, and the number of all lines.
fn search_bytes<A: Allocator + Copy>(
    alloc: A,
    query: &Query<A>,
    scratch: &mut Scratch<A>,
    bytes: &[u8],
) -> Result<Found<A>, AllocError>
    requires fits { Fits scratch.old query.now.machine }
    requires short { AreShort (terminator_of query.now.text) bytes.now }
    ensures fits { Fits scratch.new query.now.machine }
    ensures found { IfOk result (IsFound query.now.text bytes.now) }
{
    let found = query.prefilter();
    let literals = found.literals();
    let set = found.literal_set();
    if query.text().fold && (set.is_some() || !literals.is_empty()) {
        let lowered = bytes.to_ascii_lowercase(alloc)?;
        search_by(alloc, query, literals, set, scratch, bytes, &lowered)
    } else {
        search_by(alloc, query, literals, set, scratch, bytes, bytes)
    }
}

/// Searches a block for a query, with a scratch for the query's machine.
///
/// The lines of the block have at most 2^30 bytes each. A refused request for memory is the only
/// error.
pub fn search_block<A: Allocator + Copy>(
    alloc: A,
    query: &Query<A>,
    scratch: &mut Scratch<A>,
    block: Arc<Block<A>, A>,
) -> Result<BlockResult<A>, AllocError>
    requires fits { Fits scratch.old query.now.machine }
    requires short { AreShort (terminator_of query.now.text) (arc_value block).bytes }
    ensures fits { Fits scratch.new query.now.machine }
    ensures found { IfOk result (λ found. found ≡ record { query = query.now.text; block = arc_value block }) }
{
    let selector = Arc::try_clone(query.selector())?;
    let lines: &Block<A> = &block;
    let found = search_bytes(alloc, query, scratch, lines.bytes.as_slice())?;
    Ok(BlockResult::new(selector, block, found))
}
