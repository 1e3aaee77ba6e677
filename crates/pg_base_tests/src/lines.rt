//! The search of a block.
ghost use Rattle.std.specs.Prelude.{◌≡◌, ◌≤◌, ◌<◌, length, IfOk};
ghost use Rattle.std.specs.Arc.{arc_value};

use crate::rows::{Question, assert_rows, bytes_of, halves};
use pg_blocks::{Block, CutFault};
use pg_lines::{
    BlockResult, Kind, PatternList, Query, QueryFault, QueryText, Scratch, search_block,
};
use pg_selection::Selector;
use pg_syntax::{FaultKind, ListFault, SyntaxFault};
use refusing::Refusing;
use std::alloc::{AllocError, Allocator, Global};
use std::sync::Arc;

fn has(letters: &str, letter: u8) -> bool {
    letters.as_bytes().contains(&letter)
}

/// The letters of kinds and options: `b` stands for the kind that has no letter of its own, `f` for a list of a file.
const LETTERS: &[u8] = b"EFbfioxwvz";

/// Whether there are no letters but those of kinds and options.
fn are_letters(letters: &str) -> bool {
    for letter in letters.as_bytes() {
        if !LETTERS.contains(letter) {
            return false;
        }
    }
    true
}

/// The one list of a query, by `f` one of a file.
fn lists_of<A: Allocator + Copy>(
    alloc: A,
    letters: &str,
    pattern: &[u8],
) -> Result<Vec<PatternList<A>, A>, AllocError> {
    let pattern = Vec::from_slice(alloc, pattern)?;
    let list = if has(letters, b'f') {
        PatternList::Lines(pattern)
    } else {
        PatternList::Text(pattern)
    };
    let mut lists = Vec::new(alloc);
    lists.push(list)?;
    Ok(lists)
}

/// The kind of a query: `E`, `F`, or none of both.
fn kind_of(letters: &str) -> Kind {
    if has(letters, b'F') {
        Kind::Fixed
    } else if has(letters, b'E') {
        Kind::Extended
    } else {
        Kind::Basic
    }
}

/// What a query is compiled from: the letters say the kind, the options, and whether the pattern is of a file.
fn text_of<A: Allocator + Copy>(
    alloc: A,
    letters: &str,
    pattern: &[u8],
) -> Result<QueryText<A>, AllocError> {
    let lists = lists_of(alloc, letters, pattern)?;
    Ok(QueryText {
        kind: kind_of(letters),
        lists,
        fold: has(letters, b'i'),
        whole: has(letters, b'x'),
        word: has(letters, b'w'),
        invert: has(letters, b'v'),
        with_parts: has(letters, b'o'),
        zero: has(letters, b'z'),
    })
}

/// A query with the options of these letters.
fn compile<A: Allocator + Copy>(
    alloc: A,
    letters: &str,
    pattern: &[u8],
) -> Result<Query<A>, QueryFault> {
    Query::compile(alloc, text_of(alloc, letters, pattern)?)
}

/// Block 5 of file 7, with these bytes.
fn block_of<A: Allocator + Copy>(alloc: A, bytes: &[u8]) -> Result<Arc<Block<A>, A>, AllocError>
    ensures { IfOk result (λ block. (arc_value block).bytes ≡ bytes.now) }
{
    let block = Block {
        file: 7,
        number: 5,
        bytes: Vec::from_slice(alloc, bytes)?,
    };
    let block = Arc::new(alloc, block)?;
    Ok(block)
}

/// What a search finds in a block with these bytes, at most 100.
fn search_for<A: Allocator + Copy>(
    alloc: A,
    query: &Query<A>,
    bytes: &[u8],
) -> Result<BlockResult<A>, AllocError>
    requires { length bytes.now ≤ 100 }
{
    let block = block_of(alloc, bytes)?;
    let mut scratch = Scratch::new(alloc, query.machine())?;
    search_block(alloc, query, &mut scratch, block)
}

/// Searches, each by the letters of its options, a pattern and a block; and how much is found: how many lines there
/// are, runs of selected lines, and matched parts. Lines that aren't matched have no parts.
const SEARCHES: &str = "F b b%0Ax%0Ab%0Ax%0Ab%0Ax%0Ab%0Ax%0Ab => 9 5 0
Ev x b%0Ax%0Ab%0Ax%0Ab%0Ax%0Ab%0Ax%0Ab => 9 5 0
Fo b bbbbb%0Ax%0Ab => 3 2 6
Eo b|c bcbcb%0Ax%0Ab => 3 2 6
Fov b ab%0Axyz%0A => 2 1 0
Fov  a%0A => 1 0 0
Eov b* abb%0A => 1 0 0
Ff b%0Abc%0Ad1%0Ad2%0Ad3%0Ad4%0Ad5%0Ad6%0Ad7%0A a%0Ad7%0Ax%0Aabc%0Ad8 => 5 2 0
Ffio BB%0Abc%0Ad1%0Ad2%0Ad3%0Ad4%0Ad5%0Ad6%0Ad7%0A bBB%0AD7d6%0Ax%0AABC%0Ad8 => 5 2 4
Ffv bb%0A%0Ad1%0Ad2%0Ad3%0Ad4%0Ad5%0Ad6%0Ad7%0A bBB%0AD7d6%0Ax%0A => 3 0 0";

/// Whether a block has these bytes, and is block 5 of file 7.
fn is_block<A: Allocator>(block: &Block<A>, bytes: &[u8]) -> bool {
    block.file == 7 && block.number == 5 && block.bytes.as_slice() == bytes
}

/// Shows how much a result finds, if it is of this query and a block with these bytes.
fn show_found<A: Allocator + Copy>(
    found: &BlockResult<A>,
    query: &Query<A>,
    bytes: &[u8],
    out: &mut String,
) {
    let searched: &Selector<A> = found.selector();
    let asked: &Selector<A> = query.selector();
    if *searched == *asked && is_block(found.block(), bytes) {
        let lines = found.lines();
        let runs = found.runs().len();
        let parts = found.parts().len();
        let _ = write!(out, " {lines} {runs} {parts}");
    }
}

/// Shows how much a search of a block of at most 100 bytes finds.
fn show_search<A: Allocator + Copy>(
    alloc: A,
    letters: &str,
    pattern: &[u8],
    bytes: &[u8],
    out: &mut String,
) -> Result<(), QueryFault>
    requires { length bytes.now ≤ 100 }
{
    let query = compile(alloc, letters, pattern)?;
    let found = search_for(alloc, &query, bytes)?;
    show_found(&found, &query, bytes, out);
    Ok(())
}

/// Whether a search finds as much as a row says, or wants memory where a request is refused.
fn is_right(alloc: Global, heap: &Refusing, row: &str) -> bool {
    let (asked, want) = halves(row);
    let (letters, texts) = asked.split_once(' ').unwrap_or_default();
    let (pattern, bytes) = texts.split_once(' ').unwrap_or_default();
    let pattern = bytes_of(alloc, pattern);
    let bytes = bytes_of(alloc, bytes);
    if bytes.len() > 100 || !are_letters(letters) {
        return false;
    }
    let mut out = String::new(alloc);
    match show_search(heap, letters, &pattern, &bytes, &mut out) {
        Ok(()) => out.as_str() == want,
        Err(fault) => heap.has_refused() && fault == QueryFault::OutOfMemory,
    }
}

/// Whether each search finds what it should, or wants memory where a request is refused.
pub(crate) fn are_found(alloc: Global, heap: &Refusing) -> bool {
    for row in SEARCHES.lines() {
        if !is_right(alloc, heap, row) {
            return false;
        }
    }
    true
}

/// Two queries, each by its letters and a text, and whether they are the same, as are the texts that they are of.
const QUERIES: &str = "F:ab F:ab => true
F:ab F:ac => false
F:ab E:ab => false
F:ab b:ab => false
F:ab Fi:ab => false
F:ab Fx:ab => false
F:ab Fw:ab => false
F:ab Fv:ab => false
F:ab Fz:ab => false
F:ab Ff:ab => false
Ff:ab Ff:ab => true
Ff: Ff: => true";

/// The query of letters and a text, if all letters are those of kinds and options.
fn query_by(alloc: Global, letters: &str, text: &[u8]) -> Option<Query> {
    if !are_letters(letters) {
        return None;
    }
    compile(alloc, letters, text).ok()
}

/// Whether queries select by the same, where their texts say so too.
fn are_same(one: &Query, other: &Query) -> &'static str {
    let one_selector: &Selector = one.selector();
    let other_selector: &Selector = other.selector();
    match (
        *one_selector == *other_selector,
        *one.text() == *other.text(),
    ) {
        (true, true) => "true",
        (false, false) => "false",
        _ => "selectors and texts differ",
    }
}

/// Shows whether two queries are the same.
pub(crate) fn show_compared(alloc: Global, one: &str, other: &str, out: &mut String) {
    let (one, text) = one.split_once(':').unwrap_or_default();
    let Some(one) = query_by(alloc, one, text.as_bytes()) else {
        return;
    };
    let (other, text) = other.split_once(':').unwrap_or_default();
    let Some(other) = query_by(alloc, other, text.as_bytes()) else {
        return;
    };
    let _ = out.push_str(are_same(&one, &other));
}

/// Queries by their letters and patterns, bytes, and whether a line of these may have a hit. The last four are of nine
/// strings, which are too many to be looked for one by one.
const MAY: &str = "E foo|bar[0-9] x%0Afo%0ABAR1%0A => false
E foo|bar[0-9] x%0Aabar%0A => true
Eo foo|bar[0-9] afoob => true
Eiv foo|bar[0-9] fo%0Aba => false
Eiv foo|bar[0-9] fo%0ABARx => true
E [0-9] x%0A => true
E [0-9]  => false
Ei x* y => true
Ff bb%0Abc%0Ad1%0Ad2%0Ad3%0Ad4%0Ad5%0Ad6%0Ad7%0A x%0Ad%0ABc%0Ad8 => false
Ff bb%0Abc%0Ad1%0Ad2%0Ad3%0Ad4%0Ad5%0Ad6%0Ad7%0A x%0Ad%0Aabc%0Ad8 => true
Ffi bb%0Abc%0Ad1%0Ad2%0Ad3%0Ad4%0Ad5%0Ad6%0Ad7%0A X%0ABC => true
Ffi bb%0Abc%0Ad1%0Ad2%0Ad3%0Ad4%0Ad5%0Ad6%0Ad7%0A X%0AB%0AC => false";

/// Shows whether a line of some bytes may have a hit of a query.
pub(crate) fn show_may(alloc: Global, letters: &str, asked: &str, out: &mut String) {
    let (pattern, bytes) = asked.split_once(' ').unwrap_or_default();
    let Some(query) = query_by(alloc, letters, &bytes_of(alloc, pattern)) else {
        return;
    };
    let searched: &Query = &query;
    if let Ok(may) = searched.may(alloc, &bytes_of(alloc, bytes)) {
        let _ = write!(out, "{may}");
    }
}

#[test]
fn queries_and_what_may_have_a_hit(rt: HostRuntime) {
    assert_rows(&rt, rt.alloc(), Question::SameQueries, QUERIES);
    assert_rows(&rt, rt.alloc(), Question::MayHit, MAY);
}

/// A fault of the third pattern.
const FAULT: ListFault = ListFault {
    pattern: 3,
    fault: SyntaxFault {
        kind: FaultKind::OutOfMemory,
        at: 7,
    },
};

#[test]
fn faults_are_shown(rt: HostRuntime) {
    let kind = FAULT.fault.kind;
    let file = CutFault::FileTooLong;
    let memory = QueryFault::OutOfMemory;
    let texts = format!(in rt.alloc(); "{kind:?}: {FAULT}, {file}, {memory}").expect(&rt, "memory");
    assert!(rt; texts.as_str() == "OutOfMemory: out of memory, file too long, out of memory");
}
