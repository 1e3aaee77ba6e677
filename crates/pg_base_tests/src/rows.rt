//! Rows of tests. A row is a line of a text, so that a further row costs no proof. Many rows stand in several texts,
//! for a long text takes longer than its parts. What answers a row takes no runtime, and so can't stop the test: of a
//! row that can't be read, and where memory wants, it shows less than is wanted.
use crate::cutter::Way;
use crate::{cutter, lines, literal, machine, strings, syntax};
use percent_encoding::{CONTROLS, percent_decode, percent_encode};
use std::alloc::Global;
use std::process::Abort;

/// The bytes of a field, in which `%` and two hexadecimal digits stand for one byte (RFC 3986, 2.1).
pub(crate) fn bytes_of(alloc: Global, field: &str) -> Vec<u8> {
    let mut bytes = Vec::new(alloc);
    let _ = percent_decode(field.as_bytes()).append_to(&mut bytes);
    bytes
}

/// Shows bytes as a field, in which controls and bytes above 127 are escaped.
pub(crate) fn show_bytes(bytes: &[u8], out: &mut String) {
    let _ = percent_encode(bytes, CONTROLS).append_to(out);
}

/// A text in parts, which a space parts from one another: each a field, a colon, and how often it stands there.
pub(crate) fn repeated(alloc: Global, parts: &str) -> Vec<u8> {
    let mut text = Vec::new(alloc);
    for part in parts.split(' ') {
        let (field, count) = part.rsplit_once(':').unwrap_or_default();
        let bytes = bytes_of(alloc, field);
        for _ in 0..count.parse().unwrap_or(0u32) {
            let _ = text.extend_from_slice(&bytes);
        }
    }
    text
}

/// What a row asks, and behind `=>` what is wanted of it.
pub(crate) fn halves(row: &str) -> (&str, &str) {
    row.split_once(" =>").unwrap_or(("", "an arrow"))
}

/// What the rows of a test ask.
#[derive(Clone, Copy)]
pub(crate) enum Question {
    Blocks(Way),
    SameQueries,
    MayHit,
    Literal,
    Row,
    Reach,
    Strings,
    Visits,
    DeepTree,
}

/// Shows the answer to what is asked of a kind.
fn show_answer(alloc: Global, question: Question, kind: &str, asked: &str, out: &mut String) {
    match question {
        Question::Blocks(way) => cutter::show_blocks(alloc, way, kind, asked, out),
        Question::Literal => literal::show_literals(alloc, kind, asked, out),
        Question::Row => literal::show_row(alloc, kind, asked, out),
        Question::Reach => literal::show_reach(alloc, kind, asked, out),
        Question::Strings => strings::show_places(alloc, kind, asked, out),
        Question::Visits => machine::show_search(alloc, kind, asked, out),
        Question::MayHit => lines::show_may(alloc, kind, asked, out),
        Question::SameQueries => lines::show_compared(alloc, kind, asked, out),
        Question::DeepTree => syntax::show_tree(alloc, kind, asked, out),
    }
}

/// Shows the answer to a row, which asks of a kind, a word in front. Answers whether that is what the row wants; blanks
/// in front of both don't count.
fn holds(alloc: Global, question: Question, row: &str, got: &mut String) -> bool {
    let (asked, want) = halves(row);
    let (kind, asked) = asked.split_once(' ').unwrap_or_default();
    show_answer(alloc, question, kind, asked, got);
    got.trim_start() == want.trim_start()
}

/// Compares what each row wants with the answer to it.
pub(crate) fn assert_rows(rt: &impl Abort, alloc: Global, question: Question, rows: &str) {
    for row in rows.lines() {
        let mut got = String::new(alloc);
        let is_right = holds(alloc, question, row, &mut got);
        assert!(rt; is_right, "{got} of {row}");
    }
}
