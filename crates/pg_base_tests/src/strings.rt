//! Sets of strings.
ghost use Rattle.std.specs.Prelude.{◌≤◌, length, IfOk, OnOk};
ghost use Rattle.std.specs.List.{All};

use crate::rows::{Question, assert_rows, bytes_of};
use pg_pattern::Bounds;
use pg_strings::{Budget, Outcome, Rate, StringSet};
use refusing::Refusing;
use std::alloc::{AllocError, Allocator, Global};

/// What is asked of strings, which `;` parts, and a text; and what a search by hand gives: for each place of the text
/// the first place at or behind it at which a string stands, or the length of the longest string that stands there; or
/// whether the text is one of the strings. With `first-word` a string has to begin and end as a word, and with
/// `longest-word` to end as one. `##` gives a hundred strings, with two digits each.
const ROWS: &str = "first ab;abc;bc xxabcxbc => 2 2 2 3 6 6 6 - -
longest ab;abc;bc xxabcxbc => - - 3 2 - - 2 - -
first a;ab;abc abcab => 0 3 3 3 - -
longest a;ab;abc abcab => 3 - - 2 - -
first abcdefghij;abcdefgh;cdefghij zabcdefghij-abcdefgh-cdefghi => 1 1 3 3 12 12 12 12 12 12 12 12 12 - - - - - - - - - - - - - - - -
longest abcdefghij;abcdefgh;cdefghij zabcdefghij-abcdefgh-cdefghi => - 10 - 8 - - - - - - - - 8 - - - - - - - - - - - - - - - -
first foo;bar;baz fobarfoobazba => 2 2 2 5 5 5 8 8 8 - - - - -
longest foo;bar;baz fobarfoobazba => - - 3 - - 3 - - 3 - - - - -
first aab;aaab;ab aaaaaab => 3 3 3 3 4 5 - -
longest aab;aaab;ab aaaaaab => - - - 4 3 2 - -
first xyz abcxy => - - - - - -
longest xyz abcxy => - - - - - -
first q;qq;qqq qqqqq => 0 1 2 3 4 -
longest q;qq;qqq qqqqq => 3 3 3 2 1 -
first a;abcdefgh;xy zzabcdefghxyz => 2 2 2 10 10 10 10 10 10 10 10 - - -
longest a;abcdefgh;xy zzabcdefghxyz => - - 8 - - - - - - - 2 - - -
first yx;q;abcd xyzzzzzzzzyxq => 10 10 10 10 10 10 10 10 10 10 10 12 12 -
first yx;q;abcd xyzzyxzzzzzzzzzzq => 4 4 4 4 4 16 16 16 16 16 16 16 16 16 16 16 16 -
longest yx;q;abcd xyzzzzzzzzyxq => - - - - - - - - - - 2 - 1 -
longest a;ab;abc;abcd abcdabca => 4 - - - 3 - - 1 -
first xq;abc abcx => 0 - - - -
longest xq;abc abcx => 3 - - - -
first-word ab;abc;bc ab-abcd-abc => 0 8 8 8 8 8 8 8 8 - - -
longest-word ab;abc;bc ab-abcd-abc => 2 - - - - - - - 3 2 - -
line ab;abc;bc abc => yes
line ab;abc;bc ab => yes
line ab;abc;bc abcd => no
line ab;abc;bc b => no
line a;ab;abcdef a => yes
line a;ab;abcdef ab => yes
line a;ab;abcdef abc => no
line ba;abcdef ab => no
line abcdefghij;abcdefgh abcdefghi => no
line abcdefghij;abcdefgh abcdefghij => yes
first orderkey##;orderkey##ab;k orderkey07abz => 0 5 5 5 5 5 - - - - - - - -
longest orderkey##;orderkey##ab;orderkey orderkey07abz => 12 - - - - - - - - - - - - -
longest orderkey##;key zorderkey4 => - - - - - - 3 - - - -
first orderkey## orderkeyorderkey99 => 8 8 8 8 8 8 8 8 8 - - - - - - - - - -
first-word orderkey##;orderkey##ab;k orderkey07ab-orderkey07 => 0 13 13 13 13 13 13 13 13 13 13 13 13 13 - - - - - - - - - -
longest-word orderkey##;orderkey##ab;k orderkey07ab-orderkey07 => 12 - - - - - - - - - - - - 10 - - - - - - - - - -
line orderkey##;key orderkey41 => yes
line orderkey##;key orderkey4 => no
line orderkey##;key key => yes
line orderkey##;key orderkey411 => no
line orderkey##;key Orderkey41 => no";

/// Adds a string, unless it is empty.
fn push<A: Allocator + Copy>(
    strings: &mut Vec<Vec<u8, A>, A>,
    string: Vec<u8, A>,
) -> Result<(), AllocError>
    requires { All (λ string. 1 ≤ length string.items) strings.old.items }
    ensures { OnOk result (All (λ string. 1 ≤ length string.items) strings.new.items) }
{
    if string.is_empty() {
        return Ok(());
    }
    strings.push(string)?;
    Ok(())
}

/// Adds the strings of each two digits between two texts.
fn push_hundred<A: Allocator + Copy>(
    alloc: A,
    strings: &mut Vec<Vec<u8, A>, A>,
    front: &str,
    behind: &str,
) -> Result<(), AllocError>
    requires { All (λ string. 1 ≤ length string.items) strings.old.items }
    ensures { OnOk result (All (λ string. 1 ≤ length string.items) strings.new.items) }
{
    for number in 0..100u8 {
        let mut string = Vec::from_slice(alloc, front.as_bytes())?;
        string.extend_from_slice(&[b'0' + number / 10, b'0' + number % 10])?;
        string.extend_from_slice(behind.as_bytes())?;
        push(strings, string)?;
    }
    Ok(())
}

/// The strings that `;` parts, but for empty ones.
fn strings_of<A: Allocator + Copy>(alloc: A, text: &str) -> Result<Vec<Vec<u8, A>, A>, AllocError>
    ensures { IfOk result (λ strings. All (λ string. 1 ≤ length string.items) strings.items) }
{
    let mut strings = Vec::new(alloc);
    for part in text.split(';') {
        match part.split_once("##") {
            Some((front, behind)) => push_hundred(alloc, &mut strings, front, behind)?,
            None => push(&mut strings, Vec::from_slice(alloc, part.as_bytes())?)?,
        }
    }
    Ok(strings)
}

fn set_of<A: Allocator + Copy>(alloc: A, text: &str) -> Result<StringSet<A>, AllocError> {
    let strings = strings_of(alloc, text)?;
    StringSet::new(alloc, strings)
}

fn budget(left: usize, rate: Rate) -> Budget {
    Budget { left, rate }
}

/// What a row of this kind asks of a place of a text.
fn found_at(set: &StringSet, kind: &str, text: &[u8], place: usize) -> Option<usize>
    requires { place ≤ length text.now }
{
    let mut budget = budget(1_000, Rate::High);
    let outcome = match kind {
        "longest" => return set.longest_at(Bounds::Any, text, place),
        "longest-word" => return set.longest_at(Bounds::Word, text, place),
        "first-word" => set.find_hit(Bounds::Word, text, place, &mut budget),
        _ => set.find(text, place, &mut budget),
    };
    match outcome {
        Outcome::Found(place) => Some(place),
        _ => None,
    }
}

/// Shows for each place of a text what a row of this kind asks.
fn show_each(set: &StringSet, kind: &str, text: &[u8], out: &mut String) {
    for place in 0..=text.len() {
        let found = found_at(set, kind, text, place);
        let _ = match found {
            Some(place) => write!(out, " {place}"),
            None => out.push_str(" -"),
        };
    }
}

/// Shows the answer to a row.
pub(crate) fn show_places(alloc: Global, kind: &str, asked: &str, out: &mut String) {
    let (strings, text) = asked.split_once(' ').unwrap_or_default();
    let Ok(set) = set_of(alloc, strings) else {
        return;
    };
    let text = bytes_of(alloc, text);
    match kind {
        "line" => {
            let _ = out.push_str(if set.contains(&text) { "yes" } else { "no" });
        }
        "first" | "first-word" | "longest" | "longest-word" => show_each(&set, kind, &text, out),
        _ => {}
    }
}

/// Whether a search with a budget of nothing gives up where the first string is to be compared.
fn gives_up(alloc: Global) -> bool {
    match set_of(alloc, "bab;bbb") {
        Ok(set) => set.find(b"bbbbab", 0, &mut budget(0, Rate::High)) == Outcome::GaveUp(0),
        Err(AllocError) => false,
    }
}

/// Whether a string of one byte leaves the others as easy to tell apart as they were: places that begin like them cost
/// nothing.
fn tells_apart(alloc: Global) -> bool {
    match set_of(alloc, "q;baaa;bccc;bddd") {
        Ok(set) => set.find(b"bzbzbzbzbzbzbzbzbzbz", 0, &mut budget(0, Rate::High))
            == Outcome::NotFound,
        Err(AllocError) => false,
    }
}

/// Whether a search that compares two strings at every fourth place in vain gives up where its budget is used up, at a
/// low rate, and not at a high one.
fn gives_up_at_a_low_rate(alloc: Global) -> bool {
    let text = b"baabbaabbaabbaab";
    match set_of(alloc, "bzz;baaaac;baaaad") {
        Ok(set) => {
            set.find(text, 0, &mut budget(4, Rate::Low)) == Outcome::GaveUp(8)
                && set.find(text, 0, &mut budget(4, Rate::High)) == Outcome::NotFound
        }
        Err(AllocError) => false,
    }
}

/// Whether strings are prepared and found, or memory is wanted where a request is refused.
pub(crate) fn are_prepared(heap: &Refusing) -> bool {
    match set_of(heap, "ab;b1;c;b12") {
        Ok(set) => set.contains(b"b1") && set.contains(b"b12") && !set.contains(b"b"),
        Err(_) => heap.has_refused(),
    }
}

#[test]
fn strings_are_found(rt: HostRuntime) {
    assert_rows(&rt, rt.alloc(), Question::Strings, ROWS);
    assert!(rt; gives_up(rt.alloc()));
    assert!(rt; tells_apart(rt.alloc()));
    assert!(rt; gives_up_at_a_low_rate(rt.alloc()));
}
