//! Machines of patterns: what a search visits, and the matched parts that it finds.
ghost use Rattle.std.specs.Prelude.{◌≤◌, ◌^◌, All, map, length};
ghost use Rattle.pg_pattern.specs.Patterns.{IsProper};
ghost use Rattle.pg_pattern.specs.Trees.{pattern};
ghost use Rattle.pg_match.specs.Machines.{Fits};

use crate::rows::{Question, assert_rows, repeated};
use pg_blocks::{NEWLINE, line_end};
use pg_match::{BuildFault, Machine, Scratch};
use pg_pattern::laws::next_part_is_one;
use pg_pattern::{Bounds, Tree};
use pg_syntax::{fixed, parse_ere};
use refusing::Refusing;
use std::alloc::{AllocError, Allocator, Global};

/// The bounds of a word.
pub(crate) fn bounds_of(word: &str) -> Option<Bounds> {
    match word {
        "any" => Some(Bounds::Any),
        "word" => Some(Bounds::Word),
        "whole" => Some(Bounds::Whole),
        _ => None,
    }
}

/// A line in parts. One of more than 10,000 bytes becomes empty.
fn line_of(alloc: Global, parts: &str) -> Vec<u8>
    ensures { length result.items ≤ 10000 }
{
    let line = repeated(alloc, parts);
    if line.len() > 10_000 {
        return Vec::new(alloc);
    }
    line
}

/// Shows whether a line is selected, and its first matched part, where the searches visit no more states than they
/// may. The scratch is the machine's.
fn show_found(machine: &Machine, scratch: &mut Scratch, line: &[u8], most: &str, out: &mut String)
    requires fits { Fits scratch.old machine.now }
    requires short { length line.now ≤ 2 ^ 30 }
{
    let is_selected = machine.selects(scratch, line);
    let visits = scratch.visits();
    let part = machine.next_part(scratch, line, 0);
    let _ = if visits.max(scratch.visits()) > most.parse().unwrap_or(0u128) {
        out.push_str("too many visits")
    } else {
        write!(out, "({is_selected}, {part:?})")
    };
}

/// Shows how many states two searches of a line visit, one like the other, and two for its first matched part. The
/// scratch is the machine's.
fn show_counts(machine: &Machine, scratch: &mut Scratch, line: &[u8], out: &mut String)
    requires fits { Fits scratch.old machine.now }
    requires short { length line.now ≤ 2 ^ 30 }
{
    for is_of_part in [false, false, true, true] {
        if is_of_part {
            machine.next_part(scratch, line, 0);
        } else {
            machine.selects(scratch, line);
        }
        let visits = scratch.visits();
        let _ = write!(out, " {visits}");
    }
}

/// The matched parts of a line. The scratch is the machine's, and the line has at most 2^30 bytes.
fn parts_of(
    alloc: Global,
    machine: &Machine,
    scratch: &mut Scratch,
    line: &[u8],
) -> Vec<(usize, usize)>
    requires fits { Fits scratch.old machine.now }
    requires short { length line.now ≤ 2 ^ 30 }
    ensures fits { Fits scratch.new machine.now }
{
    let mut parts = Vec::new(alloc);
    let mut from = 0;
    for _ in 0..line.len() {
        let place = from.min(line.len());
        let Some(part) = machine.next_part(scratch, line, place) else {
            break;
        };
        let _ = parts.push(part);
        from = part.1;
    }
    parts
}

/// Shows the matched parts of some lines. The scratch is the machine's.
fn show_parts(
    alloc: Global,
    machine: &Machine,
    scratch: &mut Scratch,
    lines: &str,
    out: &mut String,
)
    requires fits { Fits scratch.old machine.now }
    ensures fits { Fits scratch.new machine.now }
{
    for line in lines.split(' ') {
        let parts = parts_of(alloc, machine, scratch, &line_of(alloc, line));
        let _ = write!(out, " {parts:?}");
    }
}

/// Shows the matched parts of some lines. They are found twice with one scratch, and shown twice where they differ. The
/// scratch is the machine's.
fn show_parts_twice(
    alloc: Global,
    machine: &Machine,
    scratch: &mut Scratch,
    lines: &str,
    out: &mut String,
)
    requires { Fits scratch.old machine.now }
{
    let mut first = String::new(alloc);
    show_parts(alloc, machine, scratch, lines, &mut first);
    show_parts(alloc, machine, scratch, lines, out);
    if first != *out {
        let _ = out.push_str(first.as_str());
    }
}

/// Shows what is remembered of the line that some bytes begin with. The scratch is the machine's.
fn show_known(machine: &Machine, scratch: &Scratch, bytes: &[u8], out: &mut String)
    requires { Fits scratch.now machine.now }
{
    let known = match machine.recall_line(scratch, NEWLINE, bytes) {
        Some(line) => Some((line.has_hit, line.read)),
        None => None,
    };
    let _ = write!(out, " {known:?}");
}

/// Shows what is remembered of the first line of some bytes, at most 2^30, before and after it was searched. The
/// scratch is the machine's.
fn show_recalled(machine: &Machine, scratch: &mut Scratch, bytes: &[u8], out: &mut String)
    requires fits { Fits scratch.old machine.now }
    requires short { length bytes.now ≤ 2 ^ 30 }
{
    show_known(machine, scratch, bytes, out);
    let stop = if bytes.is_empty() {
        0
    } else {
        line_end(NEWLINE, bytes, 0)
    };
    machine.selects(scratch, &bytes[..stop]);
    show_known(machine, scratch, bytes, out);
}

/// Shows what searches of a line, or of lines, visit or find, as the rest of a row asks. The scratch is the machine's.
fn show_asked(alloc: Global, machine: &Machine, scratch: &mut Scratch, rest: &str, out: &mut String)
    requires { Fits scratch.old machine.now }
{
    if let Some(lines) = rest.strip_suffix(" parted") {
        show_parts_twice(alloc, machine, scratch, lines, out);
    } else if let Some((line, most)) = rest.split_once(" within ") {
        show_found(machine, scratch, &line_of(alloc, line), most, out);
    } else if let Some(bytes) = rest.strip_suffix(" recalled") {
        show_recalled(machine, scratch, &line_of(alloc, bytes), out);
    } else if let Some((line, _)) = rest.split_once(" counted") {
        show_counts(machine, scratch, &line_of(alloc, line), out);
    }
}

/// Shows what a machine of proper trees does as the rest of a row asks, with a scratch that is made for parts where the
/// row asks for these.
fn show_machine(alloc: Global, trees: &[Tree], bounds: Bounds, rest: &str, out: &mut String)
    requires { All IsProper (map pattern trees.now) }
{
    let Ok(machine) = Machine::build(alloc, trees, bounds) else {
        return;
    };
    let scratch = if rest.ends_with(" parted") || rest.ends_with(" with parts") {
        Scratch::with_parts(alloc, &machine)
    } else {
        Scratch::new(alloc, &machine)
    };
    if let Ok(mut scratch) = scratch {
        show_asked(alloc, &machine, &mut scratch, rest, out);
    }
}

/// Shows what a search of a line visits or finds, as a row asks, whose word tells of the pattern: bounds of an extended
/// expression, or `fixed`, or `none`.
pub(crate) fn show_search(alloc: Global, word: &str, asked: &str, out: &mut String) {
    let (text, rest) = asked.split_once(" on ").unwrap_or_default();
    let text = repeated(alloc, text);
    if word == "none" {
        show_machine(alloc, &[], Bounds::Any, rest, out);
    } else if word == "fixed" {
        if let Ok(tree) = fixed(alloc, &text, false) {
            show_machine(alloc, &[tree], Bounds::Whole, rest, out);
        }
    } else if let (Ok(tree), Some(bounds)) = (parse_ere(alloc, &text, false), bounds_of(word)) {
        show_machine(alloc, &[tree], bounds, rest, out);
    }
}

/// Bounds, an extended expression in parts, and a line in parts; whether it is selected, its first matched part, and
/// how many states a search may visit: for each byte of the line and once more the size of the expression.
const VISITS: &str = "any (a*)*b:1 on a:10000 within 50005 => (false, None)
any a*b:1 on a:10000 within 40004 => (false, None)
any ((a{0,100}){0,100})*b:1 on a:30 within 623193 => (false, None)
word a|a-b:1 on a-bc:1 within 30 => (true, Some((0, 1)))
word a|a-b:1 on -bc:1 within 24 => (false, None)
word :1 on a:1 within 4 => (false, None)
word :1 on -:1 within 4 => (true, None)
word :1 on :1 within 2 => (true, None)
any ((((a{0}){255}){255}){255}){255}:1 on b:1 within 2 => (true, None)
none :1 on a:1 within 2 => (false, None)";

/// Rows that tell exactly how many states the first search visits, and the same search once more; then those for the
/// first matched part. `a` begins in one state, and behind it are that one and the end of the match; a part has its own
/// run alone. `a*b` begins in three states, which it has behind each `a` too, and behind `b` it also has the end. `aa`
/// has one state at each place of its run. With a scratch that is made for parts that run is learned, and then it
/// visits none.
const COUNTS: &str = "any a:1 on a:1 counted => 3 0 2 2
any a*b:1 on aab:1 counted => 13 0 10 10
any a*b:1 on a:10000 counted => 12 0 0 0
any aa:1 on xaa:1 counted => 7 0 3 3
any aa:1 on xaa:1 counted with parts => 7 0 7 0";

/// Rows of trees that are deep or large. No machine has more than 65,536 states.
const DEEP: &str = "any a:1 *:4095 on baab:1 within 327680 => (true, Some((1, 3)))
any b:1 |a:2047 on cca:1 within 262144 => (true, Some((2, 3)))
any b:1 ?:4095 on abb:1 within 262144 => (true, Some((1, 2)))
any b:1 {1}:1365 on abb:1 within 262144 => (true, Some((1, 2)))
any a:1 {0}:1365 on aa:1 within 196608 => (true, None)
any a{0}:1 {2}:1364 on aa:1 within 196608 => (true, None)
any a:1 +:15 on baab:1 within 327680 => (true, Some((1, 3)))
any (:100 b:1 |a)*:100 on cabc:1 within 327680 => (true, Some((1, 3)))
any (a|:100 b:1 )*:100 on cabc:1 within 327680 => (true, Some((1, 3)))
any (a|b:100 c:1 ){0,1}:100 on cabbc:1 within 393216 => (true, Some((1, 2)))
fixed a:4096 on a:4096 within 268500992 => (true, Some((0, 4096)))";

/// Bounds, an extended expression, and lines; the matched parts of each line. They are found twice, the second time by
/// what is remembered.
const PARTS: &str =
    "any a{3}:1 on xaaaaaax:1 xaaa:1 aaaa:1 parted => [(1, 4), (4, 7)] [(1, 4)] [(0, 3)]
any [a-c]+b:1 on xabcbaxcb:1 xb:1 parted => [(1, 5), (7, 9)] []
any ab|abc|a:1 on xabcaab:1 -a:1 parted => [(1, 4), (4, 5), (5, 7)] [(1, 2)]
any x*$:1 on axbxx:1 axxb:1 -x:1 parted => [(3, 5)] [] [(1, 2)]
word a{3}:1 on -aaa-aaaa-aaa:1 -aaa:1 parted => [(1, 4), (10, 13)] [(1, 4)]
word [a-c]+b:1 on -abcbd-ab:1 -abcb-:1 parted => [(7, 9)] [(1, 5)]
word ab|abc|a:1 on -abc-ab-a-abcd:1 -ab:1 parted => [(1, 4), (5, 7), (8, 9)] [(1, 3)]
word x*$:1 on -x-xx:1 axx:1 parted => [(3, 5)] []
word a|a-b:1 on -a-bc:1 -a-b:1 parted => [(1, 2)] [(1, 4)]
whole a|a-b:1 on -a:1 a-b:1 parted => [] [(0, 3)]";

/// Bounds, an extended expression, and bytes; what is remembered of the line that they begin with before and after it
/// was searched: whether it has a hit, and how many of its bytes tell that.
const RECALLED: &str = "any ^a:1 on bcd:1 %0Aa:1 recalled => None Some((false, 1))
any a*b:1 on aab:1 %0Ac:1 recalled => None Some((true, 3))
any ab:1 on abab:1 %0Ac:1 recalled => None Some((true, 3))
any a$:1 on ba:1 recalled => None Some((true, 2))
any a$:1 on ab:1 %0Aa:1 recalled => None Some((false, 2))
word a:1 on ab-a:1 %0A:1 recalled => None Some((true, 4))
whole ab:1 on ab:1 %0Ab:1 recalled => None Some((true, 2))
any b*:1 on %0Ab:1 recalled => None Some((true, 0))
any b:1 on :1 recalled => None Some((false, 0))
none :1 on a:1 recalled => None None";

#[test]
fn visits_counts_and_parts(rt: HostRuntime) {
    for rows in [VISITS, COUNTS, DEEP, PARTS, RECALLED] {
        assert_rows(&rt, rt.alloc(), Question::Visits, rows);
    }
    next_part_is_one();
}

/// Whether a machine selects a line and finds its first part, and asks for no memory meanwhile. The scratch is the
/// machine's.
fn is_searched<A: Allocator + Copy>(
    heap: &Refusing,
    machine: &Machine<A>,
    scratch: &mut Scratch<A>,
) -> bool
    requires { Fits scratch.old machine.now }
{
    let requests = heap.requests();
    let is_selected = machine.selects(scratch, b"xaab");
    let part = machine.next_part(scratch, b"xaab", 0);
    is_selected && part == Some((2, 4)) && heap.requests() == requests
}

/// Makes a scratch, and answers whether it fits its machine, which searches a line with it. `alloc` is the heap.
fn search_anew<A: Allocator + Copy>(
    alloc: A,
    heap: &Refusing,
    machine: &Machine<A>,
) -> Result<bool, AllocError> {
    let mut scratch = Scratch::new(alloc, machine)?;
    Ok(scratch.fits(machine) && is_searched(heap, machine, &mut scratch))
}

/// Whether a machine of proper trees searches the line as it should, or `None` for want of memory. `alloc` is the heap.
fn search_once<A: Allocator + Copy>(alloc: A, heap: &Refusing, trees: &[Tree<A>]) -> Option<bool>
    requires { All IsProper (map pattern trees.now) }
{
    match Machine::build(alloc, trees, Bounds::Any) {
        Ok(machine) => search_anew(alloc, heap, &machine).ok(),
        Err(BuildFault::OutOfMemory) => None,
        Err(_) => Some(false),
    }
}

/// Whether the line is searched rightly, also where a refused request was for what a scratch only remembers, or memory
/// wants.
pub(crate) fn is_selected(heap: &Refusing) -> bool {
    let Ok(tree) = parse_ere(heap, b"(a|b*)c?b", false) else {
        return heap.has_refused();
    };
    match search_once(heap, heap, &[tree]) {
        Some(is_right) => is_right,
        None => heap.has_refused(),
    }
}
