//! Lines among bytes. The byte that ends them is `end`, which may be any byte; a last line may lack it. Places are
//! offsets from 0, in bytes.
ghost use Rattle.std.specs.Prelude.{◌≡◌, ℕ, ◌+◌, ◌<◌, ◌≤◌, List, ◌∷◌, ◌++◌, [], length, take, drop, slice_index};
ghost use Rattle.std.specs.Prelude.{slice_range};
ghost use Rattle.pg_blocks.specs.Lines.{lines, AreWhole, IsClear, Stops};

use crate::count::count_byte;
use memchr::{memchr, memrchr};

/// The byte that ends a line where nothing else is asked for (XBD 3.206).
pub const NEWLINE: u8 = b'\n';

/// Where the text ends of the line that starts at `start`, a place among the bytes: its terminator stands there, or the
/// bytes end.
pub fn line_end(end: u8, bytes: &[u8], start: usize) -> usize
    requires { start < length bytes.now }
    ensures low { start ≤ result }
    ensures high { result ≤ length bytes.now }
    ensures line { lines end (drop start bytes.now)
        ≡ slice_range bytes.now start result ∷ lines end (drop (result + 1) bytes.now) }
    ensures clear { IsClear end bytes.now start result }
    ensures ended { result < length bytes.now → slice_index bytes.now result ≡ end }
{
    match memchr(end, &bytes[start..]) {
        Some(len) => start + len,
        None => bytes.len(),
    }
}

/// Where the line begins that a place is in, or that ends there: behind the last terminator before the place, which is
/// at most the count of the bytes.
pub fn begin_of_line(end: u8, bytes: &[u8], place: usize) -> usize
    requires { place ≤ length bytes.now }
    ensures low { result ≤ place }
    ensures clear { IsClear end bytes.now result place }
    ensures whole { AreWhole end (take result bytes.now) }
{
    match memrchr(end, &bytes[..place]) {
        Some(last) => last + 1,
        None => 0,
    }
}

/// Where the line that a place is in ends, with its terminator: behind the first one from the place on, or where the
/// bytes end. The place is at most their count. What stands between it and the answer is one line, or nothing at the
/// end of the bytes.
pub fn end_of_line(end: u8, bytes: &[u8], place: usize) -> usize
    requires { place ≤ length bytes.now }
    ensures stops { (text_end : ℕ) × (place ≤ text_end) × IsClear end bytes.now place text_end
        × Stops end bytes.now text_end result }
    ensures low { place < length bytes.now → place < result }
    ensures high { result ≤ length bytes.now }
    ensures one { place < length bytes.now → length (lines end (slice_range bytes.now place result)) ≡ 1 }
    ensures apart { lines end (drop place bytes.now)
        ≡ lines end (slice_range bytes.now place result) ++ lines end (drop result bytes.now) }
    ensures whole { result < length bytes.now → AreWhole end (slice_range bytes.now place result) }
{
    match memchr(end, &bytes[place..]) {
        Some(len) => place + len + 1,
        None => bytes.len(),
    }
}

/// How many lines the bytes have. A last one that lacks the terminator is one too.
pub fn count_lines(end: u8, bytes: &[u8]) -> usize
    ensures count { result ≡ length (lines end bytes.now) }
    ensures few { result ≤ length bytes.now }
{
    let count = count_byte(end, bytes);
    match bytes.last() {
        Some(&last) => count + usize::from(last != end),
        None => count,
    }
}

/// The text of one line, without its terminator, if it has one.
pub fn text_of(end: u8, line: &[u8]) -> &[u8]
    ensures text { (text : List ℕ) → lines end line.now ≡ text ∷ [] → result.now ≡ text }
    ensures short { length result.now ≤ length line.now }
    ensures front { result.now ≡ take (length result.now) line.now }
{
    match line.last() {
        Some(&last) => &line[..line.len() - usize::from(last == end)],
        None => line,
    }
}
