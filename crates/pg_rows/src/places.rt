//! Where several lines of a text begin and end. The byte that ends them is `end`.
ghost use Rattle.std.specs.Prelude.{◌≡◌, ◌≤◌, length, take, drop};
ghost use Rattle.circular_buffer.specs.Buffer.{keep_last};
ghost use Rattle.pg_blocks.specs.Lines.{lines, AreWhole};
ghost use Rattle.pg_rows.specs.Places.{FirstLines};

use pg_blocks::{begin_of_line, end_of_line};

/// Where the first `count` lines of a text end, or the text, if it has fewer.
pub(crate) fn end_of_first(end: u8, text: &[u8], count: usize) -> usize
    ensures { FirstLines end text.now result count }
{
    let mut at = 0;
    let mut left = count;
    while left > 0 && at < text.len() {
        at = end_of_line(end, text, at);
        left -= 1;
    }
    at
}

/// Where the last `count` lines of some whole lines begin.
pub(crate) fn start_of_last(end: u8, text: &[u8], count: usize) -> usize
    requires whole { AreWhole end text.now }
    requires within { count ≤ length (lines end text.now) }
    ensures within { result ≤ length text.now }
    ensures last { lines end (drop result text.now) ≡ keep_last count (lines end text.now) }
    ensures whole { AreWhole end (take result text.now) }
{
    let mut start = text.len();
    let mut left = count;
    while left > 0 {
        start = begin_of_line(end, text, start - 1);
        left -= 1;
    }
    start
}
