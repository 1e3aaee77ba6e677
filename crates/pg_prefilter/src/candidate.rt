//! Lines that hold what is looked for in a block.
ghost use Rattle.std.specs.Prelude.{◌≡◌, ◌-◌, ◌≤◌, length, drop};
ghost use Rattle.pg_prefilter.specs.Candidates.{IsLineAround};

use pg_blocks::{Span, begin_of_line, end_of_line};

/// A line that holds what is looked for.
#[derive(Clone, Copy)]
pub struct Candidate {
    /// The line with its terminator.
    pub line: Span,
    /// What it holds is enough for it to have a hit.
    pub is_enough: bool,
}

/// What the search for the next such line came to.
#[derive(Clone, Copy)]
pub enum NextLine {
    Found(Candidate),
    /// There is none.
    Nowhere,
    /// To look for it takes too long here.
    GaveUp,
}

impl Candidate {
    /// The line of a block that a place is in, as far as it stands at or behind `at`, where `end` is the byte that ends
    /// lines. The place is at most the count of the bytes, and `at` at most the place.
    pub(crate) fn around(
        end: u8,
        bytes: &[u8],
        at: usize,
        place: usize,
        is_enough: bool,
    ) -> Candidate
        requires at { at ≤ place }
        requires place { place ≤ length bytes.now }
        ensures line { IsLineAround end at (drop at bytes.now) (place - at) result.line }
        ensures flag { result.is_enough ≡ is_enough }
    {
        let rest = &bytes[at..];
        let line = Span {
            start: at + begin_of_line(end, rest, place - at),
            end: at + end_of_line(end, rest, place - at),
        };
        Candidate { line, is_enough }
    }
}
