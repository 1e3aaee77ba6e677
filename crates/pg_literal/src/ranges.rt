//! Ranges of bytes that cover a set, and which of many bytes are in them.
ghost use Rattle.std.specs.Prelude.{◌≡◌, ◌+◌, ◌-◌, ◌%◌, ◌<◌, ◌≤◌, ℕ, true, length, map};
ghost use Rattle.std.specs.Prelude.{slice_index, get_or, ◌||◌};
ghost use Rattle.pg_bytes.specs.ByteSets.{bytes};
ghost use Rattle.pg_literal.specs.Ranges.{covered, in_pair, in_range, bit_of};

use crate::cost::chance_of_byte;
use pg_bytes::ByteSet;
use std::simd::prelude::*;

/// How many places are looked at together.
pub(crate) const LANES: usize = 32;

/// A byte, and so many behind it; behind 255 comes 0.
#[derive(Clone, Copy)]
pub(crate) struct ByteRange {
    low: u8,
    /// How many bytes stand behind the lowest one.
    span: u8,
}

/// Two ranges.
#[derive(Clone, Copy)]
pub(crate) struct RangePair {
    first: ByteRange,
    second: ByteRange,
}

/// Ranges which together have each byte of a set.
#[derive(Clone, Copy)]
pub(crate) enum Cover {
    Two(RangePair),
    Four(RangePair, RangePair),
}

/// The chance of a byte, in parts of 2^32, to be in the gap before one of a set: those before it, as far as they aren't
/// in the set; before 0 comes 255.
fn chance_of_gap(set: &ByteSet, byte: u8) -> usize {
    let mut chance: usize = 0;
    for distance in 1..=u8::MAX {
        let other = byte.wrapping_sub(distance);
        if set.contains(other) {
            return chance;
        }
        chance = chance.saturating_add(chance_of_byte(other));
    }
    chance
}

/// The first byte of a set from `from` on, which is at most 256, with a gap of this chance or more before it; 256 where
/// there is none.
fn next_cut(set: &ByteSet, from: u16, chance: usize) -> u16
    requires { from ≤ 256 }
    ensures onward { from ≤ result }
    ensures within { result ≤ 256 }
{
    for byte in from..256 {
        if set.contains(byte as u8) && chance_of_gap(set, byte as u8) >= chance {
            return byte;
        }
    }
    256
}

/// Whether a set has more than so many gaps of a chance or more.
fn has_more_gaps(set: &ByteSet, most: usize, chance: usize) -> bool {
    let mut count: usize = 0;
    for byte in 0..=u8::MAX {
        if set.contains(byte) && chance_of_gap(set, byte) >= chance {
            count = count.saturating_add(1);
        }
    }
    count > most
}

/// The chance of the likeliest gap of a set, of those that are less likely than this; 0 where there is none.
fn likeliest_gap_below(set: &ByteSet, chance: usize) -> usize {
    let mut greatest: usize = 0;
    for byte in 0..=u8::MAX {
        if set.contains(byte) {
            let own = chance_of_gap(set, byte);
            if own < chance {
                greatest = greatest.max(own);
            }
        }
    }
    greatest
}

/// The least chance that at most so many gaps of a set have or pass.
fn chance_of_gaps(set: &ByteSet, most: usize) -> usize {
    let mut chance = usize::MAX;
    for _gap in 0..most {
        let next = likeliest_gap_below(set, chance);
        if has_more_gaps(set, most, next) {
            return chance;
        }
        chance = next;
    }
    chance
}

/// The least range with each byte of a set from `start` on, up to before `stop`, where 256 is 0 again, and so on. The
/// second is at least the first, at most 256 more than it, and at most 512.
fn range_between(set: &ByteSet, start: u16, stop: u16) -> ByteRange
    requires ordered { start ≤ stop }
    requires within { stop ≤ start + 256 }
    requires twice { stop ≤ 512 }
    ensures { (b : ℕ) → start ≤ b → b < stop → bytes set.now (b % 256) ≡ true → in_range result (b % 256) ≡ true }
{
    let mut first = start;
    while first < stop && !set.contains((first % 256) as u8) {
        first += 1;
    }
    let mut last = stop;
    while last > first && !set.contains(((last - 1) % 256) as u8) {
        last -= 1;
    }
    ByteRange {
        low: (first % 256) as u8,
        span: (last - first).saturating_sub(1) as u8,
    }
}

/// For each of 32 bytes one where it is in a range, and zero elsewhere.
#[inline(always)]
fn marks_in(range: ByteRange, lanes: u8x32) -> u8x32
    ensures { result ≡ map (λ b. bit_of (in_range range b)) lanes }
{
    (lanes - u8x32::splat(range.low))
        .simd_le(u8x32::splat(range.span))
        .select(u8x32::splat(1), u8x32::splat(0))
}

impl RangePair {
    /// The least ranges with each byte of a set from `start` on, up to before `cut`, and from there on, up to before
    /// `stop`, where 256 is 0 again, and so on. The three are in their order, `stop` is at most 256 more than `start`,
    /// and at most 512.
    fn between(set: &ByteSet, start: u16, cut: u16, stop: u16) -> RangePair
        requires ordered { (start ≤ cut) × (cut ≤ stop) }
        requires within { stop ≤ start + 256 }
        requires twice { stop ≤ 512 }
        ensures { (b : ℕ) → start ≤ b → b < stop → bytes set.now (b % 256) ≡ true → in_pair result (b % 256) ≡ true }
    {
        RangePair {
            first: range_between(set, start, cut),
            second: range_between(set, cut, stop),
        }
    }

    /// Whether a byte is in one of the ranges.
    fn contains(self, byte: u8) -> bool
        ensures { result ≡ in_pair self byte }
    {
        byte.wrapping_sub(self.first.low) <= self.first.span
            || byte.wrapping_sub(self.second.low) <= self.second.span
    }

    /// For each of 32 bytes one where it is in one of the ranges, and zero elsewhere.
    #[inline(always)]
    fn marks(self, lanes: u8x32) -> u8x32
        ensures { result ≡ map (λ b. bit_of (in_pair self b)) lanes }
    {
        marks_in(self.first, lanes) | marks_in(self.second, lanes)
    }
}

impl Cover {
    /// The ranges between the two likeliest gaps of a set, so that few bytes are to be expected in them that aren't in
    /// the set.
    pub fn by_two(set: &ByteSet) -> Cover
        ensures { (b : ℕ) → b < 256 → bytes set.now b ≡ true → covered result b ≡ true }
    {
        let gap = chance_of_gaps(set, 2);
        let first = next_cut(set, 0, gap);
        let second = next_cut(set, (first + 1).min(256), gap);
        Cover::Two(RangePair::between(set, first, second, first + 256))
    }

    /// The ranges between the four likeliest gaps of a set.
    pub fn by_four(set: &ByteSet) -> Cover
        ensures { (b : ℕ) → b < 256 → bytes set.now b ≡ true → covered result b ≡ true }
    {
        let gap = chance_of_gaps(set, 4);
        let first = next_cut(set, 0, gap);
        let second = next_cut(set, (first + 1).min(256), gap);
        let third = next_cut(set, (second + 1).min(256), gap);
        let fourth = next_cut(set, (third + 1).min(256), gap);
        Cover::Four(
            RangePair::between(set, first, second, third),
            RangePair::between(set, third, fourth, first + 256),
        )
    }

    /// How many pairs of ranges there are.
    pub fn pairs(self) -> usize
        ensures { result ≤ 2 }
    {
        match self {
            Cover::Two(_) => 1,
            Cover::Four(_, _) => 2,
        }
    }

    /// Whether a byte is in one of the ranges.
    pub fn contains(self, byte: u8) -> bool
        ensures { result ≡ covered self byte }
    {
        match self {
            Cover::Two(pair) => pair.contains(byte),
            Cover::Four(pair, other) => pair.contains(byte) || other.contains(byte),
        }
    }

    /// The ranges as two pairs: twice the same where there is but one.
    #[inline(always)]
    fn as_pairs(self) -> (RangePair, RangePair)
        ensures { (b : ℕ) → (in_pair result.0 b || in_pair result.1 b) ≡ covered self b }
    {
        match self {
            Cover::Two(pair) => (pair, pair),
            Cover::Four(pair, other) => (pair, other),
        }
    }
}

/// How many of 32 lanes come before the first that is one in both; 32 where there is none.
#[inline(always)]
fn lanes_before_both(near: u8x32, far: u8x32) -> usize
    ensures few { result ≤ 32 }
    ensures none { (k : ℕ) → k < result → get_or near k 0 ≡ 1 → get_or far k 0 ≡ 1 → ⊥ }
{
    let found = (near & far).simd_eq(u8x32::splat(1)).to_bitmask();
    if found == 0 {
        LANES
    } else {
        found.trailing_zeros() as usize
    }
}

/// How many of the 32 places from one on come before the first with a covered byte and another one, covered too, behind
/// it at a distance; 32 where there is none. From both places on 32 bytes have to be there.
#[inline(always)]
pub(crate) fn uncovered_places(
    near: Cover,
    far: Cover,
    distance: usize,
    bytes: &[u8],
    at: usize,
) -> usize
    requires { at + distance + 32 ≤ length bytes.now }
    ensures few { result ≤ 32 }
    ensures none { (k : ℕ) → k < result → covered near (slice_index bytes.now (at + k)) ≡ true
        → covered far (slice_index bytes.now (at + distance + k)) ≡ true → ⊥ }
{
    let first = u8x32::from_slice(&bytes[at..]);
    let second = u8x32::from_slice(&bytes[at + distance..]);
    // Each arm ends with a number: lanes that two arms have in common are taken apart byte by byte.
    match (near, far) {
        (Cover::Two(near), Cover::Two(far)) => lanes_before_both(
            near.marks(first),
            far.marks(second),
        ),
        _ => {
            let (near, more_near) = near.as_pairs();
            let (far, more_far) = far.as_pairs();
            lanes_before_both(
                near.marks(first) | more_near.marks(first),
                far.marks(second) | more_far.marks(second),
            )
        }
    }
}
