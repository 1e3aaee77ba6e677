//! What it costs to look for texts, and for rows of sets. No contract speaks of it: it only decides between such as
//! all serve.

ghost use Rattle.std.specs.Prelude.{◌≤◌};

use crate::covered::CoveredSet;
use crate::literal::{Literal, cost_of};
use crate::ranges::Cover;
use pg_bytes::ByteSet;
use std::alloc::Allocator;

/// Up to so many texts are looked for one by one, and more of them together.
pub const FEW_TEXTS: usize = 8;

/// What it costs to pass a byte in the search for one of a few texts, in picoseconds.
const ONE: usize = 60;

/// What it costs to pass a byte in the search for many texts, which are looked for together.
const MANY: usize = 700;

/// What a byte costs the automaton, which is asked about each line where there are no texts.
const NO_TEXT: usize = 1_250;

/// What a line costs that holds a text, but may have no hit: the automaton reads it.
const IN_VAIN: usize = 200_000;

/// What a line costs that holds a text which is enough.
const SELECTED: usize = 50_000;

/// How rare the rarest bytes are.
pub(crate) const RAREST: usize = 10;

/// How rare a byte is: how often one is halved for the part of all bytes that are this one, about as in prose and in
/// programs. Punctuation counts as rare: where it is, a search for it alone is by far the fastest, and where it isn't,
/// texts with it hardly spare the automaton a line. What stands in prose, names and lists counts as less rare than what
/// doesn't.
pub(crate) fn rarity_of(byte: u8) -> usize
    ensures { result ≤ 10 }
{
    match byte {
        b' ' => 3,
        0 | b'e' | b't' | b'a' | b'o' | b'i' | b'n' | b's' | b'r' | b'h' => 4,
        b'l' | b'd' | b'c' | b'u' | b'm' => 5,
        b'f' | b'g' | b'p' | b'w' | b'y' | b'b' | u8::MAX => 6,
        b'v' | b'k' | b'\t' | b'0'..=b'9' => 7,
        b'A'..=b'Z' => 8,
        b'.' | b',' | b'-' | b'_' | b'/' | b':' | b'"' | b'\'' | b'(' | b')' | b'=' | b';' => 9,
        _ => RAREST,
    }
}

/// What is paid for each byte that is passed, as so many texts are looked for, without the lines that hold one.
pub(crate) fn passing_cost(count: usize) -> usize {
    match count {
        0 => NO_TEXT,
        1..=FEW_TEXTS => count * ONE,
        _ => MANY,
    }
}

/// What is paid for each byte that is passed for the lines that hold a text.
pub(crate) fn finding_cost(text: &[u8], is_enough: bool) -> usize {
    let mut rarity: usize = 0;
    for &byte in text {
        rarity = rarity.saturating_add(rarity_of(byte));
    }
    let line = if is_enough { SELECTED } else { IN_VAIN };
    if rarity < 20 { line >> rarity } else { 0 }
}

/// The chance of a byte to be one that is rare in any text, in parts of 2^32.
const ODD: usize = 1 << 19;

/// What is certain, as a chance.
const CERTAIN: usize = 1 << 32;

/// No row is looked for by two sets whose bytes are to be expected more often. Where they stand as often, the search of
/// a block is soon given up; where they don't, it takes a tenth of the time.
const OFTEN: usize = CERTAIN / 8;

/// What it costs to pass a byte in the search by a pair of ranges, in picoseconds.
const PAIR: usize = 125;

/// What it costs to compare a row where bytes of these sets stand.
const COMPARING: usize = 8_000;

/// The chance of a byte, in parts of 2^32. Controls and bytes above 127 are taken for rare ones: where they aren't,
/// that soon shows. Newlines stand behind lines of some 64 bytes.
pub(crate) fn chance_of_byte(byte: u8) -> usize {
    match byte {
        b'\n' => CERTAIN >> 6,
        b'\t' | b' '..=127 => CERTAIN >> rarity_of(byte),
        _ => ODD,
    }
}

/// The chance of a byte to be in a set, in parts of 2^32.
fn chance_in(set: &ByteSet) -> usize {
    let mut chance: usize = 0;
    for byte in 0..=u8::MAX {
        if set.contains(byte) {
            chance = chance.saturating_add(chance_of_byte(byte));
        }
    }
    chance.min(CERTAIN)
}

/// The chance of a byte to be in ranges that cover a set.
pub(crate) fn chance_covered(cover: Cover) -> usize {
    let mut chance: usize = 0;
    for byte in 0..=u8::MAX {
        if cover.contains(byte) {
            chance = chance.saturating_add(chance_of_byte(byte));
        }
    }
    chance.min(CERTAIN)
}

/// The chance of a place to have a byte of each of some sets, one behind the other, in parts of 2^32.
pub(crate) fn chance_of(sets: &[ByteSet]) -> usize {
    let mut chance = CERTAIN;
    for set in sets {
        chance = (chance >> 16).saturating_mul(chance_in(set) >> 16);
    }
    chance
}

/// Whether fewer lines are to be expected with a row than with some literals, as far as their lengths tell: it is
/// longer than the only one, or there are several or none.
pub(crate) fn tells_more<A: Allocator>(row: &[ByteSet], literals: &[Literal<A>]) -> bool {
    match literals {
        [literal] => row.len() > literal.text.len(),
        _ => true,
    }
}

/// What is paid for each byte that is passed in the search for the only byte of a set, and for trying a row there.
pub(crate) fn byte_cost(set: &ByteSet) -> usize {
    ONE.saturating_add(COMPARING.saturating_mul(chance_in(set) >> 16) >> 16)
}

/// What is paid for each byte that is passed in the search for bytes of two sets, and for trying a row there.
pub(crate) fn sets_cost(near: CoveredSet, far: CoveredSet) -> usize {
    let first = chance_covered(near.cover);
    let second = if near.offset == far.offset {
        CERTAIN
    } else {
        chance_covered(far.cover)
    };
    let both = (first >> 16).saturating_mul(second >> 16);
    if both > OFTEN {
        NO_TEXT
    } else {
        let passing = PAIR.saturating_mul(near.cover.pairs() + far.cover.pairs());
        passing.saturating_add(COMPARING.saturating_mul(both >> 16) >> 16)
    }
}

/// Whether a row is worth to be looked for at what is paid for passing bytes: it costs less than to ask the automaton
/// about each line. What lines cost that hold it in vain soon shows in a block.
pub(crate) fn has_use(passing: usize) -> bool {
    passing < NO_TEXT
}

/// Whether such a row costs less than some literals, if there are any, and these aren't cheap.
pub(crate) fn is_cheaper<A: Allocator>(
    passing: usize,
    row: &[ByteSet],
    is_enough: bool,
    literals: &[Literal<A>],
) -> bool {
    let line = if is_enough { SELECTED } else { IN_VAIN };
    let lines = line.saturating_mul(chance_of(row) >> 16) >> 16;
    let texts = cost_of(literals);
    literals.is_empty() || texts > 2 * ONE && passing.saturating_add(lines) < texts
}
