//! The places of a row by which it is looked for.
ghost use Rattle.std.specs.Prelude.{◌≡◌, ◌<◌, ℕ, true, length, IfSome};
ghost use Rattle.pg_bytes.specs.ByteSets.{bytes};
ghost use Rattle.pg_literal.specs.CoveredSets.{IsCoveredSet, IsOnlyByte};
ghost use Rattle.pg_literal.specs.Ranges.{covered};
ghost use Rattle.pg_literal.specs.Rows.{row_along};

use crate::cost::{chance_covered, chance_of};
use crate::ranges::Cover;
use crate::row::only_byte;
use pg_bytes::ByteSet;

/// A set of a row, by its place, with ranges that have its bytes.
#[derive(Clone, Copy)]
pub(crate) struct CoveredSet {
    pub offset: usize,
    pub cover: Cover,
}

/// A place of a row whose set has but one byte.
#[derive(Clone, Copy)]
pub(crate) struct OnlyByte {
    pub offset: usize,
    pub byte: u8,
}

/// Ranges that have the bytes of a set: four, where two have other bytes that are to be expected twice as often.
fn cover_of(set: &ByteSet) -> Cover
    ensures { (b : ℕ) → b < 256 → bytes set.now b ≡ true → covered result b ≡ true }
{
    let two = Cover::by_two(set);
    let four = Cover::by_four(set);
    if chance_covered(four) < chance_covered(two) / 2 {
        four
    } else {
        two
    }
}

/// The set at a place of a row, which has it, covered.
pub(crate) fn covered_at(sets: &[ByteSet], offset: usize) -> CoveredSet
    requires { offset < length sets.now }
    ensures set { IsCoveredSet (row_along sets.now) result }
    ensures offset { result.offset ≡ offset }
{
    CoveredSet {
        offset,
        cover: cover_of(&sets[offset]),
    }
}

/// The only byte of the set at a place of a row, which has that place, if the set has but one.
pub(crate) fn only_byte_at(sets: &[ByteSet], offset: usize) -> Option<OnlyByte>
    requires { offset < length sets.now }
    ensures { IfSome result (IsOnlyByte (row_along sets.now)) }
{
    let byte = only_byte(&sets[offset], false)?;
    Some(OnlyByte { offset, byte })
}

/// The places of the two rarest sets of a row of one or more, the rarer one first; twice the same of a row of one.
pub(crate) fn rarest_two(sets: &[ByteSet]) -> (usize, usize)
    requires { 0 < length sets.now }
    ensures { (result.0 < length sets.now) × (result.1 < length sets.now) }
{
    let mut rarest = 0;
    let mut next = 0;
    let mut chance = chance_of(&sets[..1]);
    let mut next_chance = usize::MAX;
    for k in 1..sets.len() {
        let own = chance_of(&sets[k..k + 1]);
        if own < chance {
            next = rarest;
            next_chance = chance;
            rarest = k;
            chance = own;
        } else if own < next_chance {
            next = k;
            next_chance = own;
        }
    }
    (rarest, next)
}
