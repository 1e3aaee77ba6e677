//! Where rows of sets stand, by which lines are found that may have a hit.
ghost use Rattle.std.specs.Prelude.{◌≡◌, ◌↔◌, ◌+◌, ◌<◌, ◌≤◌, ℕ, length, map, IsTrue, IfOk, IfSome};
ghost use Rattle.std.specs.Prelude.{false};
ghost use Rattle.std.proofs.Props.{props};
ghost use Rattle.memchr.specs.Find.{IsFirst};
ghost use Rattle.pg_bytes.specs.ByteSets.{bytes};
ghost use Rattle.pg_pattern.specs.Trees.{pattern};
ghost use Rattle.pg_pattern.specs.declared.bounds.Bounds.TheVariants.{Any};
ghost use Rattle.pg_literal.specs.Rows.{row_of, row_along, StandsAt};
ghost use Rattle.pg_literal.specs.CoveredSets.{IsCoveredSet, IsOnlyByte};
ghost use Rattle.pg_literal.specs.Needed.{without, IsEnoughRow, IsNeeded, NeedsRow, IsSureRow};
ghost use Rattle.pg_literal.specs.RowOutcomes.{FindsRow, PassesPlaces};

use crate::cost::{byte_cost, chance_of, has_use, is_cheaper, sets_cost, tells_more};
use crate::covered::{CoveredSet, OnlyByte, covered_at, only_byte_at, rarest_two};
use crate::known::{MatchFacts, with_tree};
use crate::literal::{Literal, wider};
use crate::ranges::{LANES, uncovered_places};
use crate::row::Expansion;
use crate::row_outcome::RowOutcome;
use memchr::memchr;
use pg_bytes::ByteSet;
use pg_pattern::{Bounds, Tree};
use std::alloc::{AllocError, Allocator, Global};

/// Sets of bytes of which each match has one byte each, one behind the other: of `[0-9]+[.][0-9]+` a digit, a point and
/// a digit. A line in which they don't stand so has no hit.
#[derive(Drop)]
pub struct RowFinder<A: Allocator = Global> {
    /// The sets, the first one first.
    pub(crate) sets: Vec<ByteSet, A>,
    /// The rarest set and the next one, by which places are found: first the one that stands further in front.
    near: CoveredSet,
    far: CoveredSet,
    /// The byte of the rarest set, if it has but one, and is found sooner by that.
    only: Option<OnlyByte>,
    /// Each line in which the row stands has a hit.
    pub is_enough: bool,
    /// It costs less to look for than the trees' literals. Else it is one to look for where these stand in too many
    /// lines without a hit.
    pub is_first: bool,
    ghost near_is: { IsCoveredSet (row_along sets.items) near },
    ghost far_is: { IsCoveredSet (row_along sets.items) far },
    ghost ordered: { near.offset ≤ far.offset },
    ghost only_is: { IfSome only (IsOnlyByte (row_along sets.items)) } by { Prim.hlevel props },
}

/// How many places the search for one at which a row may stand goes on by.
#[derive(Clone, Copy)]
struct Skip {
    /// So many, at none of which it stands.
    places: usize,
    /// It may stand at the next one behind them.
    is_candidate: bool,
}

/// A row may be compared so often where it doesn't stand, and once more for each `BYTES_PER_TRY` bytes that are passed,
/// until the search is given up.
const TRIES: usize = 32;

/// To compare a row takes as long as the automaton takes for a few bytes.
const BYTES_PER_TRY: usize = 32;

/// A set without the byte that ends lines.
fn within_line(set: &ByteSet, end: u8) -> ByteSet
    ensures { bytes result ≡ without end (bytes set.now) }
{
    set.complement().union(ByteSet::one(end)).complement()
}

/// The sets of a row, which lies backwards, the first one first, each without the byte that ends lines.
fn within_lines<A: Allocator>(
    alloc: A,
    row: &[ByteSet],
    end: u8,
) -> Result<Vec<ByteSet, A>, AllocError>
    ensures { IfOk result (λ sets. row_along sets.items ≡ map (without end) (row_of row.now)) }
{
    let mut sets = Vec::new(alloc);
    for set in row {
        sets.push(within_line(set, end))?;
    }
    sets.reverse();
    Ok(sets)
}

/// Whether a row is enough for a line to have a hit: a match begins wherever it stands, and any match counts.
fn is_enough(is_sure: bool, bounds: Bounds) -> bool
    ensures { IsTrue result → IsTrue is_sure × (bounds ≡ Any) }
{
    match bounds {
        Bounds::Any => is_sure,
        Bounds::Word | Bounds::Whole => false,
    }
}

/// The only byte of the set at a place of a row, which has that place, if the set has but one and is found sooner by
/// it than the row by two sets at a cost.
fn cheaper_byte(sets: &[ByteSet], offset: usize, by_sets: usize) -> Option<OnlyByte>
    requires { offset < length sets.now }
    ensures { IfSome result (IsOnlyByte (row_along sets.now)) }
{
    if byte_cost(&sets[offset]) < by_sets {
        only_byte_at(sets, offset)
    } else {
        None
    }
}

/// A row of which each match of a tree has bytes. It lies backwards.
#[derive(Drop)]
struct NeededRow<A: Allocator> {
    sets: Vec<ByteSet, A>,
    /// Wherever it stands, a match begins.
    is_sure: bool,
}

/// The rarer one of the two rows that are known of a tree.
fn rarer_row<A: Allocator + Copy>(
    alloc: A,
    tree: &Tree<A>,
    fold: bool,
) -> Result<NeededRow<A>, AllocError>
    ensures row { IfOk result (λ row. NeedsRow (pattern tree.now) (row_of row.sets.items)) }
    ensures sure { IfOk result (λ row. IsTrue row.is_sure
        → IsSureRow (pattern tree.now) (row_of row.sets.items)) }
{
    let expansion = Expansion {
        unites: true,
        ..wider(fold, 1)
    };
    let known = with_tree(alloc, tree, expansion, MatchFacts::nothing(alloc))?;
    if chance_of(&known.head) < chance_of(&known.best) {
        Ok(NeededRow {
            sets: known.head,
            is_sure: known.is_sure,
        })
    } else {
        Ok(NeededRow {
            sets: known.best,
            is_sure: known.is_best_sure,
        })
    }
}

impl<A: Allocator> RowFinder<A> {
    /// The finder of a row of which each match of some trees has bytes, in lines that end with the byte `end`. There is
    /// one for a single tree, where such a row is known that is rare, and is longer than the tree's literal, if it has
    /// but one. With `fold` the case of letters was folded for the trees. A refused request for memory is the only
    /// error.
    pub fn of(
        alloc: A,
        trees: &[Tree<A>],
        bounds: Bounds,
        fold: bool,
        end: u8,
        literals: &[Literal<A>],
    ) -> Result<Option<RowFinder<A>>, AllocError>
    where
        A: Copy,
        ensures needed { IfOk result (λ found. IfSome found
            (λ finder. IsNeeded (map pattern trees.now) bounds end (row_along finder.sets.items))) }
        ensures enough { IfOk result (λ found. IfSome found (λ finder. IsTrue finder.is_enough
            → IsEnoughRow (map pattern trees.now) bounds (row_along finder.sets.items))) }
    {
        if trees.len() != 1 {
            return Ok(None);
        }
        let row = rarer_row(alloc, &trees[0], fold)?;
        if row.sets.is_empty() || !tells_more(&row.sets, literals) {
            return Ok(None);
        }
        let sets = within_lines(alloc, &row.sets, end)?;
        let is_enough = is_enough(row.is_sure, bounds);
        Ok(RowFinder::over(sets, is_enough, literals))
    }

    /// The finder of a row of one set or more, the first one first, if it is worth to be looked for.
    fn over(sets: Vec<ByteSet, A>, is_enough: bool, literals: &[Literal<A>]) -> Option<RowFinder<A>>
        requires { 0 < length sets.items }
        ensures sets { IfSome result (λ finder. finder.sets.items ≡ sets.items) }
        ensures enough { IfSome result (λ finder. finder.is_enough ≡ is_enough) }
    {
        let (rarest, next) = rarest_two(&sets);
        let near = covered_at(&sets, rarest.min(next));
        let far = covered_at(&sets, rarest.max(next));
        let by_sets = sets_cost(near, far);
        let only = cheaper_byte(&sets, rarest, by_sets);
        let passing = if only.is_some() {
            byte_cost(&sets[rarest])
        } else {
            by_sets
        };
        if !has_use(passing) {
            return None;
        }
        let is_first = is_cheaper(passing, &sets, is_enough, literals);
        Some(RowFinder {
            sets,
            near,
            far,
            only,
            is_enough,
            is_first,
        })
    }

    /// Whether the row stands at a place of some bytes, or at their end.
    fn stands_at(&self, bytes: &[u8], at: usize) -> bool
        requires { at ≤ length bytes.now }
        ensures { IsTrue result ↔ StandsAt bytes.now (row_along self.now.sets.items) at }
    {
        if bytes.len() - at < self.sets.len() {
            return false;
        }
        for k in 0..self.sets.len() {
            if !self.sets[k].contains(bytes[at + k]) {
                return false;
            }
        }
        true
    }

    /// On to the next byte that is the only one of its set, from a place whose own such byte is there.
    fn skip_by_byte(&self, only: OnlyByte, bytes: &[u8], at: usize) -> Skip
        requires only { IsOnlyByte (row_along self.now.sets.items) only }
        requires within { at + only.offset < length bytes.now }
        ensures { PassesPlaces bytes.now (row_along self.now.sets.items) at result }
    {
        let rest = &bytes[at + only.offset..];
        match memchr(only.byte, rest) {
            Some(places) => Skip {
                places,
                is_candidate: true,
            },
            None => Skip {
                places: rest.len(),
                is_candidate: false,
            },
        }
    }

    /// On to the first of the next 32 places at which bytes of both rare sets stand, all of which are there.
    #[inline(always)]
    fn skip_by_sets(&self, bytes: &[u8], at: usize) -> Skip
        requires { at + self.now.far.offset + 32 ≤ length bytes.now }
        ensures { PassesPlaces bytes.now (row_along self.now.sets.items) at result }
    {
        let distance = self.far.offset - self.near.offset;
        let start = at + self.near.offset;
        let places = uncovered_places(self.near.cover, self.far.cover, distance, bytes, start);
        Skip {
            places,
            is_candidate: places < LANES,
        }
    }

    /// On to a place at which the row may stand, from one behind which it and 32 bytes more have room.
    #[inline(always)]
    fn next_candidate(&self, bytes: &[u8], at: usize) -> Skip
        requires { at + length self.now.sets.items + 32 ≤ length bytes.now }
        ensures { PassesPlaces bytes.now (row_along self.now.sets.items) at result }
    {
        match self.only {
            Some(only) => self.skip_by_byte(only, bytes, at),
            None => self.skip_by_sets(bytes, at),
        }
    }

    /// The first place at or behind one of some bytes, or their end, at which the row stands, where each is tried.
    fn find_by_trying(&self, bytes: &[u8], from: usize) -> Option<usize>
        requires { from ≤ length bytes.now }
        ensures { IsFirst (StandsAt bytes.now (row_along self.now.sets.items)) from (length bytes.now) result }
    {
        for at in from..bytes.len() {
            if self.stands_at(bytes, at) {
                return Some(at);
            }
        }
        None
    }

    /// The first place of some bytes at which the row stands. The search is given up where its rarest bytes stand so
    /// close together, and in vain, that the automaton would be faster.
    pub fn find(&self, bytes: &[u8]) -> RowOutcome
        ensures { FindsRow bytes.now (row_along self.now.sets.items) result }
    {
        let mut at = 0;
        let mut tries = 0;
        while bytes.len() - at >= LANES + self.sets.len() {
            let skip = self.next_candidate(bytes, at);
            at += skip.places;
            if skip.is_candidate {
                if self.stands_at(bytes, at) {
                    return RowOutcome::Found(at);
                }
                at += 1;
                tries += 1;
                if tries > TRIES + at / BYTES_PER_TRY {
                    return RowOutcome::GaveUp;
                }
            }
        }
        match self.find_by_trying(bytes, at) {
            Some(place) => RowOutcome::Found(place),
            None => RowOutcome::NotFound,
        }
    }
}
