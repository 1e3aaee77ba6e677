//! The bytes with which each line with a hit ends, where these are all that a match is.
ghost use Rattle.std.specs.Prelude.{◌≡◌, ℕ, IsTrue, IfOk, IfSome, MatchOption, map};
ghost use Rattle.pg_pattern.specs.Patterns.{Pattern, Cat, End};
ghost use Rattle.pg_pattern.specs.Trees.{pattern};
ghost use Rattle.pg_literal.specs.Rows.{row_of};
ghost use Rattle.pg_literal.specs.Suffixes.{IsSuffixAt, IsExactRow, IsSuffix, suffix_row};

use crate::sets::only_set;
use pg_bytes::ByteSet;
use pg_pattern::{Bounds, Tree};
use std::alloc::{AllocError, Allocator, Global};

/// What each match of an expression like `[.!?]"$` is: one byte of each of some sets, behind which the line ends.
#[derive(Drop)]
pub struct LineSuffix<A: Allocator = Global> {
    /// The sets, the last one first.
    pub(crate) sets: Vec<ByteSet, A>,
}

/// Whether a tree is the end of a line.
fn is_end<A: Allocator>(tree: &Tree<A>) -> bool
    ensures { IsTrue result → pattern tree.now ≡ End }
{
    match tree {
        Tree::End => true,
        _ => false,
    }
}

/// The sets of a tree that matches one byte of each, the last one first; `None` for others.
///
/// The left spine of the tree may be as long as a text, so a loop walks it.
fn row_sets<A: Allocator + Copy>(
    alloc: A,
    tree: &Tree<A>,
) -> Result<Option<Vec<ByteSet, A>>, AllocError>
    ensures { IfOk result (λ found. IfSome found (λ sets. IsExactRow (pattern tree.now) (row_of sets.items))) }
{
    let mut sets = Vec::new(alloc);
    let mut tree = tree;
    while let Tree::Cat(front, last) = tree {
        let Some(set) = only_set(last) else {
            return Ok(None);
        };
        sets.push(set)?;
        tree = front;
    }
    let Some(set) = only_set(tree) else {
        return Ok(None);
    };
    sets.push(set)?;
    Ok(Some(sets))
}

/// The suffix of a tree that is sets one behind the other, and the end of a line behind them; `None` for others.
fn tree_suffix<A: Allocator + Copy>(
    alloc: A,
    tree: &Tree<A>,
) -> Result<Option<LineSuffix<A>>, AllocError>
    ensures { IfOk result (λ found. IfSome found
        (λ suffix. (front : Pattern) × (pattern tree.now ≡ Cat front End) × IsExactRow front (suffix_row suffix))) }
{
    let Tree::Cat(front, last) = tree else {
        return Ok(None);
    };
    if !is_end(last) {
        return Ok(None);
    }
    match row_sets(alloc, front)? {
        Some(sets) => Ok(Some(LineSuffix { sets })),
        None => Ok(None),
    }
}

impl<A: Allocator> LineSuffix<A> {
    /// The suffix that is each match of some trees: there is one for a single tree of sets one behind the other and
    /// `$` behind them, where any match counts. `None` for others. A refused request for memory is the only error.
    pub fn of(
        alloc: A,
        trees: &[Tree<A>],
        bounds: Bounds,
    ) -> Result<Option<LineSuffix<A>>, AllocError>
    where
        A: Copy,
        ensures { IfOk result (λ found. IfSome found
            (λ suffix. IsSuffix (map pattern trees.now) bounds (suffix_row suffix))) }
    {
        if trees.len() != 1 {
            return Ok(None);
        }
        match bounds {
            Bounds::Any => tree_suffix(alloc, &trees[0]),
            Bounds::Word | Bounds::Whole => Ok(None),
        }
    }

    /// Where it begins in a line that ends with it; `None` for other lines.
    pub fn find(&self, line: &[u8]) -> Option<usize>
        ensures { MatchOption result ((i : ℕ) → IsSuffixAt line.now (suffix_row self.now) i → ⊥)
            (IsSuffixAt line.now (suffix_row self.now)) }
    {
        if line.len() < self.sets.len() {
            return None;
        }
        for k in 0..self.sets.len() {
            if !self.sets[k].contains(line[line.len() - 1 - k]) {
                return None;
            }
        }
        Some(line.len() - self.sets.len())
    }
}
