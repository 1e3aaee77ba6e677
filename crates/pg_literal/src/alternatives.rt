//! The row of sets that each match of an alternation consists of, where its alternatives have as many bytes each.
ghost use Rattle.std.specs.Prelude.{IfOk, IfSome};
ghost use Rattle.pg_pattern.specs.Trees.{pattern};
ghost use Rattle.pg_literal.specs.Fronts.{IsFrontRow, IsWider};
ghost use Rattle.pg_literal.specs.Rows.{row_along};

use crate::row::Expansion;
use crate::sets::only_set;
use pg_bytes::ByteSet;
use pg_pattern::Tree;
use std::alloc::{AllocError, Allocator};

/// The sets of which each match of a tree has a byte each, and no more, the first one first: of sets that stand one
/// behind the other. `None` for other trees.
///
/// The left spine of the tree may be as long as a text, so a loop walks it.
fn sets_along<A: Allocator + Copy>(
    alloc: A,
    tree: &Tree<A>,
) -> Result<Option<Vec<ByteSet, A>>, AllocError>
    ensures { IfOk result (λ found. IfSome found (λ row. IsFrontRow (pattern tree.now) (row_along row.items))) }
{
    let mut tree = tree;
    let mut row = Vec::new(alloc);
    while let Tree::Cat(first, second) = tree {
        let Some(set) = only_set(second) else {
            return Ok(None);
        };
        row.push(set)?;
        tree = first;
    }
    let Some(first) = only_set(tree) else {
        return Ok(None);
    };
    row.push(first)?;
    row.reverse();
    Ok(Some(row))
}

/// The sets of two rows, united one by one, where the rows have as many.
fn united<A: Allocator>(
    alloc: A,
    one: &[ByteSet],
    other: &[ByteSet],
) -> Result<Option<Vec<ByteSet, A>>, AllocError>
    ensures one { IfOk result (λ found. IfSome found (λ row. IsWider (row_along one.now) (row_along row.items))) }
    ensures other { IfOk result (λ found. IfSome found (λ row. IsWider (row_along other.now) (row_along row.items))) }
{
    if one.len() != other.len() {
        return Ok(None);
    }
    let mut row = Vec::new(alloc);
    for k in 0..one.len() {
        let set = one[k];
        row.push(set.union(other[k]))?;
    }
    Ok(Some(row))
}

/// The sets of two rows, united one by one, where the rows have as many; the other row where there is no first one.
fn joined<A: Allocator + Copy>(
    alloc: A,
    row: Option<Vec<ByteSet, A>>,
    other: Vec<ByteSet, A>,
) -> Result<Option<Vec<ByteSet, A>>, AllocError>
    ensures row { IfOk result (λ found. IfSome found
        (λ wide. IfSome row (λ row. IsWider (row_along row.items) (row_along wide.items)))) }
    ensures other { IfOk result (λ found. IfSome found
        (λ wide. IsWider (row_along other.items) (row_along wide.items))) }
{
    match row {
        Some(row) => united(alloc, &row, &other),
        None => Ok(Some(other)),
    }
}

/// The row of an alternation whose alternatives are sets that stand one behind the other, as many in each: the first
/// ones of all united, then the second ones, and so on. `None` for other trees.
///
/// The left spine of the tree may be as long as a list, so a loop walks it.
fn common_row<A: Allocator + Copy>(
    alloc: A,
    tree: &Tree<A>,
) -> Result<Option<Vec<ByteSet, A>>, AllocError>
    ensures { IfOk result (λ found. IfSome found (λ row. IsFrontRow (pattern tree.now) (row_along row.items))) }
{
    let mut tree = tree;
    let mut row = None;
    while let Tree::Alt(first, second) = tree {
        let Some(last) = sets_along(alloc, second)? else {
            return Ok(None);
        };
        let Some(wide) = joined(alloc, row, last)? else {
            return Ok(None);
        };
        row = Some(wide);
        tree = first;
    }
    let Some(left) = sets_along(alloc, tree)? else {
        return Ok(None);
    };
    let found = joined(alloc, row, left)?;
    Ok(found)
}

/// The row of an alternation whose alternatives are rows of as many sets, as `common_row` finds it, if it is wanted.
pub(crate) fn row_of_alternatives<A: Allocator + Copy>(
    alloc: A,
    tree: &Tree<A>,
    expansion: Expansion,
) -> Result<Option<Vec<ByteSet, A>>, AllocError>
    ensures { IfOk result (λ found. IfSome found (λ row. IsFrontRow (pattern tree.now) (row_along row.items))) }
{
    if expansion.unites {
        common_row(alloc, tree)
    } else {
        Ok(None)
    }
}
