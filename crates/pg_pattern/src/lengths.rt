//! How many bytes matches have.
ghost use Rattle.std.specs.Prelude.{IfSome, map};
ghost use Rattle.pg_pattern.specs.Patterns.{Pattern};
ghost use Rattle.pg_pattern.specs.Trees.{pattern};
ghost use Rattle.pg_pattern.specs.Lengths.{HasAtMost, HaveAtMost, EndsWithin, IsReachOf, HitsEndWithin};

use crate::bounds::Bounds;
use crate::tree::Tree;
use std::alloc::Allocator;

/// Trees that are nested deeper are given up, since their parts are walked by calls one within the other.
const DEEPEST: usize = 256;

/// How many bytes at most so many rounds of a pattern have, where one has at most so many.
fn longest_rounds(each: Option<usize>, count: u8) -> Option<usize>
    ensures { (p : Pattern) → IfSome each (HasAtMost p) → IfSome result (HaveAtMost p count) }
{
    if count == 0 {
        return Some(0);
    }
    each?.checked_mul(count as usize)
}

/// How many bytes at most a match of a tree has, if it is nested no deeper than this.
fn longest_in<A: Allocator>(tree: &Tree<A>, depth: usize) -> Option<usize>
    ensures { IfSome result (HasAtMost (pattern tree.now)) }
{
    if depth == 0 {
        return None;
    }
    match tree {
        Tree::Empty | Tree::Begin | Tree::End => Some(0),
        Tree::Set(_) => Some(1),
        Tree::Cat(first, second) => {
            let first = longest_in(first, depth - 1)?;
            let second = longest_in(second, depth - 1)?;
            first.checked_add(second)
        }
        Tree::Alt(first, second) => {
            let first = longest_in(first, depth - 1)?;
            let second = longest_in(second, depth - 1)?;
            Some(first.max(second))
        }
        Tree::Rep(inner, _, most) => {
            let most = (*most)?;
            longest_rounds(longest_in(inner, depth - 1), most)
        }
    }
}

/// How many bytes at most the shortest has of a tree's matches that begin at a place, wherever some do, if the tree is
/// nested no deeper than this.
fn nearest_end_in<A: Allocator>(tree: &Tree<A>, depth: usize) -> Option<usize>
    ensures { IfSome result (EndsWithin (pattern tree.now)) }
{
    if depth == 0 {
        return None;
    }
    match tree {
        Tree::Empty | Tree::Begin | Tree::End => Some(0),
        Tree::Set(_) => Some(1),
        Tree::Cat(first, second) => {
            let first = longest_in(first, depth - 1)?;
            let second = nearest_end_in(second, depth - 1)?;
            first.checked_add(second)
        }
        Tree::Alt(first, second) => {
            let first = nearest_end_in(first, depth - 1)?;
            let second = nearest_end_in(second, depth - 1)?;
            Some(first.max(second))
        }
        Tree::Rep(inner, least, _) => {
            if *least == 0 {
                return Some(0);
            }
            let first = longest_rounds(longest_in(inner, depth - 1), *least - 1)?;
            let last = nearest_end_in(inner, depth - 1)?;
            first.checked_add(last)
        }
    }
}

/// Within how many bytes of where a hit of a tree begins one ends: the shortest, where any match is a hit, else each.
fn reach_of<A: Allocator>(tree: &Tree<A>, bounds: Bounds) -> Option<usize>
    ensures { IfSome result (λ bytes. IsReachOf bounds bytes (pattern tree.now)) }
{
    match bounds {
        Bounds::Any => nearest_end_in(tree, DEEPEST),
        Bounds::Word | Bounds::Whole => longest_in(tree, DEEPEST),
    }
}

/// Within how many bytes of where a hit begins one ends, whatever the line: two for `a{2,}b*`, but as many as the
/// longest match has where the bounds don't allow each. `None` where no such bound was found: where a hit may have to
/// be longer than any count, or a tree is nested deeper than 256 levels.
pub fn hit_reach<A: Allocator>(trees: &[Tree<A>], bounds: Bounds) -> Option<usize>
    ensures { IfSome result (HitsEndWithin (map pattern trees.now) bounds) }
{
    let mut reach: usize = 0;
    for tree in trees {
        reach = reach.max(reach_of(tree, bounds)?);
    }
    Some(reach)
}
