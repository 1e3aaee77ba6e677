//! How many bytes a match needs from where it begins.
ghost use Rattle.std.specs.Prelude.{◌≡◌, false, IfSome, map};
ghost use Rattle.pg_pattern.specs.Trees.{pattern};
ghost use Rattle.pg_literal.specs.Reaches.{HasNoAnchor, IsReach};

use pg_pattern::{Bounds, Tree, hit_reach};
use std::alloc::Allocator;

/// Whether some part of a tree asks for the line's begin or end.
///
/// The left spine of the tree may be as long as a text, so a loop walks it.
fn has_anchor<A: Allocator>(tree: &Tree<A>) -> bool
    ensures { result ≡ false → HasNoAnchor (pattern tree.now) }
{
    let mut tree = tree;
    loop {
        match tree {
            Tree::Empty | Tree::Set(_) => return false,
            Tree::Begin | Tree::End => return true,
            Tree::Cat(first, second) => {
                if has_anchor(second) {
                    return true;
                }
                tree = first;
            }
            Tree::Alt(first, second) => {
                if has_anchor(second) {
                    return true;
                }
                tree = first;
            }
            Tree::Rep(inner, _, _) => tree = inner,
        }
    }
}

/// How many bytes at most a match needs from where it begins: wherever a match begins, one ends within so many bytes.
/// `None` where no such bound was found: where a match may have to be longer than any count, where a tree asks for a
/// line's begin or end, so that a match isn't one by itself, or where it's nested too deep.
pub fn reach<A: Allocator>(trees: &[Tree<A>]) -> Option<usize>
    ensures { IfSome result (IsReach (map pattern trees.now)) }
{
    for tree in trees {
        if has_anchor(tree) {
            return None;
        }
    }
    hit_reach(trees, Bounds::Any)
}
