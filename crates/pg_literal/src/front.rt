//! Whether what stands before a place of a line matters to the matches behind it.
ghost use Rattle.std.specs.Prelude.{◌≡◌, ◌⊎◌, IsTrue, false, map};
ghost use Rattle.std.specs.List.{All};
ghost use Rattle.pg_pattern.specs.Trees.{pattern};
ghost use Rattle.pg_literal.specs.Rests.{HasNoBegin, IgnoresFront};

use pg_pattern::{Bounds, Tree};
use std::alloc::Allocator;

/// Whether some part of a tree asks for the line's begin.
///
/// The left spine of the tree may be as long as a text, so a loop walks it.
fn has_begin<A: Allocator>(tree: &Tree<A>) -> bool
    ensures { result ≡ false → HasNoBegin (pattern tree.now) }
{
    let mut tree = tree;
    loop {
        match tree {
            Tree::Empty | Tree::Set(_) | Tree::End => return false,
            Tree::Begin => return true,
            Tree::Cat(first, second) => {
                if has_begin(second) {
                    return true;
                }
                tree = first;
            }
            Tree::Alt(first, second) => {
                if has_begin(second) {
                    return true;
                }
                tree = first;
            }
            Tree::Rep(inner, _, _) => tree = inner,
        }
    }
}

/// Whether some part of some tree asks for the line's begin.
fn some_has_begin<A: Allocator>(trees: &[Tree<A>]) -> bool
    ensures { IsTrue result ⊎ All (λ tree. HasNoBegin (pattern tree)) trees.now }
{
    trees.iter().any(|tree| has_begin(tree))
}

/// Whether what stands before a span of a line may decide whether it is a hit of some trees: some tree has a `^`, or
/// not any match counts. Else the hits behind a place are those of the rest of the line.
pub fn looks_behind<A: Allocator>(trees: &[Tree<A>], bounds: Bounds) -> bool
    ensures { result ≡ false → IgnoresFront (map pattern trees.now) bounds }
{
    match bounds {
        Bounds::Any => some_has_begin(trees),
        Bounds::Word | Bounds::Whole => true,
    }
}
