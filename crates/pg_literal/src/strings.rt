//! Trees that fixed strings spell too.
ghost use Rattle.std.specs.Prelude.{◌≡◌, ◌↔◌, ℕ, IsTrue};
ghost use Rattle.std.specs.List.{All};
ghost use Rattle.pg_bytes.specs.Sets.{one};
ghost use Rattle.pg_pattern.specs.Patterns.{Set, folded};
ghost use Rattle.pg_pattern.specs.Trees.{pattern};
ghost use Rattle.pg_literal.specs.Strings.{IsOfString};

use crate::row::only_byte;
use pg_pattern::Tree;
use std::alloc::Allocator;

/// A fixed string has at most so many bytes.
const LONGEST: usize = 4_096;

/// Whether a tree matches one byte alone, or where case is folded a letter in both cases.
fn is_byte<A: Allocator>(tree: &Tree<A>, fold: bool) -> bool
    ensures { IsTrue result ↔ ((b : ℕ) × (pattern tree.now ≡ Set (folded fold (one b)))) }
{
    match tree {
        Tree::Set(set) => only_byte(set, fold).is_some(),
        Tree::Empty
        | Tree::Begin
        | Tree::End
        | Tree::Cat(_, _)
        | Tree::Alt(_, _)
        | Tree::Rep(_, _, _) => false,
    }
}

/// Whether a tree is bytes, one behind the other, so that a fixed string spells it too; at most 4,096 of them.
///
/// The left spine of the tree may be as long as a text, so a loop walks it.
fn is_string<A: Allocator>(tree: &Tree<A>, fold: bool) -> bool
    ensures { IsTrue result ↔ IsOfString fold (pattern tree.now) }
{
    let mut tree = tree;
    let mut room = LONGEST;
    loop {
        match tree {
            Tree::Cat(first, second) => {
                if room == 1 || !is_byte(second, fold) {
                    return false;
                }
                room -= 1;
                tree = first;
            }
            Tree::Set(_) => return is_byte(tree, fold),
            Tree::Empty => return room == LONGEST,
            Tree::Begin | Tree::End | Tree::Alt(_, _) | Tree::Rep(_, _, _) => return false,
        }
    }
}

/// Whether all trees are bytes, one behind the other, so that fixed strings spell them too: `www\.example\.org` as well
/// as `www.example.org` of a list of fixed strings.
pub fn are_strings<A: Allocator>(trees: &[Tree<A>], fold: bool) -> bool
    ensures { IsTrue result ↔ All (λ tree. IsOfString fold (pattern tree)) trees.now }
{
    for tree in trees {
        if !is_string(tree, fold) {
            return false;
        }
    }
    true
}
