//! Trees that match one byte of a set.
ghost use Rattle.std.specs.Prelude.{◌≡◌, IfSome};
ghost use Rattle.pg_bytes.specs.ByteSets.{bytes};
ghost use Rattle.pg_pattern.specs.Patterns.{Set};
ghost use Rattle.pg_pattern.specs.Trees.{pattern};
ghost use Rattle.pg_literal.specs.Known.{MatchesSet};

use pg_bytes::ByteSet;
use pg_pattern::Tree;
use std::alloc::Allocator;

/// The set of a tree that is one.
pub(crate) fn only_set<A: Allocator>(tree: &Tree<A>) -> Option<ByteSet>
    ensures { IfSome result (λ set. pattern tree.now ≡ Set (bytes set)) }
{
    match tree {
        Tree::Set(set) => Some(*set),
        _ => None,
    }
}

/// The bytes of which a tree matches one each, if it is a set or an alternation of sets; `None` for others.
///
/// The left spine of the tree may be as long as a list, so a loop walks it.
pub(crate) fn set_of<A: Allocator>(tree: &Tree<A>) -> Option<ByteSet>
    ensures { IfSome result (λ set. MatchesSet (pattern tree.now) (bytes set)) }
{
    let mut tree = tree;
    let mut found = ByteSet::empty();
    while let Tree::Alt(first, second) = tree {
        found = found.union(only_set(second)?);
        tree = first;
    }
    Some(found.union(only_set(tree)?))
}
