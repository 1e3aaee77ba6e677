//! How many states trees take.
ghost use Rattle.std.specs.Prelude.{◌≡◌, ◌+◌, ◌*◌, min, All, map};
ghost use Rattle.pg_pattern.specs.Patterns.{IsProper};
ghost use Rattle.pg_pattern.specs.Trees.{pattern};
ghost use Rattle.pg_match.specs.Sizes.{size_of, list_size};

use pg_pattern::Tree;
use std::alloc::Allocator;

/// The most states of an automaton.
pub(crate) const MAX_STATES: u64 = 65_536;

/// One more than an automaton may have. Whatever is larger counts as this.
const TOO_MANY: u64 = MAX_STATES + 1;

/// The size of a tree, or 65,537 where it is larger. The left spine of the tree is walked by a loop.
pub(crate) fn size<A: Allocator>(tree: &Tree<A>) -> u64
    requires { IsProper (pattern tree.now) }
    ensures { result ≡ min (size_of (pattern tree.now)) 65537 }
{
    let mut tree = tree;
    let mut times = 1;
    let mut total = 0;
    loop {
        match tree {
            Tree::Empty | Tree::Set(_) | Tree::Begin | Tree::End => return capped(total + times),
            Tree::Cat(first, second) => {
                total = capped(total + times * size(second));
                tree = first;
            }
            Tree::Alt(first, second) => {
                total = capped(total + times * (size(second) + 1));
                tree = first;
            }
            Tree::Rep(inner, least, most) => match *most {
                None => {
                    total = capped(total + times);
                    times = capped(times * (u64::from(*least) + 1));
                    tree = inner;
                }
                Some(most) => {
                    total = capped(total + times * u64::from(most - *least));
                    times = capped(times * u64::from(most));
                    tree = inner;
                }
            },
        }
    }
}

/// A size, or 65,537 where it is larger.
pub(crate) fn capped(size: u64) -> u64
    ensures { result ≡ min size 65537 }
{
    size.min(TOO_MANY)
}

/// The size of a list of trees, or 65,537 where it is larger.
pub(crate) fn list_size<A: Allocator>(trees: &[Tree<A>]) -> u64
    requires { All IsProper (map pattern trees.now) }
    ensures { result ≡ min (list_size (map pattern trees.now)) 65537 }
{
    let mut total = 0;
    for (i, tree) in trees.iter().enumerate() {
        let one = size(tree);
        total = capped(total + one + if i == 0 { 0 } else { 1 });
    }
    capped(total + 1)
}
