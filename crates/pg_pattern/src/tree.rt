//! Patterns as trees.
ghost use Rattle.std.specs.Prelude.{◌≡◌, ◌≤◌, ◌↔◌, false, IsTrue, IfOk, IfSome};
ghost use Rattle.pg_pattern.specs.Patterns.{IsProper, Cat, Alt};
ghost use Rattle.pg_pattern.specs.Trees.{pattern};

use pg_bytes::ByteSet;
use std::alloc::{AllocError, Allocator, Global};

/// A pattern, as a tree.
///
/// Its left spine, over `Cat`, `Alt` and `Rep`, may be as long as a text; to its right a parsed tree
/// is at most as deep as its groups. So it is dropped by a loop over the spine.
pub enum Tree<A: Allocator = Global> {
    /// The empty string.
    Empty,
    /// One byte of the set.
    Set(ByteSet),
    /// The start of the line.
    Begin,
    /// The end of the line.
    End,
    /// The first, followed by the second.
    Cat(Box<Tree<A>, A>, Box<Tree<A>, A>),
    /// One of the two.
    Alt(Box<Tree<A>, A>, Box<Tree<A>, A>),
    /// Repetitions, of at least the first count and, where it is given, at most the second.
    Rep(Box<Tree<A>, A>, u8, Option<u8>),
}

impl<A: Allocator> Drop for Tree<A> {
    fn drop(mut self) {
        loop {
            match self {
                Tree::Cat(first, second) | Tree::Alt(first, second) => {
                    drop(second);
                    self = Box::into_inner(first);
                }
                Tree::Rep(inner, _least, _most) => self = Box::into_inner(inner),
                Tree::Empty => return,
                Tree::Set(_set) => return,
                Tree::Begin => return,
                Tree::End => return,
            }
        }
    }
}

impl<A: Allocator> Tree<A> {
    /// Whether no repetition has a least count above its greatest. Every parsed tree is proper.
    pub fn is_proper(&self) -> bool
        ensures { IsTrue result ↔ IsProper (pattern self.now) }
    {
        let mut tree = self;
        loop {
            tree = match tree {
                Tree::Cat(first, second) | Tree::Alt(first, second) => {
                    if !second.is_proper() {
                        return false;
                    }
                    first
                }
                Tree::Rep(inner, least, most) => {
                    if is_above(*least, *most) {
                        return false;
                    }
                    inner
                }
                Tree::Empty | Tree::Set(_) | Tree::Begin | Tree::End => return true,
            };
        }
    }
}

/// Whether a least count is above the greatest, where there is one.
fn is_above(least: u8, most: Option<u8>) -> bool
    ensures { result ≡ false ↔ IfSome most (λ most. least ≤ most) }
{
    match most {
        Some(most) => least > most,
        None => false,
    }
}

impl<A: Allocator + Copy> Tree<A> {
    /// The first, followed by the second. `AllocError` where a request for memory is refused; both are dropped then.
    pub fn cat(alloc: A, first: Tree<A>, second: Tree<A>) -> Result<Tree<A>, AllocError>
        ensures { IfOk result (λ tree. pattern tree ≡ Cat (pattern first) (pattern second)) }
    {
        let first = Box::new(alloc, first)?;
        let second = Box::new(alloc, second)?;
        Ok(Tree::Cat(first, second))
    }

    /// One of the two. `AllocError` where a request for memory is refused; both are dropped then.
    pub fn alt(alloc: A, first: Tree<A>, second: Tree<A>) -> Result<Tree<A>, AllocError>
        ensures { IfOk result (λ tree. pattern tree ≡ Alt (pattern first) (pattern second)) }
    {
        let first = Box::new(alloc, first)?;
        let second = Box::new(alloc, second)?;
        Ok(Tree::Alt(first, second))
    }
}
