//! The texts of alternations within a tree.
ghost use Rattle.std.specs.Prelude.{◌≡◌, ◌⊎◌, ◌<◌, [], ◌∷◌, length, map, false, IfOk};
ghost use Rattle.std.specs.List.{All};
ghost use Rattle.pg_pattern.specs.Patterns.{Pattern};
ghost use Rattle.pg_pattern.specs.Trees.{pattern};
ghost use Rattle.pg_pattern.specs.declared.bounds.Bounds.TheVariants.{Any};
ghost use Rattle.pg_literal.specs.Literals.{AreNeeded};
ghost use Rattle.pg_literal.specs.Inner.{text_of, AreInnerTexts, IsPart, IsNeededOnly};

use crate::literal::{Literal, cost_of, push_literals, single};
use pg_pattern::{Bounds, Tree};
use std::alloc::{AllocError, Allocator};

/// Forgets what a literal would tell of the alternation alone.
fn forget_flags<A: Allocator>(literal: &mut Literal<A>)
    ensures text { literal.new.text ≡ literal.old.text }
    ensures plain { IsNeededOnly literal.new }
{
    literal.is_enough = false;
    literal.is_head = false;
}

/// The literals, with both flags forgotten.
fn plain_of<A: Allocator>(mut literals: Vec<Literal<A>, A>) -> Vec<Literal<A>, A>
    ensures texts { map text_of result.items ≡ map text_of literals.items }
    ensures plain { All IsNeededOnly result.items }
{
    for literal in literals.iter_mut() {
        forget_flags(literal);
    }
    literals
}

/// The literals of an alternation, where they cost less than some others, else those.
fn better_of<A: Allocator + Copy>(
    alloc: A,
    tree: &Tree<A>,
    fold: bool,
    best: Vec<Literal<A>, A>,
) -> Result<Vec<Literal<A>, A>, AllocError>
    ensures { IfOk result (λ found. (found ≡ best)
        ⊎ (AreNeeded fold (pattern tree.now ∷ []) Any found.items × All IsNeededOnly found.items)) }
{
    let mut literals = Vec::new(alloc);
    let found = push_literals(alloc, tree, Bounds::Any, single(fold), &mut literals)?;
    let literals = plain_of(literals);
    if found && cost_of(&literals) < cost_of(&best) {
        Ok(literals)
    } else {
        Ok(best)
    }
}

/// The literals of the alternation within a tree whose texts cost the least, of those that each match passes, or some
/// others where those cost less.
///
/// The left spine of the tree may be as long as a text, so a loop walks it.
pub(crate) fn inner_of<A: Allocator + Copy>(
    alloc: A,
    tree: &Tree<A>,
    fold: bool,
    mut best: Vec<Literal<A>, A>,
) -> Result<Vec<Literal<A>, A>, AllocError>
    ensures { (outer : Pattern) → IsPart fold (pattern tree.now) outer
        → (0 < length best.items → AreInnerTexts fold outer best.items)
        → IfOk result (λ found. 0 < length found.items → AreInnerTexts fold outer found.items) }
{
    let mut tree = tree;
    loop {
        match tree {
            Tree::Empty | Tree::Set(_) | Tree::Begin | Tree::End => return Ok(best),
            Tree::Cat(first, second) => {
                best = inner_of(alloc, second, fold, best)?;
                tree = first;
            }
            Tree::Alt(_, _) => {
                let found = better_of(alloc, tree, fold, best)?;
                return Ok(found);
            }
            Tree::Rep(inner, least, _) => {
                if *least == 0 {
                    return Ok(best);
                }
                tree = inner;
            }
        }
    }
}
