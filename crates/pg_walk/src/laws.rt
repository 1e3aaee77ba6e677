//! Laws of the definitions that contracts cite. A call does nothing.
ghost use Rattle.std.specs.Prelude.{◌≡◌, Bool, List, []};
ghost use Rattle.pg_walk.specs.Answers.{Path};
ghost use Rattle.pg_walk.specs.Scopes.{Sights, scope_of};
ghost use Rattle.pg_walk.specs.Items.{Found};
ghost use Rattle.pg_walk.specs.Walks.{FilesOf};
ghost use Rattle.pg_walk.specs.Left.{BeginsWalk, HasGiven, IsWalk, spots_in};
ghost use Rattle.pg_walk.specs.MemTree.{nodes, answers_of};

use crate::mem_tree::MemTree;
use crate::tree::FileTree;
use crate::walker::Walker;
use std::alloc::Allocator;

/// A walk over operands gives some list of items, and no other, whatever the tree answers.
pub fn files_are_one()
    ensures exist { (a : Sights) (operands : List Path) (recursive : Bool) →
        (items : List Found) × FilesOf a operands recursive items }
    ensures one { (a : Sights) (operands : List Path) (recursive : Bool) (items others : List Found) →
        FilesOf a operands recursive items → FilesOf a operands recursive others → others ≡ items }
{}

/// A tree in memory tells its answers, and they are those of its nodes.
pub fn mem_tree_tells<A: Allocator + Copy>(tree: &MemTree<A>)
    ensures tells { ⟦<MemTree<A> as FileTree>⟧.tells tree.now }
    ensures answers { ⟦<MemTree<A> as FileTree>⟧.answers tree.now ≡ answers_of (nodes tree.now) }
{}

/// What a walk has given is a beginning of all that it gives, and that itself where nothing waits.
pub fn what_is_given<T: FileTree, A: Allocator + Copy>(walker: &Walker<'_, T, A>)
    ensures begins { (operands : List Path) → (items : List Found) →
        HasGiven (T.tells walker.now.tree.now) (T.answers walker.now.tree.now) operands (scope_of walker.now.scope)
        items (spots_in walker.now.waiting.items) →
        BeginsWalk (T.tells walker.now.tree.now) (T.answers walker.now.tree.now) operands
        (scope_of walker.now.scope) items }
    ensures whole { (operands : List Path) → (items : List Found) →
        HasGiven (T.tells walker.now.tree.now) (T.answers walker.now.tree.now) operands (scope_of walker.now.scope)
        items (spots_in walker.now.waiting.items) → spots_in walker.now.waiting.items ≡ [] →
        IsWalk (T.tells walker.now.tree.now) (T.answers walker.now.tree.now) operands
        (scope_of walker.now.scope) items }
{}
