//! Links that lead back to a directory from within.
ghost use Rattle.std.specs.Prelude.{◌≡◌, Some, IfOk};
ghost use Rattle.std.specs.List.{list_any};
ghost use Rattle.pg_walk.specs.Circles.{are_one};
ghost use Rattle.pg_walk.specs.Paths.{above};
ghost use Rattle.pg_walk.specs.Scopes.{scope_of, sights};

use crate::scope::Scope;
use crate::tree::{FileTree, Identity, LookFault};
use std::alloc::{AllocError, Allocator};

/// Which file stands at a path, if that can be told.
fn identity_at<T: FileTree>(tree: &T, path: &str) -> Result<Option<Identity>, AllocError>
    ensures { T.tells tree.now → IfOk result (λ identity. identity ≡ (T.answers tree.now).identity path.now) }
{
    match tree.identity(path) {
        Ok(identity) => Ok(Some(identity)),
        Err(LookFault::Failed) => Ok(None),
        Err(LookFault::OutOfMemory) => Err(AllocError),
    }
}

/// Whether a file is the one that stands at a path.
fn stands_at<T: FileTree>(tree: &T, path: &str, own: Identity) -> Result<bool, AllocError>
    ensures { T.tells tree.now → IfOk result (λ answer.
        answer ≡ are_one ((T.answers tree.now).identity path.now) (Some own)) }
{
    match identity_at(tree, path)? {
        Some(identity) => Ok(identity == own),
        None => Ok(false),
    }
}

/// Whether a file is one of the directories that an entry lies in, by its path and depth.
fn stands_above<T: FileTree>(
    tree: &T,
    path: &str,
    depth: u32,
    own: Identity,
) -> Result<bool, AllocError>
    ensures { T.tells tree.now → IfOk result (λ answer. answer ≡ list_any
        (λ directory. are_one ((T.answers tree.now).identity directory) (Some own)) (above depth path.now)) }
{
    let mut left = depth;
    let mut end = path.len();
    while end > 0 {
        if left == 0 {
            return Ok(false);
        }
        end -= 1;
        if path.as_bytes()[end] == b'/' {
            let (directory, _) = path.split_at(end + 1);
            if stands_at(tree, directory, own)? {
                return Ok(true);
            }
            left -= 1;
        }
    }
    Ok(false)
}

/// Whether links lead in a circle to the directory at the path of an entry of this depth. Nothing is asked of the tree
/// where the scope doesn't follow links.
pub(crate) fn is_in_circle<A: Allocator, T: FileTree>(
    tree: &T,
    scope: &Scope<A>,
    path: &str,
    depth: u32,
) -> Result<bool, AllocError>
    ensures { T.tells tree.now → IfOk result (λ answer.
        answer ≡ (sights (scope_of scope.now) (T.answers tree.now)).circle depth path.now) }
{
    if !scope.follows {
        return Ok(false);
    }
    match identity_at(tree, path)? {
        Some(own) => stands_above(tree, path, depth, own),
        None => Ok(false),
    }
}
