//! The walk.
ghost use Rattle.std.specs.Prelude.{◌≡◌, ◌≤◌, ◌+◌, ◌++◌, ◌↔◌, [], ℕ, List, Bool, map, None, IfOk, OnOk};
ghost use Rattle.std.specs.List.{All, Contains};
ghost use Rattle.std.specs.Option.{option_map};
ghost use Rattle.std.specs.Ordering.{nat_cmp};
ghost use Rattle.std.specs.Cmp.Lexicographic.{slice_cmp};
ghost use Rattle.std.specs.String.{string_bytes};
ghost use Rattle.pg_walk.specs.Answers.{Path};
ghost use Rattle.pg_walk.specs.Items.{Found, found};
ghost use Rattle.pg_walk.specs.Places.{child};
ghost use Rattle.pg_walk.specs.Scopes.{Scope as Asked, scope_of, sights};
ghost use Rattle.pg_walk.specs.Walks.{Ascending};
ghost use Rattle.pg_walk.specs.Descent.{EntryGives, InsideGives, OperandGives};
ghost use Rattle.pg_walk.specs.Within.{BelongTo, IsWithin};
ghost use Rattle.pg_walk.specs.Left.{Operand, Entry, HasGiven, MayGive, Unfolds, UnfoldsWithin};
ghost use Rattle.pg_walk.specs.Left.{shown, spot_of, spots_in, spot_gives};

use crate::circle::is_in_circle;
use crate::item::Item;
use crate::scope::{Scope, look};
use crate::tree::{FileKind, FileTree, LookFault};
use pg_base::Cause;
use std::alloc::{AllocError, Allocator, Global};

/// The deepest level below an operand whose directories are listed.
const DEEPEST: u32 = 256;

/// The path of an entry of a directory.
pub fn entry_path<A: Allocator>(
    alloc: A,
    directory: &str,
    name: &str,
) -> Result<String<A>, AllocError>
    ensures { IfOk result (λ path. string_bytes path ≡ child directory.now name.now) }
{
    let room = directory.len().saturating_add(name.len()).saturating_add(1);
    let mut path = String::with_capacity(alloc, room)?;
    path.push_str(directory)?;
    if directory.as_bytes().last().copied() != Some(b'/') {
        path.push_str("/")?;
    }
    path.push_str(name)?;
    Ok(path)
}

/// The names in ascending order of their bytes, each once.
#[inline(never)]
fn in_order<A: Allocator + Copy>(names: Vec<String<A>, A>) -> Vec<String<A>, A>
    ensures rises { Ascending (slice_cmp nat_cmp) (map string_bytes result.items) }
    ensures same { (n : List ℕ) →
        Contains (map string_bytes result.items) n ↔ Contains (map string_bytes names.items) n }
{
    let mut names = names;
    names.sort_unstable();
    names.dedup();
    names
}

/// A path whose turn is still to come.
#[derive(Drop)]
pub enum WaitingPath<A: Allocator = Global> {
    /// An operand.
    Operand(String<A>),
    /// An entry, and so many names it is below its operand.
    Entry(String<A>, u32),
}

/// Adds the entries of a directory, the first one last.
fn push_below<A: Allocator + Copy>(
    alloc: A,
    waiting: &mut Vec<WaitingPath<A>, A>,
    path: &str,
    names: &[String<A>],
    depth: u32,
) -> Result<(), AllocError>
    requires { depth ≤ 256 }
    ensures { OnOk result (spots_in waiting.new.items ≡
        map (λ n. Entry (child path.now n) (depth + 1)) (map string_bytes names.now)
        ++ spots_in waiting.old.items) }
{
    let mut left = names.len();
    while left > 0 {
        left -= 1;
        let below = entry_path(alloc, path, names[left].as_str())?;
        waiting.push(WaitingPath::Entry(below, depth + 1))?;
    }
    Ok(())
}

/// Lists a directory that is visited: its entries wait. The answer is what the directory gives itself.
fn inside<A: Allocator + Copy, T: FileTree>(
    alloc: A,
    tree: &T,
    path: String<A>,
    depth: u32,
    waiting: &mut Vec<WaitingPath<A>, A>,
) -> Result<Option<Item<A>>, AllocError>
    requires { depth ≤ 256 }
    ensures gives { (asked : Asked) → T.tells tree.now → IfOk result (λ item. (recursive : Bool) →
        Unfolds (sights asked (T.answers tree.now)) recursive
        (InsideGives (sights asked (T.answers tree.now)) depth (string_bytes path))
        (option_map found item) (spots_in waiting.old.items) (spots_in waiting.new.items)) }
    ensures within { IfOk result (λ item. (asked : Asked) →
        UnfoldsWithin asked (All (IsWithin (string_bytes path)))
        (option_map found item) (spots_in waiting.old.items) (spots_in waiting.new.items)) }
{
    let listing = match tree.entries(alloc, path.as_str()) {
        Ok(listing) => listing,
        Err(LookFault::Failed) => return Ok(Some(Item::Fault(path, Cause::CannotList))),
        Err(LookFault::OutOfMemory) => return Err(AllocError),
    };
    let nameless = listing.nameless;
    let names = in_order(listing.names);
    push_below(alloc, waiting, path.as_str(), names.as_slice(), depth)?;
    if nameless {
        Ok(Some(Item::Fault(path, Cause::BadName)))
    } else {
        Ok(None)
    }
}

/// Takes the turn of an entry.
fn entry<A: Allocator + Copy, T: FileTree>(
    alloc: A,
    tree: &T,
    scope: &Scope<A>,
    path: String<A>,
    depth: u32,
    waiting: &mut Vec<WaitingPath<A>, A>,
) -> Result<Option<Item<A>>, AllocError>
    ensures gives { T.tells tree.now → IfOk result (λ item. (recursive : Bool) →
        Unfolds (sights (scope_of scope.now) (T.answers tree.now)) recursive
        (EntryGives (sights (scope_of scope.now) (T.answers tree.now)) depth (string_bytes path))
        (option_map found item) (spots_in waiting.old.items) (spots_in waiting.new.items)) }
    ensures within { IfOk result (λ item. (asked : Asked) →
        UnfoldsWithin asked (All (IsWithin (string_bytes path)))
        (option_map found item) (spots_in waiting.old.items) (spots_in waiting.new.items)) }
{
    match look(tree, scope, path.as_str(), false) {
        Ok(Some(FileKind::Regular)) => Ok(Some(Item::File(path))),
        Ok(Some(FileKind::Directory)) => {
            if depth > DEEPEST {
                Ok(Some(Item::Fault(path, Cause::TooDeep)))
            } else if is_in_circle(tree, scope, path.as_str(), depth)? {
                Ok(Some(Item::Fault(path, Cause::InCircle)))
            } else {
                inside(alloc, tree, path, depth, waiting)
            }
        }
        Ok(Some(FileKind::Link)) => Ok(None),
        Ok(Some(FileKind::Other)) => Ok(None),
        Ok(None) => Ok(None),
        Err(LookFault::Failed) => Ok(Some(Item::Fault(path, Cause::CannotOpen))),
        Err(LookFault::OutOfMemory) => Err(AllocError),
    }
}

/// Takes the turn of an operand.
fn operand<A: Allocator + Copy, T: FileTree>(
    alloc: A,
    tree: &T,
    scope: &Scope<A>,
    path: String<A>,
    waiting: &mut Vec<WaitingPath<A>, A>,
) -> Result<Option<Item<A>>, AllocError>
    ensures gives { T.tells tree.now → IfOk result (λ item.
        Unfolds (sights (scope_of scope.now) (T.answers tree.now)) scope.now.recursive
        (OperandGives (sights (scope_of scope.now) (T.answers tree.now)) scope.now.recursive (string_bytes path))
        (option_map found item) (spots_in waiting.old.items) (spots_in waiting.new.items)) }
    ensures within { IfOk result (λ item. UnfoldsWithin (scope_of scope.now)
        (BelongTo (scope_of scope.now) (string_bytes path))
        (option_map found item) (spots_in waiting.old.items) (spots_in waiting.new.items)) }
{
    if path.as_str() == "-" {
        return Ok(Some(Item::File(path)));
    }
    match look(tree, scope, path.as_str(), true) {
        Ok(Some(FileKind::Regular)) => Ok(Some(Item::File(path))),
        Ok(Some(FileKind::Other)) => Ok(Some(Item::File(path))),
        Ok(Some(FileKind::Directory)) => {
            if scope.recursive {
                inside(alloc, tree, path, 0, waiting)
            } else {
                Ok(Some(Item::Fault(path, Cause::IsDirectory)))
            }
        }
        Ok(Some(FileKind::Link)) => Ok(Some(Item::Fault(path, Cause::CannotOpen))),
        Ok(None) => Ok(None),
        Err(LookFault::Failed) => Ok(Some(Item::Fault(path, Cause::CannotOpen))),
        Err(LookFault::OutOfMemory) => Err(AllocError),
    }
}

/// Takes a path's turn.
fn visit<A: Allocator + Copy, T: FileTree>(
    alloc: A,
    tree: &T,
    scope: &Scope<A>,
    next: WaitingPath<A>,
    waiting: &mut Vec<WaitingPath<A>, A>,
) -> Result<Option<Item<A>>, AllocError>
    ensures gives { T.tells tree.now → IfOk result (λ item.
        Unfolds (sights (scope_of scope.now) (T.answers tree.now)) scope.now.recursive
        (spot_gives (sights (scope_of scope.now) (T.answers tree.now)) scope.now.recursive (spot_of next))
        (option_map found item) (spots_in waiting.old.items) (spots_in waiting.new.items)) }
    ensures within { IfOk result (λ item. UnfoldsWithin (scope_of scope.now)
        (MayGive (scope_of scope.now) (spot_of next))
        (option_map found item) (spots_in waiting.old.items) (spots_in waiting.new.items)) }
{
    match next {
        WaitingPath::Operand(path) => operand(alloc, tree, scope, path, waiting),
        WaitingPath::Entry(path, depth) => entry(alloc, tree, scope, path, depth, waiting),
    }
}

/// The operands as they wait, the first one last.
fn operands_waiting<A: Allocator + Copy, B: Allocator>(
    alloc: A,
    operands: &[String<B>],
) -> Result<Vec<WaitingPath<A>, A>, AllocError>
    ensures { IfOk result (λ waiting.
        spots_in waiting.items ≡ map (λ path. Operand path) (map string_bytes operands.now)) }
{
    let mut waiting = Vec::new(alloc);
    let mut left = operands.len();
    while left > 0 {
        left -= 1;
        let path = String::from_str(alloc, operands[left].as_str())?;
        waiting.push(WaitingPath::Operand(path))?;
    }
    Ok(waiting)
}

/// A walk over operands: it gives their files and faults, one after the other, in the operands' order.
///
/// An operand `-` is standard input, a file. An operand that is a directory is a fault, or where
/// the scope is recursive it is visited: its entries follow in ascending order of their names' bytes,
/// each with all that is below it, and so on down to 256 levels. A fault stands where its name
/// stands, that of a bad name before the directory's entries, and hides no other item.
///
/// Links are followed at operands. Below them links give nothing, unless the scope follows them there
/// too: then what they lead to is given under their own paths, as often as they lead to it. But a
/// directory that is one of those that it lies in is a fault, and isn't visited. To find such ones,
/// the tree is asked d + 1 more questions at each directory d names below its operand: which file it
/// is, and which each of those is that it lies in.
///
/// Pipes, sockets and devices give nothing below operands, unless the scope reads them. What the scope
/// leaves out gives nothing either, once the tree has told its kind; an entry whose kind can't be told,
/// as a followed link to nothing, is left out as files are.
///
/// The walk holds the paths that wait: the operands that are left, and of each directory that it is
/// inside those entries that are left. A directory is listed when its turn comes.
pub struct Walker<'t, T: FileTree, A: Allocator + Copy = Global> {
    alloc: A,
    /// The tree.
    pub tree: &'t T,
    /// What is asked for.
    pub scope: Scope<A>,
    /// What waits, the next one last.
    pub waiting: Vec<WaitingPath<A>, A>,
}

impl<T: FileTree, A: Allocator + Copy> Drop for Walker<'_, T, A> {
    fn drop(self) {
        let Walker {
            alloc: _,
            tree: _,
            scope: _,
            waiting: _,
        } = self;
    }
}

impl<'t, T: FileTree, A: Allocator + Copy> Walker<'t, T, A> {
    /// A walk over operands that has given nothing yet. Nothing was asked of the tree.
    ///
    /// # Errors
    ///
    /// `AllocError` where a request for memory was refused.
    pub fn new<B: Allocator>(
        alloc: A,
        tree: &'t T,
        operands: &[String<B>],
        scope: Scope<A>,
    ) -> Result<Walker<'t, T, A>, AllocError>
        ensures same { IfOk result (λ walker. (walker.tree.now ≡ tree.now) × (walker.scope ≡ scope)) }
        ensures fresh { IfOk result (λ walker. HasGiven (T.tells tree.now) (T.answers tree.now)
            (map string_bytes operands.now) (scope_of scope) [] (spots_in walker.waiting.items)) }
    {
        let waiting = operands_waiting(alloc, operands)?;
        Ok(Walker {
            alloc,
            tree,
            scope,
            waiting,
        })
    }

    /// A walk over no operands.
    pub fn over_nothing(alloc: A, tree: &'t T) -> Walker<'t, T, A>
        ensures same { result.tree.now ≡ tree.now }
        ensures fresh { HasGiven (T.tells result.tree.now) (T.answers result.tree.now) [] (scope_of result.scope) []
            (spots_in result.waiting.items) }
    {
        Walker {
            alloc,
            tree,
            scope: Scope::all(alloc, false),
            waiting: Vec::new(alloc),
        }
    }

    /// The next item, or `None` at the end.
    ///
    /// # Errors
    ///
    /// `AllocError` where the tree was out of memory, or a request for memory was refused, or 2^64 - 1 paths in a
    /// row gave no item. The path whose turn it was is lost then, so the walk can't go on.
    pub fn next(&mut self) -> Result<Option<Item<A>>, AllocError>
        ensures same { (self.new.tree.now ≡ self.old.tree.now) × (self.new.scope ≡ self.old.scope) }
        ensures gives { (operands : List Path) → (items : List Found) →
            HasGiven (T.tells self.old.tree.now) (T.answers self.old.tree.now) operands (scope_of self.old.scope)
            items (spots_in self.old.waiting.items) →
            IfOk result (λ item.
            HasGiven (T.tells self.old.tree.now) (T.answers self.old.tree.now) operands (scope_of self.old.scope)
            (items ++ shown (option_map found item)) (spots_in self.new.waiting.items)) }
        ensures end { IfOk result (λ item. item ≡ None → spots_in self.new.waiting.items ≡ []) }
    {
        for _ in 0..u64::MAX {
            let Some(next) = self.waiting.pop() else {
                return Ok(None);
            };
            let item = visit(self.alloc, self.tree, &self.scope, next, &mut self.waiting)?;
            if let Some(item) = item {
                return Ok(Some(item));
            }
        }
        Err(AllocError)
    }
}
