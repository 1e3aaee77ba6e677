//! The tree of what was read so far.
ghost use Rattle.std.specs.Prelude.{◌≡◌, IfOk, OnOk, Some, None, is_some, is_none};
ghost use Rattle.pg_syntax.specs.Machine.{fresh, last, cat, whole, with_item, start, grouped};
ghost use Rattle.pg_syntax.specs.Machine.{add, anchored, after, Repeat, Open, Close, Bar};
ghost use Rattle.pg_pattern.specs.Trees.{pattern, pattern_of};
ghost use Rattle.pg_syntax.specs.Levels.{level_of};

use pg_pattern::Tree;
use std::alloc::{AllocError, Allocator};
use std::mem;

/// How many groups may be open.
const DEEPEST: usize = 100;

/// An open group, or the whole text.
pub(crate) struct Level<A: Allocator> {
    /// The alternatives in front of the last bar.
    alternatives: Option<Tree<A>>,
    /// Of the last alternative, what a mark can't reach any more.
    sequence: Option<Tree<A>>,
    /// The item that a mark would repeat.
    item: Option<Tree<A>>,
}

impl<A: Allocator> Drop for Level<A> {
    fn drop(self) {
        let Level {
            alternatives: _,
            sequence: _,
            item: _,
        } = self;
    }
}

/// The open groups, and the level that is read.
pub(crate) struct Builder<A: Allocator> {
    alloc: A,
    outer: Vec<Level<A>, A>,
    level: Level<A>,
}

impl<A: Allocator> Drop for Builder<A> {
    fn drop(self) {
        let Builder {
            alloc: _,
            outer: _,
            level: _,
        } = self;
    }
}

/// Both parts in their order, where both are there.
fn cat<A: Allocator + Copy>(
    alloc: A,
    first: Option<Tree<A>>,
    second: Option<Tree<A>>,
) -> Result<Option<Tree<A>>, AllocError>
    ensures { IfOk result (λ t. pattern_of t ≡ cat (pattern_of first) (pattern_of second)) }
{
    match (first, second) {
        (Some(first), Some(second)) => {
            let tree = Tree::cat(alloc, first, second)?;
            Ok(Some(tree))
        }
        (Some(first), None) => Ok(Some(first)),
        (None, second) => Ok(second),
    }
}

impl<A: Allocator + Copy> Level<A> {
    /// A level of which nothing was read.
    fn new() -> Level<A>
        ensures { level_of result ≡ fresh }
    {
        Level {
            alternatives: None,
            sequence: None,
            item: None,
        }
    }

    /// Takes what was read of the last alternative.
    fn take_last(&mut self, alloc: A) -> Result<Option<Tree<A>>, AllocError>
        ensures value { IfOk result (λ t. pattern_of t ≡ last (level_of self.old)) }
        ensures alternatives { self.new.alternatives ≡ self.old.alternatives }
        ensures sequence { self.new.sequence ≡ None }
        ensures item { self.new.item ≡ None }
    {
        let sequence = self.sequence.take();
        let item = self.item.take();
        cat(alloc, sequence, item)
    }

    /// Takes the level's tree, and `None` where its last alternative is empty.
    fn take_whole(&mut self, alloc: A) -> Result<Option<Tree<A>>, AllocError>
        ensures value { IfOk result (λ t. pattern_of t ≡ whole (level_of self.old)) }
        ensures after { OnOk result (level_of self.new ≡ fresh) }
    {
        let last = self.take_last(alloc)?;
        match (self.alternatives.take(), last) {
            (None, last) => Ok(last),
            (Some(_first), None) => Ok(None),
            (Some(first), Some(second)) => {
                let tree = Tree::alt(alloc, first, second)?;
                Ok(Some(tree))
            }
        }
    }

    /// Goes on with an item.
    fn push(&mut self, alloc: A, tree: Tree<A>) -> Result<(), AllocError>
        ensures { OnOk result (level_of self.new ≡ with_item (pattern tree) (level_of self.old)) }
    {
        self.sequence = self.take_last(alloc)?;
        self.item = Some(tree);
        Ok(())
    }
}

impl<A: Allocator + Copy> Builder<A> {
    ghost use Rattle.pg_syntax.specs.States.{state_of, Did};

    /// Nothing was read.
    pub(crate) fn new(alloc: A) -> Builder<A>
        ensures { state_of result ≡ start }
    {
        Builder {
            alloc,
            outer: Vec::new(alloc),
            level: Level::new(),
        }
    }

    /// Whether a mark would have something to repeat.
    pub(crate) fn has_item(&self) -> bool
        ensures { result ≡ is_some (state_of self.now).level.item }
    {
        self.level.item.is_some()
    }

    /// Whether nothing was read of the last alternative.
    pub(crate) fn is_empty(&self) -> bool
        ensures { result ≡ is_none (last (state_of self.now).level) }
    {
        self.level.sequence.is_none() && self.level.item.is_none()
    }

    /// Whether a group is open.
    pub(crate) fn has_group(&self) -> bool
        ensures { result ≡ grouped (state_of self.now).outer }
    {
        !self.outer.is_empty()
    }

    /// Goes on with an item.
    pub(crate) fn push(&mut self, tree: Tree<A>) -> Result<(), AllocError>
        ensures { OnOk result (state_of self.new ≡ add (pattern tree) (state_of self.old)) }
    {
        self.level.push(self.alloc, tree)
    }

    /// Goes on with an anchor, which no mark can reach.
    pub(crate) fn push_anchor(&mut self, tree: Tree<A>) -> Result<(), AllocError>
        ensures { OnOk result (state_of self.new ≡ anchored (pattern tree) (state_of self.old)) }
    {
        let last = self.level.take_last(self.alloc)?;
        self.level.sequence = cat(self.alloc, last, Some(tree))?;
        Ok(())
    }

    /// Repeats the last item, if there is one.
    pub(crate) fn repeat(&mut self, least: u8, most: Option<u8>) -> Result<bool, AllocError>
        ensures { Did result (after (Repeat least most) (state_of self.old)) (state_of self.new) }
    {
        let Some(item) = self.level.item.take() else {
            return Ok(false);
        };
        let item = Box::new(self.alloc, item)?;
        self.level.item = Some(Tree::Rep(item, least, most));
        Ok(true)
    }

    /// Opens a group, if fewer than 100 are open.
    pub(crate) fn open(&mut self) -> Result<bool, AllocError>
        ensures { Did result (after Open (state_of self.old)) (state_of self.new) }
    {
        if self.outer.len() >= DEEPEST {
            return Ok(false);
        }
        let level = mem::replace(&mut self.level, Level::new());
        self.outer.push(level)?;
        Ok(true)
    }

    /// Closes the innermost group, if there is one that isn't empty.
    pub(crate) fn close(&mut self) -> Result<bool, AllocError>
        ensures { Did result (after Close (state_of self.old)) (state_of self.new) }
    {
        let Some(mut level) = self.outer.pop() else {
            return Ok(false);
        };
        let Some(tree) = self.level.take_whole(self.alloc)? else {
            return Ok(false);
        };
        level.push(self.alloc, tree)?;
        self.level = level;
        Ok(true)
    }

    /// Begins another alternative, if the last one isn't empty.
    pub(crate) fn bar(&mut self) -> Result<bool, AllocError>
        ensures { Did result (after Bar (state_of self.old)) (state_of self.new) }
    {
        let Some(tree) = self.level.take_whole(self.alloc)? else {
            return Ok(false);
        };
        self.level.alternatives = Some(tree);
        Ok(true)
    }

    /// Takes the whole tree, and `None` where its last alternative is empty.
    pub(crate) fn take(&mut self) -> Result<Option<Tree<A>>, AllocError>
        ensures { IfOk result (λ t. pattern_of t ≡ whole (state_of self.old).level) }
    {
        self.level.take_whole(self.alloc)
    }
}
