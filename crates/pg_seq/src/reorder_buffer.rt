//! Results that wait for those of the blocks before them.
ghost use Rattle.std.specs.Prelude.{◌≡◌, ◌+◌, ◌<◌, ◌≤◌, ◌^◌, ◌||◌, ◌==◌, [], OnOk, OnErr, MatchOption};
ghost use Rattle.std.specs.Prelude.{length, drop};
ghost use Rattle.std.specs.List.{AllByRecursion, list_all, list_any};
ghost use Rattle.std.specs.Arc.{arc_value};
ghost use Rattle.pg_seq.specs.Slots.{place_of};

use crate::file_starts::FileStarts;
use crate::slot::Slot;
use pg_blocks::Block;
use pg_plan::Arrival;
use pg_selection::BlockResult;
use std::alloc::{AllocError, Allocator, Global};
use std::collections::VecDeque;
use std::sync::Arc;

/// The announced blocks whose rows weren't handed out yet, in their order, and the results that
/// have come.
///
/// A block and its result are given up once its rows were handed out. What stays is the count.
///
/// Counts of blocks have 128 bits: files may have 2^62 blocks each, so 64 bits don't hold those of
/// all files.
pub(crate) struct ReorderBuffer<A: Allocator = Global> {
    /// How many blocks were announced before each file that was opened, in the files' order.
    starts: FileStarts<A>,
    slots: VecDeque<Slot<A>, A>,
    /// How many blocks were handed out. They stand before the slots.
    handed: u128,
    /// Whether one of these has a selected line.
    selected: bool,
    ghost small: { handed + length slots.items ≤ 2 ^ 94 },
}

impl<A: Allocator> Drop for ReorderBuffer<A> {
    fn drop(self) {
        let ReorderBuffer {
            starts: _,
            slots: _,
            handed: _,
            selected: _,
        } = self;
    }
}

/// Where a file's block stands among all announced blocks, by the files' starts and the number of
/// all blocks.
fn place_in<A: Allocator>(
    starts: &FileStarts<A>,
    total: u128,
    file: u32,
    number: u64,
) -> Option<u128>
    ensures { result ≡ place_of starts.now total file number }
{
    let file = file as usize;
    let start = starts.get(file)?;
    let stop = starts.get(file + 1).unwrap_or(total);
    if u128::from(number) < stop.saturating_sub(start) {
        Some(start + u128::from(number))
    } else {
        None
    }
}

impl<A: Allocator> ReorderBuffer<A> {
    ghost use Rattle.pg_selection.specs.Search.{Search, HasItsTrees};
    ghost use Rattle.pg_seq.specs.Slots.{IsResultOf, has_result, slot_selects, ready};
    ghost use Rattle.pg_seq.specs.Buffer.{IsUnused, SameButRoom, OpensFile, Pushes, IsArrival, Puts, HandsOut};
    ghost use Rattle.pg_seq.specs.Buffer.{HasResult};

    /// A buffer without files and blocks.
    pub(crate) fn new(alloc: A) -> ReorderBuffer<A>
    where
        A: Copy,
        ensures { IsUnused result }
    {
        ReorderBuffer {
            starts: FileStarts::new(alloc),
            slots: VecDeque::new(alloc),
            handed: 0,
            selected: false,
        }
    }

    /// How many blocks were announced.
    pub(crate) fn announced(&self) -> u128
        ensures { result ≡ self.now.handed + length self.now.slots.items }
    {
        self.handed + self.slots.len() as u128
    }

    /// The next file starts behind all announced blocks. A refused request for memory is the only
    /// error, and changes nothing.
    pub(crate) fn open_file(&mut self) -> Result<(), AllocError>
        requires { length self.old.starts < 2 ^ 32 }
        ensures ok { OnOk result (OpensFile self.old self.new) }
        ensures err { OnErr result (SameButRoom self.old self.new) }
    {
        let start = self.announced();
        self.starts.push(start)?;
        Ok(())
    }

    /// Appends the next block of the last file. A refused request for memory is the only error, and changes nothing.
    pub(crate) fn push(&mut self, block: Arc<Block<A>, A>) -> Result<(), AllocError>
        requires { self.old.handed + length self.old.slots.items < 2 ^ 94 }
        ensures ok { OnOk result (Pushes (arc_value block) self.old self.new) }
        ensures err { OnErr result (SameButRoom self.old self.new) }
    {
        self.slots.push_back(Slot {
            block,
            result: None,
        })?;
        Ok(())
    }

    /// Where a file's block stands among all announced blocks.
    fn place_of(&self, file: u32, number: u64) -> Option<u128>
        ensures { result ≡ place_of self.now.starts (self.now.handed + length self.now.slots.items) file number }
    {
        place_in(&self.starts, self.announced(), file, number)
    }

    /// What a block of the sequencer's query is.
    pub(crate) fn arrival_of(&self, block: &Block<A>) -> Arrival
        ensures { IsArrival self.now block.now result }
    {
        let Some(place) = self.place_of(block.file, block.number) else {
            return Arrival::Stranger;
        };
        if place < self.handed {
            return Arrival::Double;
        }
        let at = place - self.handed;
        if at >= self.slots.len() as u128 {
            return Arrival::Stranger;
        }
        self.slots[at as usize].arrival_of(block)
    }

    /// Keeps a result at its block's place.
    pub(crate) fn put(&mut self, found: BlockResult<A>)
        ensures { Puts found self.old self.new }
    {
        let block: &Block<A> = found.block();
        let Some(place) = self.place_of(block.file, block.number) else {
            return;
        };
        if place < self.handed {
            return;
        }
        let at = place - self.handed;
        if at < self.slots.len() as u128 {
            self.slots[at as usize].result = Some(found);
        }
    }

    /// Whether the results of all blocks have come.
    pub(crate) fn has_all_results(&self) -> bool
        ensures { result ≡ list_all has_result self.now.slots.items }
    {
        self.slots.iter().all(|slot| slot.result.is_some())
    }

    /// Whether a line is selected in some block whose result has come.
    pub(crate) fn has_selected(&self) -> bool
        ensures { (q : Search) → HasItsTrees q → AllByRecursion (IsResultOf q) self.now.slots.items →
            result ≡ (self.now.selected || list_any (slot_selects q) self.now.slots.items) }
    {
        self.selected || self.slots.iter().any(|slot| slot.has_selected())
    }

    /// How many blocks were handed out.
    pub(crate) fn handed(&self) -> u128
        ensures { result ≡ self.now.handed }
    {
        self.handed
    }

    /// Whether each announced block was handed out.
    pub(crate) fn is_empty(&self) -> bool
        ensures { result ≡ (length self.now.slots.items == 0) }
    {
        self.slots.is_empty()
    }

    /// How many blocks weren't handed out.
    pub(crate) fn len(&self) -> usize
        ensures { result ≡ length self.now.slots.items }
    {
        self.slots.len()
    }

    /// Whether a line is selected in some block that was handed out.
    pub(crate) fn has_handed_selected(&self) -> bool
        ensures { result ≡ self.now.selected }
    {
        self.selected
    }

    /// The result of the block behind the first so many, once it has come.
    pub(crate) fn result_at(&self, count: usize) -> Option<&BlockResult<A>>
        ensures { MatchOption result (ready (drop count self.now.slots.items) ≡ 0)
            (λ found. HasResult self.now count found.now) }
    {
        self.slots.get(count)?.result.as_ref()
    }

    /// Gives the first block up.
    pub(crate) fn pop_first(&mut self) -> Option<Slot<A>>
        ensures { MatchOption result (self.old.slots.items ≡ []) (λ slot. HandsOut slot self.old self.new) }
    {
        let slot = self.slots.pop_front()?;
        self.selected |= slot.has_selected();
        self.handed += 1;
        Some(slot)
    }
}
