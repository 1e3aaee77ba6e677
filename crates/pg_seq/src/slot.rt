//! A place for the result of an announced block.
ghost use Rattle.std.specs.Prelude.{◌≡◌};
ghost use Rattle.pg_seq.specs.Slots.{TellsSelected, slot_arrival};

use pg_blocks::Block;
use pg_plan::Arrival;
use pg_selection::BlockResult;
use std::alloc::{Allocator, Global};
use std::sync::Arc;

/// An announced block, and its result once it has come.
#[derive(Drop)]
pub(crate) struct Slot<A: Allocator = Global> {
    pub(crate) block: Arc<Block<A>, A>,
    pub(crate) result: Option<BlockResult<A>>,
}

impl<A: Allocator> Slot<A> {
    /// Whether the result has come and has a selected line.
    pub(crate) fn has_selected(&self) -> bool
        ensures { TellsSelected self.now result }
    {
        match &self.result {
            Some(found) => !found.runs().is_empty(),
            None => false,
        }
    }

    /// What a block with the file and the number of this one is.
    pub(crate) fn arrival_of(&self, block: &Block<A>) -> Arrival
        ensures { result ≡ slot_arrival self.now block.now }
    {
        if self.result.is_some() {
            return Arrival::Double;
        }
        let known: &Block<A> = &self.block;
        if block.bytes.as_slice() == known.bytes.as_slice() {
            Arrival::Taken
        } else {
            Arrival::Stranger
        }
    }
}
