//! What finds in blocks what is selected.

use pg_blocks::Block;
use pg_selection::BlockResult;
use std::alloc::{AllocError, Allocator};
use std::sync::Arc;

/// Finds in blocks what is selected. Several threads may ask it at once, each with a scratch of its own.
///
/// Contracts see which blocks may be searched, which scratches were made for it, and what is the result of a block.
pub trait BlockSearch {
    ghost use Rattle.std.specs.Prelude.{IfOk};
    ghost use Rattle.std.specs.declared.sync.Arc.{Arc};
    ghost use Rattle.pg_blocks.specs.Blocks.{BlockData};
    ghost use Rattle.pg_selection.specs.Searched.{SearchedBlock};
    ghost use Rattle.pg_workers.specs.Searches.{SearchView};

    /// What blocks and results ask memory of.
    type Alloc: Allocator;

    /// Room for the searches of one thread.
    type Scratch: Drop;

    /// What is seen of it.
    ghost seen: { Self → SearchView (Arc BlockData Self.Alloc) Self.Scratch SearchedBlock };

    /// Room for the searches of one more thread.
    ///
    /// # Errors
    ///
    /// Only where a request for memory was refused.
    fn scratch(&self) -> Result<Self::Scratch, AllocError>
        ensures fits { IfOk result (seen self.now).fits };

    /// Searches a block, which has this number in its round, from 0. The block may be searched, and the scratch was
    /// made for this search; it serves again.
    ///
    /// # Errors
    ///
    /// Only where a request for memory was refused.
    fn search(
        &self,
        scratch: &mut Self::Scratch,
        number: u32,
        block: &Arc<Block<Self::Alloc>, Self::Alloc>,
    ) -> Result<BlockResult<Self::Alloc>, AllocError>
        requires may { (seen self.now).may block.now }
        requires fits { (seen self.now).fits scratch.old }
        ensures fits { (seen self.now).fits scratch.new }
        ensures found { IfOk result ((seen self.now).finds block.now) };
}
