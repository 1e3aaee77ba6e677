//! What a search of a block found.
ghost use Rattle.std.specs.Prelude.{◌≡◌, length};
ghost use Rattle.std.specs.Arc.{arc_value};

use crate::run::{Found, Part, Run};
use crate::text::Selector;
use pg_blocks::Block;
use std::alloc::{Allocator, Global};
use std::marker::Model;
use std::sync::Arc;

/// The lines of a block that are selected, and their matched parts where they are asked for.
///
/// Contracts see the text that selects them and the block, which determine which lines and parts these are. What isn't
/// selected takes no memory: the selected lines are kept as runs of neighbours.
#[derive(Drop)]
pub struct BlockResult<A: Allocator = Global> {
    selector: Arc<Selector<A>, A>,
    block: Arc<Block<A>, A>,
    found: Found<A>,
}

impl<A: Allocator> Model for BlockResult<A> {
    ghost use Rattle.std.specs.Arc.{arc_value};
    ghost use Rattle.pg_selection.specs.Searched.{SearchedBlock, IsFound};

    ghost Value = { SearchedBlock };

    ghost view = { λ r. record { query = arc_value r.selector; block = arc_value r.block } };

    ghost invariant = { λ r. IsFound (arc_value r.selector) (arc_value r.block).bytes r.found };
}

impl<A: Allocator> BlockResult<A> {
    ghost use Rattle.pg_selection.specs.Searched.{IsFound, lines_of};
    ghost use Rattle.pg_selection.specs.Runs.{HasRuns};
    ghost use Rattle.pg_selection.specs.BlockParts.{HasParts};

    /// The result of a search that found all that is selected in a block: the runs are of just the selected lines, the
    /// parts are theirs where they are asked for, and the number of lines is that of the block.
    pub fn new(
        selector: Arc<Selector<A>, A>,
        block: Arc<Block<A>, A>,
        found: Found<A>,
    ) -> BlockResult<A>
        requires { IsFound (arc_value selector) (arc_value block).bytes found }
        ensures { result ≡ record { query = arc_value selector; block = arc_value block } }
    {
        BlockResult {
            selector,
            block,
            found,
        }
    }

    /// What selects its lines.
    pub fn selector(&self) -> &Arc<Selector<A>, A>
        ensures { arc_value result.now ≡ self.now.query }
    {
        &self.selector
    }

    /// The block that was searched.
    pub fn block(&self) -> &Arc<Block<A>, A>
        ensures { arc_value result.now ≡ self.now.block }
    {
        &self.block
    }

    /// The selected lines, as runs of neighbours with their terminators, in rising order. The last line of the last run
    /// may be incomplete.
    pub fn runs(&self) -> &[Run]
        ensures { HasRuns self.now.query self.now.block.bytes result.now }
    {
        self.found.runs.as_slice()
    }

    /// The matched parts of the selected lines, in rising order, where the text asks for them. None is empty.
    pub fn parts(&self) -> &[Part]
        ensures { HasParts self.now.query self.now.block.bytes result.now }
    {
        self.found.parts.as_slice()
    }

    /// How many lines the block has.
    pub fn lines(&self) -> usize
        ensures { result ≡ length (lines_of self.now) }
    {
        self.found.lines
    }
}
