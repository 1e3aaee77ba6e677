//! A query as a run asks it.
ghost use Rattle.std.specs.Prelude.{IfOk};
ghost use Rattle.pg_match.specs.Machines.{Fits};

use crate::gate::Gate;
use pg_blocks::Block;
use pg_lines::{Query, Scratch, search_block};
use pg_selection::BlockResult;
use pg_workers::BlockSearch;
use std::alloc::{AllocError, Allocator};
use std::sync::Arc;

/// A query, whose search of each block a gate is told of. Blocks may be searched whose lines have at most 2^30 bytes
/// each, by scratches that were made for the query's machine.
#[derive(Drop)]
pub struct GatedQuery<'a, A: Allocator, G> {
    /// What memory is asked of.
    pub alloc: A,
    pub query: &'a Query<A>,
    pub gate: &'a G,
}

impl<A: Allocator + Copy, G: Gate> BlockSearch for GatedQuery<'_, A, G> {
    ghost use Rattle.std.specs.Prelude.{IfOk};
    ghost use Rattle.pg_match.specs.Machines.{Fits};
    ghost use Rattle.pg_run.specs.Searches.{HasShortLines, IsFoundIn};
    ghost use Rattle.pg_search.specs.Searches.{seen_of};

    type Alloc = A;

    type Scratch = Scratch<A>;

    ghost seen = { λ gated. seen_of gated.query.now };

    fn scratch(&self) -> Result<Scratch<A>, AllocError>
        ensures fits { IfOk result (λ scratch. Fits scratch self.now.query.now.machine) }
    {
        if self.query.text().with_parts {
            Scratch::with_parts(self.alloc, self.query.machine())
        } else {
            Scratch::new(self.alloc, self.query.machine())
        }
    }

    fn search(
        &self,
        scratch: &mut Scratch<A>,
        number: u32,
        block: &Arc<Block<A>, A>,
    ) -> Result<BlockResult<A>, AllocError>
        requires may { HasShortLines self.now.query.now.text block.now }
        requires fits { Fits scratch.old self.now.query.now.machine }
        ensures fits { Fits scratch.new self.now.query.now.machine }
        ensures found { IfOk result (IsFoundIn self.now.query.now.text block.now) }
    {
        let block = Arc::try_clone(block)?;
        self.gate.before(number);
        let found = search_block(self.alloc, self.query, scratch, block);
        self.gate.after(number);
        found
    }
}
