//! What all who search a round share.
ghost use Rattle.std.specs.Prelude.{◌≡◌};

use pg_blocks::Block;
use pg_board::{Board, Tray};
use pg_selection::BlockResult;
use std::alloc::{AllocError, Allocator, Global};
use std::sync::Arc;

/// What all who search a round share.
///
/// Block k of the round has the number k, which is drawn from the board. The tray takes the results.
pub struct Round<'a, Q, A: Allocator = Global> {
    /// What searches each block.
    pub query: &'a Q,
    pub blocks: &'a [Arc<Block<A>, A>],
    pub board: &'a Board<A>,
    pub tray: &'a Tray<BlockResult<A>, A>,
}

impl<Q, A: Allocator> Copy for Round<'_, Q, A> {}

impl<Q, A: Allocator> Clone for Round<'_, Q, A> {
    ghost is_clone = { λ round copy. copy ≡ round };

    ghost is_infallible = { λ _. Unit {0} };

    fn clone(&self) -> Result<Self, AllocError> {
        Ok(*self)
    }
}
