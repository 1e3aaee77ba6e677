//! The right to draw.
ghost use Rattle.std.specs.Prelude.{◌≡◌, [], ◌∷◌};
ghost use Rattle.pg_board.specs.Draws.{draws};

use crate::draws::TokenView;
use std::marker::Model;

pub(crate) type Token = atomic_table::Seat<(), TokenView>;

/// The right to draw numbers from one board.
///
/// Contracts see the board, the numbers that the seat drew, in order, and whether it is spent, which it is once it was
/// told that no number is left.
#[derive(Drop)]
pub struct Seat {
    pub(crate) token: Token,
    pub(crate) spent: bool,
}

impl Model for Seat {
    ghost use Rattle.std.specs.Prelude.{◌≡◌, [], ◌∷◌};
    ghost use Rattle.pg_board.specs.Draws.{draws};
    ghost use Rattle.pg_board.specs.Board.{SeatView, seat_view_coded, seat_view, board_view};
    ghost use Rattle.pg_board.specs.BoardRule.{first_drawn};

    ghost Value = { SeatView };

    ghost coded = { seat_view_coded };

    ghost view = { λ s. seat_view (board_view s.token.table_id s.token.me.0.size)
        (first_drawn s.token.me.0.seats) s.spent };

    ghost invariant = { λ s. (s.token.me.1 ≡ [])
        × (s.token.me.0.seats ≡ draws (first_drawn s.token.me.0.seats) s.spent ∷ []) };
}

impl Seat {
    pub(crate) fn into_token(self) -> Token
        ensures token { (result.table_id ≡ self.board.table) × (result.me.1 ≡ []) }
        ensures seats { result.me.0.seats ≡ draws self.drawn self.spent ∷ [] }
    {
        let Seat { token, spent: _ } = self;
        token
    }
}
