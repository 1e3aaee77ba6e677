//! What is known of a board's draws, and the rule of its word. No value of these types is made but `BoardSize`.
use atomic_table::{Join, Play, Split, TableRule};
use std::collections::LinkedList;

/// How many numbers a board has, and how many seats.
#[derive(Clone, Copy)]
pub struct BoardSize {
    /// The numbers are those below it.
    pub limit: u32,
    pub seats: u32,
}

/// What one seat drew.
pub struct Draws {
    /// The numbers that it drew, in order.
    pub drawn: LinkedList<u32>,
    /// Whether it was told that no number is left.
    pub spent: bool,
}

/// What is known beside a token of the board's table: the seats for which it stands.
pub struct TokenView {
    pub size: BoardSize,
    pub seats: LinkedList<Draws>,
}

/// The draws are lawful between any two steps.
pub struct DrawRule;

impl TableRule<(), TokenView, BoardSize> for DrawRule {
    ghost use Rattle.std.specs.Prelude.{[], false, replicate};
    ghost use Rattle.pg_board.specs.Draws.{draws};
    ghost use Rattle.pg_board.specs.BoardRule.{KeepsBoard, token_view};

    ghost holds = { KeepsBoard };

    ghost first = { λ size. token_view size (replicate size.seats (draws [] false)) };
}

/// One draw of one seat.
pub struct DrawOne;

impl Play<(), TokenView> for DrawOne {
    ghost use Rattle.pg_board.specs.BoardRule.{DrawsOne};

    ghost then = { DrawsOne };
}

/// The first of the seats leaves, with a token of its own.
pub struct FirstSeat;

impl Split<TokenView> for FirstSeat {
    ghost use Rattle.std.specs.Prelude.{drop, take};
    ghost use Rattle.pg_board.specs.BoardRule.{token_view};

    ghost left = { λ v. token_view v.size (drop 1 v.seats) };

    ghost right = { λ v. token_view v.size (take 1 v.seats) };
}

/// The other token's seats come in front, and it stands for none any more.
pub struct AllSeats;

impl Join<TokenView> for AllSeats {
    ghost use Rattle.std.specs.Prelude.{◌++◌};
    ghost use Rattle.pg_board.specs.BoardRule.{token_view, no_seats};

    ghost both = { λ v w. token_view v.size (w.seats ++ v.seats) };

    ghost spent = { no_seats };
}
