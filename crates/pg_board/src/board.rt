//! Numbers that threads draw, each once.
ghost use Rattle.std.specs.Prelude.{◌≡◌, ℕ, ◌+◌, ◌<◌, ◌≤◌, [], All, Any, true, false, Option, Some, None};
ghost use Rattle.std.specs.Prelude.{IfOk, IfSome, IfNone, length, vec_len, map, flat_map, replicate};
ghost use Rattle.pg_board.specs.Counts.{times, once_below};
ghost use Rattle.pg_board.specs.Draws.{draws, all_drawn, spent_count};
ghost use Rattle.pg_board.specs.Board.{board_view, seat_view, SeatsAll, IsTokenOf};
ghost use Rattle.pg_board.specs.Board.{HasDrawn, IsDrawOf, IsToldNone};
ghost use Rattle.pg_board.specs.BoardRule.{token_view};

use crate::draws::{AllSeats, BoardSize, DrawOne, DrawRule, FirstSeat, TokenView};
use crate::seat::{Seat, Token};
use atomic_table::Table;
use std::alloc::{AllocError, Allocator, Global};
use std::marker::Model;

type Word<A> = Table<(), TokenView, BoardSize, DrawRule, A>;

/// The numbers from 0 up to a limit, which threads draw, each by a [`Seat`] of its own.
///
/// Contracts see which board it is, its limit, and how many seats it has.
#[derive(Drop)]
pub struct Board<A: Allocator = Global> {
    word: Word<A>,
    size: BoardSize,
}

impl<A: Allocator> Model for Board<A> {
    ghost use Rattle.std.specs.Prelude.{◌≡◌, ◌<◌};
    ghost use Rattle.pg_board.specs.Board.{BoardView, board_view_coded, board_view, IsWordOf};

    ghost Value = { BoardView };

    ghost coded = { board_view_coded };

    ghost view = { λ b. board_view b.word.shared.table_id b.size };

    ghost invariant = { λ b. IsWordOf b.size b.word.shared.table_id b.word.shared.key };
}

/// Which numbers the seats of a closed board have drawn.
#[derive(Clone, Copy, Debug, PartialEq, Eq)]
pub struct DrawnNumbers {
    /// All numbers below this one, each once.
    pub upto: u32,
}

/// A seat for each of those for which the token stands.
fn cut<A: Allocator>(
    alloc: A,
    word: &Word<A>,
    mut whole: Token,
    size: BoardSize,
) -> Result<Vec<Seat, A>, AllocError>
    requires word { SeatsAll size whole.table_id word.now.shared.table_id word.now.shared.key }
    requires whole { whole.me ≡ (token_view size (replicate size.seats (draws [] false)), []) }
    ensures { IfOk result
        (λ v. v.items ≡ replicate size.seats (seat_view (board_view word.now.shared.table_id size) [] false)) }
{
    let mut seats = Vec::with_capacity(alloc, size.seats as usize)?;
    for _ in 1..size.seats {
        let token = word.shared.split_seat::<FirstSeat>(&mut whole);
        seats.push_reserved(Seat {
            token,
            spent: false,
        });
    }
    seats.push_reserved(Seat {
        token: whole,
        spent: false,
    });
    Ok(seats)
}

/// One token for all the seats.
fn join<A: Allocator>(word: &Word<A>, mut seats: Vec<Seat, A>, size: BoardSize) -> Token
    requires word { word.now.shared.table_id.words ≡ 1 }
    requires seats { (0 < vec_len seats) × All (λ s. s.board ≡ board_view word.now.shared.table_id size) seats.items }
    ensures token { result.table_id ≡ word.now.shared.table_id }
    ensures seats { result.me.0.seats ≡ map (λ s. draws s.drawn s.spent) seats.items }
{
    let Some(last) = seats.pop() else {
        unreachable!()
    };
    let mut whole = last.into_token();
    while let Some(seat) = seats.pop() {
        let token = seat.into_token();
        word.shared.join_seat::<AllSeats>(&mut whole, token);
    }
    whole
}

/// Below which number all were drawn, once all seats are in one token.
fn finish<A: Allocator>(word: Word<A>, whole: Token, size: BoardSize) -> u32
    requires word { IsTokenOf size whole.table_id word.shared.table_id word.shared.key }
    requires all { length whole.me.0.seats ≡ size.seats }
    ensures drawn { (x : ℕ) → times x (all_drawn whole.me.0.seats) ≡ once_below x result }
    ensures limit { result ≤ size.limit }
    ensures spent { 0 < spent_count whole.me.0.seats → result ≡ size.limit }
{
    let closed = word.close_with(whole);
    let found = closed.word(0);
    closed.free();
    if found < u64::from(size.limit) {
        found as u32
    } else {
        size.limit
    }
}

impl<A: Allocator + Copy> Board<A> {
    /// A board of the numbers below `limit`, with as many seats as are asked for, 1 to 65. No seat has drawn.
    ///
    /// # Errors
    /// Only where a request for memory was refused.
    pub fn open(alloc: A, limit: u32, seats: u32) -> Result<(Board<A>, Vec<Seat, A>), AllocError>
        requires { (0 < seats) × (seats ≤ 65) }
        ensures board { IfOk result (λ r. (r.0.limit ≡ limit) × (r.0.seats ≡ seats)) }
        ensures seats { IfOk result (λ r. r.1.items ≡ replicate seats (seat_view r.0 [] false)) }
    {
        let size = BoardSize { limit, seats };
        let (word, whole) = Word::of_words(alloc, &[0], &size)?;
        let all = cut(alloc, &word, whole, size)?;
        Ok((Board { word, size }, all))
    }
}

impl<A: Allocator> Board<A> {
    /// The next number that no seat has had, which no other seat will get.
    ///
    /// `None` comes only where all numbers were drawn. The seat is spent then, and answers `None` from then on
    /// without a step. A draw is one `fetch_add`: it takes no lock, no memory, and waits for nobody.
    pub fn draw(&self, seat: &mut Seat) -> Option<u32>
        requires { seat.old.board ≡ self.now }
        ensures board { seat.new.board ≡ self.now }
        ensures below { IfSome result (λ k. k < self.now.limit) }
        ensures some { IfSome result (λ k. HasDrawn seat.old seat.new k) }
        // In this one step the draws of all seats went from lawful ones without the number to lawful ones with it.
        ensures some_draw { IfSome result (λ k. IsDrawOf self.now seat.old seat.new k) }
        ensures none { IfNone result ((seat.new.spent ≡ true) × (seat.new.drawn ≡ seat.old.drawn)) }
        // In this one step the word was past the limit, so the seats had drawn all numbers.
        ensures none_draw { seat.old.spent ≡ false → IfNone result (IsToldNone self.now seat.old seat.new) }
        ensures spent { seat.old.spent ≡ true → result ≡ None }
    {
        if seat.spent {
            return None;
        }
        let found = self.word.shared.fetch_add::<DrawOne>(&mut seat.token, 0, 1);
        if found < u64::from(self.size.limit) {
            return Some(found as u32);
        }
        seat.spent = true;
        None
    }

    /// Ends the board with all its seats, in any order. Together they drew the numbers below `upto`, each once, and
    /// `upto` is the limit where one of them is spent.
    pub fn close(self, seats: Vec<Seat, A>) -> DrawnNumbers
        requires board { All (λ s. s.board ≡ self) seats.items }
        requires all { vec_len seats ≡ self.seats }
        ensures drawn { (x : ℕ) → times x (flat_map (λ s. s.drawn) seats.items) ≡ once_below x result.upto }
        ensures limit { result.upto ≤ self.limit }
        ensures spent { Any (λ s. s.spent ≡ true) seats.items → result.upto ≡ self.limit }
    {
        let Board { word, size } = self;
        let whole = join(&word, seats, size);
        DrawnNumbers {
            upto: finish(word, whole, size),
        }
    }
}
