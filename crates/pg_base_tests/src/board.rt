//! Boards that threads draw from.
ghost use Rattle.std.specs.Prelude.{◌≡◌, ◌<◌, ◌≤◌, length, IfOk};

use pg_board::{Board, DrawnNumbers, Seat};
use refusing::Refusing;
use std::alloc::{AllocError, Allocator, Global};
use std::sync::atomic::{AtomicU64, Ordering};
use std::thread;
use std::thread::Threads;

/// Whether a seat draws 0 and 1, and is spent then. The seat is the board's.
fn is_spent_behind_two(board: &Board, seat: &mut Seat) -> bool
    requires { seat.old.board ≡ board.now }
    ensures { seat.new.board ≡ board.now }
{
    board.draw(seat) == Some(0)
        && board.draw(seat) == Some(1)
        && board.draw(seat).is_none()
        && board.draw(seat).is_none()
}

#[test]
fn a_spent_seat_stays_spent(rt: HostRuntime) {
    let (board, mut seats) = Board::open(rt.alloc(), 2, 1).expect(&rt, "memory");
    let is_spent = is_spent_behind_two(&board, &mut seats[0]);
    let drawn = board.close(seats);
    assert!(rt; is_spent && drawn == DrawnNumbers { upto: 2 });
}

/// So many counters, each 0.
fn counters(alloc: Global, count: usize) -> Result<Vec<AtomicU64>, AllocError>
    ensures { IfOk result (λ v. length v.items ≡ count) }
{
    let mut counters = Vec::with_capacity(alloc, count)?;
    for _ in 0..count {
        counters.push_reserved(AtomicU64::new(0));
    }
    Ok(counters)
}

/// Draws so many numbers, or all that are left, and counts each.
fn draw_some(board: &Board, seat: &mut Seat, most: u64, drawn: &[AtomicU64])
    requires board { seat.old.board ≡ board.now }
    requires counters { length drawn.now ≡ board.now.limit }
    ensures { seat.new.board ≡ board.now }
{
    for _ in 0..most {
        let Some(number) = board.draw(seat) else {
            return;
        };
        drawn[number as usize].fetch_add(1, Ordering::SeqCst);
    }
}

/// Four threads draw from one board, whose seats they share out. Answers how often each number was drawn.
fn four_draw<R: Threads + Sync>(
    rt: &R,
    alloc: Global,
    limit: u32,
    seats: u32,
    most: u64,
) -> Result<(DrawnNumbers, Vec<AtomicU64>), AllocError>
    requires { (0 < seats) × (seats ≤ 65) }
{
    let drawn = counters(alloc, limit as usize)?;
    let (board, mut seats) = Board::open(alloc, limit, seats)?;
    thread::for_each_mut(
        rt,
        seats.as_mut_slice(),
        4,
        &|_, seat: &mut Seat| { draw_some(&board, seat, most, drawn.as_slice()) },
    );
    Ok((board.close(seats), drawn))
}

/// Whether there are so many counters, and each is 1.
fn are_ones(counters: &[AtomicU64], count: u32) -> bool {
    for counter in counters {
        if counter.load(Ordering::SeqCst) != 1 {
            return false;
        }
    }
    counters.len() == count as usize
}

/// Whether four threads draw each number below a limit once, from a board of 1 to 65 seats.
fn draw_each_once<R: Threads + Sync>(
    rt: &R,
    alloc: Global,
    limit: u32,
    seats: u32,
    most: u64,
) -> bool
    requires { (0 < seats) × (seats ≤ 65) }
{
    match four_draw(rt, alloc, limit, seats, most) {
        Ok((drawn, times)) => drawn == DrawnNumbers { upto: limit } && are_ones(&times, limit),
        Err(AllocError) => false,
    }
}

#[test]
fn four_threads_draw_each_number_once(rt: HostRuntime) {
    let alloc = rt.alloc();
    assert!(rt;
        draw_each_once(&rt, alloc, 1000, 4, u64::MAX)
            && draw_each_once(&rt, alloc, 65, 65, 1)
            && draw_each_once(&rt, alloc, 0, 3, 1)
            && draw_each_once(&rt, alloc, 3, 65, 2)
    );
}

/// Opens a board of two numbers, draws one, and closes it. Answers what was drawn, up to where, and how many requests
/// for memory the draw and the close made. `alloc` is the heap that counts them.
fn draw_one<A: Allocator + Copy>(
    alloc: A,
    heap: &Refusing,
) -> Result<(Option<u32>, DrawnNumbers, u64), AllocError> {
    let (board, mut seats) = Board::open(alloc, 2, 2)?;
    let requests = heap.requests();
    let drawn = board.draw(&mut seats[1]);
    let all = board.close(seats);
    Ok((drawn, all, heap.requests().wrapping_sub(requests)))
}

/// Whether that draws 0 and makes no request behind the opening, or else the opening was refused.
pub(crate) fn is_drawn(heap: &Refusing) -> bool {
    match draw_one(heap, heap) {
        Ok(drawn) => !heap.has_refused() && drawn == (Some(0), DrawnNumbers { upto: 1 }, 0),
        Err(AllocError) => heap.has_refused(),
    }
}
