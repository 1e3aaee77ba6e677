//! Six results in each of their orders, and results that come before their blocks are announced.
ghost use Rattle.std.specs.Prelude.{◌≡◌, ◌+◌, ◌<◌, false};
ghost use Rattle.pg_tests.specs.Reading.{IsReading};

use crate::fixtures::{PLAIN, query_of};
use crate::formats::arrives_as;
use crate::planning::{new_sequencer, open_file};
use crate::sequencer::{announce_line, plan_lines, search_line};
use pg_base::MemSink;
use pg_lines::Query;
use pg_rows::{Format, Mode};
use pg_seq::{Arrival, Sequencer};
use std::alloc::{AllocError, Global};
use std::process::Abort;

/// How many orders six results have.
const ORDERS: usize = 720;

/// Selected lines and their numbers.
const NUMBERED: Format = Format {
    names: false,
    null: false,
    tabs: false,
    separator: None,
    numbers: true,
    offsets: false,
    mode: Mode::Rows,
    parts: false,
    colored: false,
    limit: None,
    before: None,
    after: None,
};

/// The digits of six blocks, each the line of `x` and its digit, and their rows, which are of so many bytes each.
const DIGITS: &[u8] = b"012345";

const ROWS: &[u8] = b"1:x0\n2:x1\n3:x2\n4:x3\n5:x4\n6:x5\n";

const ROW: usize = 5;

/// The digits in the order of a number below 720. No two numbers have the same one.
fn order_of(number: usize) -> [u8; 6] {
    let mut order = [b'0', b'1', b'2', b'3', b'4', b'5'];
    let mut rest = number;
    for at in 1..6usize {
        let count = at + 1;
        order.swap(at, rest % count);
        rest /= count;
    }
    order
}

/// How many orders there are among those of the numbers.
fn count_orders(alloc: Global) -> Result<usize, AllocError> {
    let mut orders = Vec::with_capacity(alloc, ORDERS)?;
    for number in 0..ORDERS {
        orders.push(order_of(number))?;
    }
    orders.sort()?;
    orders.dedup();
    Ok(orders.len())
}

/// Whether the result of a digit's block has this answer.
fn is_answered(
    rt: &impl Abort,
    alloc: Global,
    sequencer: &mut Sequencer,
    query: &Query,
    digit: u8,
    arrival: Arrival,
) -> bool {
    let number = u64::from(digit.wrapping_sub(b'0'));
    let found = search_line(alloc, query, 0, number, digit).expect(rt, "memory");
    sequencer.arrive(found) == arrival
}

/// Whether the result of a digit's block is taken, between that of another query, which is a stranger, and its double.
fn is_taken_once(
    rt: &impl Abort,
    alloc: Global,
    sequencer: &mut Sequencer,
    query: &Query,
    other: &Query,
    digit: u8,
) -> bool {
    is_answered(rt, alloc, sequencer, other, digit, Arrival::Stranger)
        && is_answered(rt, alloc, sequencer, query, digit, Arrival::Taken)
        && is_answered(rt, alloc, sequencer, query, digit, Arrival::Double)
}

/// How many blocks stand at the front, where those of these digits have their results.
fn front(digits: &[u8]) -> usize {
    let mut count = 0usize;
    for digit in DIGITS {
        if !digits.contains(digit) {
            break;
        }
        count = count.saturating_add(1);
    }
    count
}

/// Whether a drain succeeds, and the sink has the rows of so many blocks then.
fn drains_to(sequencer: &mut Sequencer, sink: &mut MemSink, blocks: usize) -> bool {
    let drained = sequencer.drain(sink);
    let written = sink.bytes();
    drained.is_ok() && ROWS.starts_with(written) && written.len() == blocks.saturating_mul(ROW)
}

/// Whether results that arrive in an order are taken, and behind each a drain writes the rows of the blocks at the
/// front.
fn take_in(
    rt: &impl Abort,
    alloc: Global,
    sequencer: &mut Sequencer,
    query: &Query,
    other: &Query,
    order: &[u8],
) -> bool {
    let mut sink = MemSink::new(alloc, ROWS.len()).expect(rt, "memory");
    let mut right = true;
    for (at, digit) in order.iter().enumerate() {
        right &= !sequencer.complete();
        right &= is_taken_once(rt, alloc, sequencer, query, other, *digit);
        right &= drains_to(sequencer, &mut sink, front(&order[..=at]));
    }
    right
}

/// Whether that is so of an order, and a result is a double where its block's rows were written.
fn arrive_in(rt: &impl Abort, alloc: Global, query: &Query, other: &Query, order: &[u8]) -> bool
    requires zero { query.now.text.zero ≡ false }
{
    let planned = plan_lines(alloc, query, NUMBERED, DIGITS);
    let (mut sequencer, _) = planned.expect(rt, "memory");
    take_in(rt, alloc, &mut sequencer, query, other, order)
        && is_answered(rt, alloc, &mut sequencer, query, b'0', Arrival::Double)
        && sequencer.complete()
        && sequencer.status() == Some(0)
}

/// Results arrive rightly in each order.
fn assert_orders(rt: &impl Abort, alloc: Global, query: &Query, other: &Query)
    requires zero { query.now.text.zero ≡ false }
{
    for number in 0..ORDERS {
        let right = arrive_in(rt, alloc, query, other, &order_of(number));
        assert!(rt; right, "order {number}");
    }
}

#[test]
fn six_results_arrive_in_each_order(rt: HostRuntime) {
    let query = query_of(rt.alloc(), b"x").expect(&rt, "memory");
    let other = query_of(rt.alloc(), b"0").expect(&rt, "memory");
    assert!(rt; count_orders(rt.alloc()) == Ok(ORDERS));
    assert_orders(&rt, rt.alloc(), &query, &other);
}

/// The result of a block, the line of `x` and a letter, is a stranger before it is announced, and taken behind that.
fn announce_late(
    rt: &impl Abort,
    alloc: Global,
    query: &Query,
    sequencer: &mut Sequencer,
    number: u64,
    letter: u8,
)
    requires reading { IsReading sequencer.old 0 number }
    requires few { number < 100 }
    ensures { IsReading sequencer.new 0 (number + 1) }
{
    let early = search_line(alloc, query, 0, number, letter).expect(rt, "memory");
    arrives_as(rt, sequencer, 0, number, early, Arrival::Stranger);
    announce_line(alloc, sequencer, 0, number, letter).expect(rt, "memory");
    let found = search_line(alloc, query, 0, number, letter).expect(rt, "memory");
    arrives_as(rt, sequencer, 0, number + 1, found, Arrival::Taken);
}

/// What is written of two blocks whose results come too early, and then once more.
fn write_late(rt: &impl Abort, alloc: Global, sink: &mut MemSink) {
    let query = query_of(alloc, b"x").expect(rt, "memory");
    let mut sequencer = new_sequencer(alloc, &query, PLAIN).expect(rt, "memory");
    open_file(&mut sequencer, 0, b"f").expect(rt, "memory");
    announce_late(rt, alloc, &query, &mut sequencer, 0, b'a');
    announce_late(rt, alloc, &query, &mut sequencer, 1, b'b');
    let drained = sequencer.drain(sink);
    assert!(rt; drained.is_ok());
}

#[test]
fn early_results_are_strangers(rt: HostRuntime) {
    let mut sink = MemSink::new(rt.alloc(), 100).expect(&rt, "memory");
    write_late(&rt, rt.alloc(), &mut sink);
    assert!(rt; sink.bytes() == b"xa\nxb\n".as_slice());
}
