//! Results that arrive in any order, sinks that fail, and requests for memory that are refused.
ghost use Rattle.std.specs.Prelude.{◌≡◌, ◌+◌, ◌<◌, ◌≤◌, length, OnOk, false};
ghost use Rattle.pg_rows.specs.Output.{HasRoom};
ghost use Rattle.pg_tests.specs.Reading.{IsReading};

use crate::fixtures::{PLAIN, SPARED, query_of, search};
use crate::formats::cut;
use crate::planning::{
    announce_block, end_file, ends_for_free, new_sequencer, open_file, open_next,
};
use pg_base::MemSink;
use pg_lines::{BlockResult, Query};
use pg_rows::{Format, Separator};
use pg_seq::{Arrival, Sequencer, SinkFault};
use refusing::Refusing;
use std::alloc::{AllocError, Allocator, Global};
use std::process::Abort;

/// All that is written, where the lines are selected.
const OUTPUT: &[u8] = b"xa\nxb\nxc\n";

/// Announces the next block, which is a line of `x` and a letter, as `announce_block` does.
pub(crate) fn announce_line<A: Allocator + Copy>(
    alloc: A,
    sequencer: &mut Sequencer<A>,
    file: u32,
    number: u64,
    letter: u8,
) -> Result<bool, AllocError>
    requires reading { IsReading sequencer.old file number }
    requires few { number < 100 }
    ensures { OnOk result (IsReading sequencer.new file (number + 1)) }
{
    announce_block(alloc, sequencer, file, number, &[b'x', letter, b'\n'])
}

/// Plans files, of which the first one is open without a block, and ends the last one. The answer says whether a
/// request for memory of an announcement or of an opening was refused. A letter is a block, the line of `x` and the
/// letter, and `|` stands between two files.
fn plan_letters<A: Allocator + Copy>(
    alloc: A,
    sequencer: &mut Sequencer<A>,
    letters: &[u8],
) -> Result<bool, AllocError>
    requires reading { IsReading sequencer.old 0 0 }
    requires few { length letters.now ≤ 100 }
{
    let mut again = false;
    let mut file = 0;
    let mut number = 0;
    for letter in letters {
        if *letter == b'|' {
            again |= open_next(sequencer, file)?;
            file += 1;
            number = 0;
        } else {
            again |= announce_line(alloc, sequencer, file, number, *letter)?;
            number += 1;
        }
    }
    end_file(sequencer, file);
    Ok(again)
}

/// A sequencer with files that have ended, and whether a request for memory was refused, as `plan_letters` plans them.
/// The query's lines end with newlines, and there are at most 100 letters.
pub(crate) fn plan_lines<A: Allocator + Copy>(
    alloc: A,
    query: &Query<A>,
    format: Format,
    letters: &[u8],
) -> Result<(Sequencer<A>, bool), AllocError>
    requires room { HasRoom format }
    requires zero { query.now.text.zero ≡ false }
    requires few { length letters.now ≤ 100 }
{
    let mut sequencer = new_sequencer(alloc, query, format)?;
    let opened = open_file(&mut sequencer, 0, b"f")?;
    let planned = plan_letters(alloc, &mut sequencer, letters)?;
    Ok((sequencer, opened || planned))
}

/// What a search finds in a block that is a line of `x` and a letter.
pub(crate) fn search_line<A: Allocator + Copy>(
    alloc: A,
    query: &Query<A>,
    file: u32,
    number: u64,
    letter: u8,
) -> Result<BlockResult<A>, AllocError> {
    search(alloc, query, file, number, &[b'x', letter, b'\n'])
}

/// Whether the results of the three blocks `xa`, `xb` and `xc` of a file are taken, the last one first.
fn takes_all<A: Allocator + Copy>(
    alloc: A,
    query: &Query<A>,
    sequencer: &mut Sequencer<A>,
) -> Result<bool, AllocError> {
    let mut right = true;
    for (at, letter) in b"cba".iter().enumerate() {
        let found = search_line(alloc, query, 0, 2u64.saturating_sub(at as u64), *letter)?;
        right &= sequencer.arrive(found) == Arrival::Taken;
    }
    Ok(right)
}

/// Whether a result that arrives before the last one is answered by `arrival`, and a drain has written so many lines
/// then.
fn arrives(
    sequencer: &mut Sequencer,
    sink: &mut MemSink,
    found: BlockResult,
    arrival: Arrival,
    lines: u8,
) -> bool {
    let is_early = !sequencer.complete() && sequencer.status().is_none();
    let answer = sequencer.arrive(found);
    let drained = sequencer.drain(sink);
    is_early && answer == arrival && drained.is_ok() && has_written(sink, usize::from(lines) * 3)
}

/// Whether the sink has so many bytes of the output.
fn has_written<A: Allocator + Copy>(sink: &MemSink<A>, written: usize) -> bool {
    sink.bytes().len() == written && OUTPUT.starts_with(sink.bytes())
}

fn arrival_of(rt: &impl Abort, sign: u8) -> Arrival {
    match sign {
        b'+' => Arrival::Taken,
        b'=' => Arrival::Double,
        b'?' => Arrival::Stranger,
        _ => panic!(rt; "the sign of an arrival"),
    }
}

fn digit_of(rt: &impl Abort, letter: u8) -> u8 {
    match letter {
        b'0'..=b'9' => letter - b'0',
        _ => panic!(rt; "a digit"),
    }
}

/// The letters of files, as `plan_letters` reads them, and results that arrive: the letter that was searched for, file,
/// number and letter of the block, what the result is (`+` taken, `=` a double, `?` a stranger), and how many lines a
/// drain has written then.
///
/// In the second row the first file has no second block, and the one at this place is the next file's. In the third row
/// the second file has no block, and the first one has two, of which the first was given up before its double comes.
/// A double of such a block may be of any bytes.
const ARRIVALS: &str = "abc x02c+0 x00a+1 x00a=1 x00z=1 b01b?1 x01q?1 x03d?1 x01b+3
a|bc x01b?0 x11c+0 x10b+0 x10b=0 x20a?0 x00b?0 x00a+3
ab||c x10c?0 x02c?0 x20c+0 x10c?0 x00a+1 x00a=1 x30c?1 x21c?1 x01b+3";

/// Whether a result arrives as a step says.
fn steps_on(
    rt: &impl Abort,
    alloc: Global,
    sequencer: &mut Sequencer,
    sink: &mut MemSink,
    step: &str,
) -> bool {
    let [asked, file, number, letter, sign, lines] = step.as_bytes() else {
        panic!(rt; "six letters: {step}");
    };
    let file = digit_of(rt, *file);
    let number = digit_of(rt, *number);
    let found = found_of(rt, alloc, *asked, file, number, *letter);
    let arrival = arrival_of(rt, *sign);
    arrives(sequencer, sink, found, arrival, digit_of(rt, *lines))
}

/// What the search for one letter finds in a block, the line of `x` and a letter.
fn found_of(
    rt: &impl Abort,
    alloc: Global,
    asked: u8,
    file: u8,
    number: u8,
    letter: u8,
) -> BlockResult {
    let query = query_of(alloc, &[asked]).expect(rt, "memory");
    search_line(alloc, &query, u32::from(file), u64::from(number), letter).expect(rt, "memory")
}

/// Results arrive as steps say.
fn assert_steps(
    rt: &impl Abort,
    alloc: Global,
    sequencer: &mut Sequencer,
    sink: &mut MemSink,
    steps: &str,
) {
    for step in steps.split(' ') {
        let right = steps_on(rt, alloc, sequencer, sink, step);
        assert!(rt; right, "{step} of {steps}");
    }
}

/// Whether all results have arrived, this is the status, and a sink has so many bytes of the output.
fn has_ended(sequencer: &Sequencer, status: u8, sink: &MemSink, written: usize) -> bool {
    sequencer.complete() && sequencer.status() == Some(status) && has_written(sink, written)
}

/// Results for files arrive as a row says. With the last one all is written.
fn assert_arrivals(rt: &impl Abort, alloc: Global, row: &str) {
    let (letters, steps) = cut(rt, row, " ");
    let mut sequencer = planned(rt, alloc, b"x", letters.as_bytes());
    let mut sink = MemSink::new(alloc, 100).expect(rt, "memory");
    assert_steps(rt, alloc, &mut sequencer, &mut sink, steps);
    assert!(rt; has_ended(&sequencer, 0, &sink, OUTPUT.len()), "{row}");
}

/// A sequencer of the search for a text with files that have ended, as `plan_letters` plans them.
fn planned(rt: &impl Abort, alloc: Global, text: &[u8], letters: &[u8]) -> Sequencer {
    assert!(rt; letters.len() <= 100);
    let query = query_of(alloc, text).expect(rt, "memory");
    let planned = plan_lines(alloc, &query, PLAIN, letters);
    let (sequencer, _) = planned.expect(rt, "memory");
    sequencer
}

#[test]
fn results_arrive_in_any_order(rt: HostRuntime) {
    for row in ARRIVALS.lines() {
        assert_arrivals(&rt, rt.alloc(), row);
    }
}

/// Whether two results arrive, all is written, and each question is answered, without a request for memory.
fn is_drained_for_free<A: Allocator + Copy>(
    heap: &Refusing,
    sequencer: &mut Sequencer<A>,
    sink: &mut MemSink<A>,
    first: BlockResult<A>,
    second: BlockResult<A>,
) -> bool {
    let requests = heap.requests();
    let are_taken = sequencer.arrive(second) == Arrival::Taken
        && !sequencer.complete()
        && sequencer.arrive(first) == Arrival::Taken
        && !sequencer.enough();
    let is_whole = sequencer.drain(sink).is_ok()
        && sequencer.complete()
        && sequencer.status() == Some(0)
        && sink.bytes() == b"xa\nxb\n".as_slice();
    are_taken && is_whole && heap.requests() == requests
}

/// A sequencer with a window, of a file with the blocks `xa` and `xb`, which has not ended.
fn with_window<A: Allocator + Copy>(rt: &impl Abort, alloc: A, query: &Query<A>) -> Sequencer<A>
    requires { query.now.text.zero ≡ false }
    ensures { IsReading result 0 2 }
{
    let format = Format {
        separator: Some(Separator::hyphens()),
        before: Some(1),
        after: Some(1),
        ..PLAIN
    };
    let mut sequencer = new_sequencer(alloc, query, format).expect(rt, "memory");
    open_file(&mut sequencer, 0, b"f").expect(rt, "memory");
    announce_line(alloc, &mut sequencer, 0, 0, b'a').expect(rt, "memory");
    announce_line(alloc, &mut sequencer, 0, 1, b'b').expect(rt, "memory");
    sequencer
}

/// Whether a sequencer with a window asks for no memory behind its announcements. `alloc` is the heap.
fn asks_for_none<A: Allocator + Copy>(rt: &impl Abort, alloc: A, heap: &Refusing) -> bool {
    let query = query_of(alloc, b"x").expect(rt, "memory");
    let mut sequencer = with_window(rt, alloc, &query);
    let first = search_line(alloc, &query, 0, 0, b'a').expect(rt, "memory");
    let second = search_line(alloc, &query, 0, 1, b'b').expect(rt, "memory");
    let mut sink = MemSink::new(alloc, 100).expect(rt, "memory");
    ends_for_free(&mut sequencer, heap, 0)
        && is_drained_for_free(heap, &mut sequencer, &mut sink, first, second)
}

#[test]
fn results_take_no_memory(rt: HostRuntime) {
    let heap = Refusing::new(rt.alloc(), u64::MAX);
    let asks_for_none = asks_for_none(&rt, &heap, &heap);
    assert!(rt; asks_for_none && heap.requests() > 0);
}

/// Whether a run in which no line is selected writes nothing, and has status 1.
fn writes_nothing(rt: &impl Abort, alloc: Global) -> bool {
    let mut sink = MemSink::new(alloc, 100).expect(rt, "memory");
    let mut sequencer = planned(rt, alloc, b"q", b"abc");
    let query = query_of(alloc, b"q").expect(rt, "memory");
    let all_taken = takes_all(alloc, &query, &mut sequencer);
    all_taken == Ok(true)
        && sequencer.drain(&mut sink).is_ok()
        && has_ended(&sequencer, 1, &sink, 0)
}

#[test]
fn nothing_is_selected(rt: HostRuntime) {
    assert!(rt; writes_nothing(&rt, rt.alloc()));
}

/// Whether a run is complete, and its status.
type State = (bool, Option<u8>);

/// The state of a run.
fn state_of(sequencer: &Sequencer) -> State {
    (sequencer.complete(), sequencer.status())
}

/// The states of a run while its file is open without a block, and once its reading has failed.
fn states_of_open(rt: &impl Abort, alloc: Global) -> (State, State) {
    let query = query_of(alloc, b"x").expect(rt, "memory");
    let mut sequencer = new_sequencer(alloc, &query, PLAIN).expect(rt, "memory");
    open_file(&mut sequencer, 0, b"f").expect(rt, "memory");
    let before = state_of(&sequencer);
    sequencer.end(true);
    (before, state_of(&sequencer))
}

#[test]
fn open_file_is_not_complete(rt: HostRuntime) {
    let states = states_of_open(&rt, rt.alloc());
    assert!(rt; states == ((false, None), (true, Some(2))));
}

/// A sequencer that got the results of all three blocks, and whether an announcement was refused and made again.
fn finish_plan<A: Allocator + Copy>(
    rt: &impl Abort,
    alloc: A,
) -> Result<(Sequencer<A>, bool), AllocError> {
    let query = query_of(alloc, b"x")?;
    let (mut sequencer, again) = plan_lines(alloc, &query, PLAIN, b"abc")?;
    let all_taken = takes_all(alloc, &query, &mut sequencer)?;
    assert!(rt; all_taken);
    Ok((sequencer, again))
}

/// Whether two drains into a sink and one into another end as they have to, where the first one writes so many bytes:
/// after a failed one all others fail.
fn drains(
    sequencer: &mut Sequencer,
    sink: &mut MemSink,
    other: &mut MemSink,
    written: usize,
) -> bool {
    let first = sequencer.drain(sink);
    let second = sequencer.drain(sink);
    let third = sequencer.drain(other);
    let is_answered = if written == OUTPUT.len() {
        first.is_ok() && second.is_ok() && third.is_ok()
    } else {
        first == Err(SinkFault::WriteFailed)
            && second == Err(SinkFault::Failed)
            && third == Err(SinkFault::Failed)
    };
    is_answered && has_written(sink, written) && has_written(other, 0)
}

/// A drain into a sink that takes `limit` bytes in all, and `write_limit` in a write, writes so many bytes of the
/// output.
fn assert_drains(rt: &impl Abort, alloc: Global, limit: usize, write_limit: usize, written: usize) {
    let (mut sequencer, _) = finish_plan(rt, alloc).expect(rt, "memory");
    let mut sink = MemSink::new(alloc, limit).expect(rt, "memory");
    let mut other = MemSink::new(alloc, 100).expect(rt, "memory");
    sink.set_write_limit(write_limit);
    let right = drains(&mut sequencer, &mut sink, &mut other, written);
    assert!(rt; right, "{limit} and {write_limit}");
}

#[test]
fn each_write_may_fail(rt: HostRuntime) {
    for limit in 0..=OUTPUT.len() {
        assert_drains(&rt, rt.alloc(), limit, 100, limit);
        assert_drains(&rt, rt.alloc(), limit, 1, limit);
        assert_drains(&rt, rt.alloc(), limit, 0, 0);
    }
}

/// Whether a sequencer writes all, and whether an announcement was refused and made again.
fn write_lines<A: Allocator + Copy>(
    rt: &impl Abort,
    alloc: A,
    sink: &mut MemSink<A>,
) -> Result<(bool, bool), AllocError> {
    let (mut sequencer, again) = finish_plan(rt, alloc)?;
    let drained = sequencer.drain(sink);
    let whole = drained.is_ok() && sequencer.status() == Some(0) && sink.bytes() == OUTPUT;
    Ok((whole, again))
}

/// Whether a sequencer writes all into a new sink, and whether an announcement was refused and made again; nothing
/// where there is no memory for a sink.
fn write_anew(rt: &impl Abort, heap: &Refusing) -> Result<(bool, bool), AllocError> {
    let mut sink = MemSink::new(heap, 100)?;
    write_lines(rt, heap, &mut sink)
}

#[test]
fn refused_announcement_is_made_again(rt: HostRuntime) {
    let mut refused: u64 = 0;
    let mut spared: u64 = 0;
    for passes in 0..100u64 {
        let heap = Refusing::new(rt.alloc(), passes);
        if let Ok((whole, again)) = write_anew(&rt, &heap) {
            assert!(rt; whole && (heap.has_refused() || !again), "at {passes}");
            if !heap.has_refused() {
                // The three blocks are searched with a scratch each.
                assert!(rt; refused > 0 && spared == 3 * SPARED);
                return;
            }
            let count = if again { &mut refused } else { &mut spared };
            *count = count.wrapping_add(1);
        }
    }
    panic!(rt; "more than 100 requests")
}
