//! Lines that may still be shown.
ghost use Rattle.std.specs.Prelude.{◌≡◌, ℕ, ◌-◌, ◌<◌, ◌≤◌, ◌^◌, [], length};
ghost use Rattle.std.specs.Prelude.{drop, IfOk, if◌then◌else◌};
ghost use Rattle.std.specs.Arc.{arc_value};
ghost use Rattle.circular_buffer.specs.Buffer.{keep_last};
ghost use Rattle.pg_base.specs.Sink.{WritesText};
ghost use Rattle.pg_blocks.specs.Lines.{lines};
ghost use Rattle.pg_rows.specs.Marks.{hyphen};
ghost use Rattle.pg_rows.specs.Output.{bytes_in};
ghost use Rattle.pg_rows.specs.Stretch.{plain_rows, CanNumber};
ghost use Rattle.pg_rows.specs.Window.{lines_from, tail_lines, lines_held, IsTail, IsWindow, IsEmptyWindow, HoldsLast};
ghost use Rattle.pg_rows.specs.Window.{MakesRoom, MayTake, TakesLines};

use crate::format::Format;
use crate::places::end_of_first;
use crate::position::Position;
use crate::prefix::Prefix;
use crate::rows::{size_of_lines, write_lines};
use circular_buffer::HeapCircularBuffer;
use pg_base::{Sink, WriteError};
use pg_blocks::Block;
use std::alloc::{AllocError, Allocator, Global};
use std::sync::Arc;

/// The end of a block, whose lines weren't shown so far: the bytes from `start` on, which have so
/// many lines, at least one.
struct Tail<A: Allocator = Global> {
    block: Arc<Block<A>, A>,
    start: usize,
    lines: usize,
}

impl<A: Allocator> Drop for Tail<A> {
    fn drop(self) {
        let Tail {
            block: _,
            start: _,
            lines: _,
        } = self;
    }
}

impl<A: Allocator> Tail<A> {
    /// Its bytes.
    fn text(&self) -> &[u8]
        requires { self.now.start ≤ length (arc_value self.now.block).bytes }
        ensures value { result.now ≡ drop self.now.start (arc_value self.now.block).bytes }
        ensures short { length result.now < 2 ^ 63 }
    {
        let block: &Block<A> = &self.block;
        &block.bytes.as_slice()[self.start..]
    }

    /// Its bytes behind its first lines.
    fn text_from(&self, end: u8, skip: usize) -> &[u8]
        requires { IsTail end self.now }
        ensures { lines end result.now ≡ drop skip (tail_lines end self.now) }
    {
        let text = self.text();
        if skip >= self.lines {
            return &text[text.len()..];
        }
        let from = end_of_first(end, text, skip);
        &text[from..]
    }

    /// Writes its lines but the first ones as context. The answer is how many bytes these have, each with its
    /// terminator.
    fn write_from<W: Sink>(
        &self,
        out: &mut W,
        format: &Format,
        end: u8,
        prefix: &mut Prefix<A>,
        first: Position,
        skip: usize,
    ) -> Result<u64, WriteError>
        requires tail { IsTail end self.now }
        requires fits { let ls = drop skip (tail_lines end self.now) in CanNumber first (length ls) (bytes_in ls) }
        ensures same { prefix.new ≡ prefix.old }
        ensures writes { WritesText (plain_rows format.now end prefix.old hyphen first
            (drop skip (tail_lines end self.now))) (W.stream out.old) (W.stream out.new) result }
        ensures size { IfOk result (λ size. size ≡ bytes_in (drop skip (tail_lines end self.now))) }
    {
        let text = self.text_from(end, skip);
        write_lines(out, format, end, prefix, b'-', first, text)?;
        Ok(size_of_lines(end, text))
    }
}

/// The last lines of a file that weren't shown, as far as they may still be shown before a line to
/// come.
pub(crate) struct Window<A: Allocator = Global> {
    tails: HeapCircularBuffer<Tail<A>, A>,
    lines: usize,
}

impl<A: Allocator> Drop for Window<A> {
    fn drop(self) {
        let Window { tails: _, lines: _ } = self;
    }
}

impl<A: Allocator> Window<A> {
    /// A window with nothing in it, for the last `size` lines.
    ///
    /// # Errors
    ///
    /// `AllocError` where the memory for `size` places is refused.
    pub(crate) fn new(alloc: A, size: usize) -> Result<Window<A>, AllocError>
        ensures { IfOk result (λ window. IsEmptyWindow window size) }
    {
        let tails = HeapCircularBuffer::with_capacity(alloc, size)?;
        Ok(Window { tails, lines: 0 })
    }

    /// Gives up all lines.
    pub(crate) fn clear(&mut self)
        ensures { IsEmptyWindow self.new self.old.tails.capacity }
    {
        self.tails.clear();
        self.lines = 0;
    }

    /// Gives up all lines, unless they are to be kept.
    pub(crate) fn clear_unless(&mut self, fresh: bool)
        ensures size { self.new.tails.capacity ≡ self.old.tails.capacity }
        ensures window { (end : ℕ) → IsWindow end self.old → IsWindow end self.new }
        ensures held { (end : ℕ) → lines_held end self.new ≡ (if fresh then lines_held end self.old else []) }
    {
        if !fresh {
            self.clear();
        }
    }

    /// Gives up first tails, as long as the others and so many lines to come are as many as may be
    /// shown.
    fn make_room(&mut self, end: u8, lines: usize)
        requires window { IsWindow end self.old }
        requires small { lines < 2 ^ 63 }
        ensures { MakesRoom end lines self.old self.new }
    {
        let size = self.tails.capacity();
        while let Some(first) = self.tails.front() {
            let others = self.lines - first.lines;
            if others + lines < size {
                return;
            }
            self.lines = others;
            self.tails.pop_front();
        }
    }

    /// Takes the lines of a block from `start` on, behind the others. Blocks are given up as soon as
    /// the others have as many lines as may be shown.
    pub(crate) fn push(&mut self, end: u8, block: Arc<Block<A>, A>, start: usize, lines: usize)
        requires takes { MayTake end self.old (arc_value block) start lines }
        requires some { 0 < lines }
        ensures takes { TakesLines end self.old self.new (lines_from end (arc_value block) start) }
        ensures nothing { self.old.tails.capacity ≡ 0 → self.new.tails.items ≡ [] }
    {
        if self.tails.capacity() == 0 {
            return;
        }
        let tail = Tail {
            block,
            start,
            lines,
        };
        // Its contract says that the lines are fewer than 2^63.
        let _text = tail.text();
        self.make_room(end, lines);
        self.lines += lines;
        self.tails.push_back(tail);
    }

    /// Takes the lines of a block from `start` on, if there are any, as `push` does.
    pub(crate) fn push_some(&mut self, end: u8, block: Arc<Block<A>, A>, start: usize, lines: usize)
        requires { MayTake end self.old (arc_value block) start lines }
        ensures { TakesLines end self.old self.new (lines_from end (arc_value block) start) }
    {
        if lines > 0 {
            self.push(end, block, start, lines);
        }
    }

    /// How many bytes the last `count` lines have, each with its terminator.
    fn size_of_last(&self, end: u8, count: usize) -> u64
        requires holds { HoldsLast end self.now count }
        requires small { bytes_in (keep_last count (lines_held end self.now)) < 2 ^ 64 }
        ensures { result ≡ bytes_in (keep_last count (lines_held end self.now)) }
    {
        let mut skip = self.lines - count;
        let mut size = 0;
        for tail in self.tails.iter() {
            size += size_of_lines(end, tail.text_from(end, skip));
            skip = skip.saturating_sub(tail.lines);
        }
        size
    }

    /// Where the last `count` lines begin, which end at this offset: 0 where rows have no offsets, which alone ask for
    /// it.
    pub(crate) fn offset_of_last(&self, format: &Format, end: u8, offset: u64, count: usize) -> u64
        requires holds { HoldsLast end self.now count }
        requires low { bytes_in (keep_last count (lines_held end self.now)) ≤ offset }
        ensures { result ≡ (if format.now.offsets then offset - bytes_in (keep_last count (lines_held end self.now))
            else 0) }
    {
        if format.offsets {
            offset - self.size_of_last(end, count)
        } else {
            0
        }
    }

    /// Writes the last `count` lines as context, the first of which stands at this position.
    ///
    /// # Errors
    ///
    /// `WriteError` where a write failed. A beginning of the rows was taken then.
    pub(crate) fn write_last<W: Sink>(
        &self,
        out: &mut W,
        format: &Format,
        end: u8,
        prefix: &mut Prefix<A>,
        first: Position,
        count: usize,
    ) -> Result<(), WriteError>
        requires holds { HoldsLast end self.now count }
        requires fits { CanNumber first count (bytes_in (keep_last count (lines_held end self.now))) }
        ensures same { prefix.new ≡ prefix.old }
        ensures writes { WritesText (plain_rows format.now end prefix.old hyphen first
            (keep_last count (lines_held end self.now))) (W.stream out.old) (W.stream out.new) result }
    {
        let mut skip = self.lines - count;
        let mut at = first;
        for tail in self.tails.iter() {
            let size = tail.write_from(out, format, end, prefix, at, skip)?;
            at.number += tail.lines.saturating_sub(skip) as u64;
            at.offset += size;
            skip = skip.saturating_sub(tail.lines);
        }
        Ok(())
    }
}
