//! The rows of files, block by block.
ghost use Rattle.std.specs.Prelude.{◌≡◌, ℕ, ◌+◌, ◌-◌, ◌<◌, ◌≤◌, ◌^◌, ◌++◌, List, IfOk};
ghost use Rattle.std.specs.Prelude.{length, drop, if◌then◌else◌};
ghost use Rattle.std.specs.Prelude.{true, false, nat_lt};
ghost use Rattle.std.specs.Prelude.{Some};
ghost use Rattle.std.specs.Arc.{arc_value};
ghost use Rattle.pg_selection.specs.Search.{Search, terminator};
ghost use Rattle.pg_rows.specs.Pieces.{cut_at};
ghost use Rattle.pg_rows.specs.Places.{FirstLines};
ghost use Rattle.pg_rows.specs.Remembered.{HasLines};
ghost use Rattle.pg_rows.specs.Output.{listed_text, bytes_in, when};
ghost use Rattle.pg_blocks.specs.Lines.{lines, AreWhole};
ghost use Rattle.pg_base.specs.Sink.{WritesText};

use crate::colors::end_of_parts;
use crate::format::{EndRow, Format};
use crate::places::{end_of_first, start_of_last};
use crate::position::{LineExtent, Position};
use crate::prefix::Prefix;
use crate::progress::Progress;
use crate::rows::{size_of_lines, write_count, write_gap, write_lines, write_name, write_parts};
use crate::window::Window;
use pg_base::{Sink, WriteError};
use pg_blocks::Block;
use pg_selection::{BlockResult, Part, Run, Selector};
use std::alloc::{AllocError, Allocator, Global};
use std::sync::Arc;

/// What stands behind the name and the number of a line that is shown as context.
const CONTEXT_MARK: u8 = b'-';

/// Where a printer stands in a block: the lines before `at`, of which there are `seen`, were passed
/// or kept.
#[derive(Clone, Copy)]
struct Place {
    progress: Progress,
    at: usize,
    seen: usize,
    /// How many parts of the block stand in these lines, where rows have colors.
    used: usize,
}

/// The first lines of a run of selected lines, so many, which are kept.
#[derive(Clone, Copy)]
struct KeptRun {
    run: Run,
    count: usize,
}

/// What the first lines of a run of selected lines leave, where they are kept.
#[derive(Clone, Copy)]
struct Step {
    /// What is remembered behind the lines before the run.
    passed: Progress,
    /// The place behind the lines that are kept.
    place: Place,
}

/// What is left of a block whose rows were written: the lines from `start` on, which may still be
/// shown.
#[derive(Clone, Copy, Debug)]
pub struct PrintedBlock {
    progress: Progress,
    /// Where the next block begins in the file.
    offset: u64,
    /// No line of the block was kept, so what was held before it may still be shown too.
    fresh: bool,
    start: usize,
    lines: usize,
}

/// How many lines of a block stand before the first selected one behind so many selected ones.
fn line_beyond(runs: &[Run], room: u64, total: usize) -> usize
    requires { (q : Search) × (bytes : List ℕ) × HasLines q bytes runs.now total }
    ensures value { (q : Search) (bytes : List ℕ) (limit kept : ℕ) → HasLines q bytes runs.now total →
        room ≡ limit - kept → result ≡ cut_at q (Some limit) kept (lines (terminator q) bytes) }
    ensures short { result ≤ total }
{
    let mut left = room;
    for run in runs {
        if left < run.count as u64 {
            return run.first + left as usize;
        }
        left -= run.count as u64;
    }
    total
}

/// The bytes of the block of a result.
fn bytes_of<A: Allocator>(found: &BlockResult<A>) -> &[u8]
    ensures { result.now ≡ found.now.block.bytes }
{
    let block: &Block<A> = found.block();
    block.bytes.as_slice()
}

/// The rows of files, one file after another.
///
/// It remembers of the open file how many lines and bytes it had and how many were kept, and holds the last
/// lines that may still be shown as leading context.
pub struct Printer<A: Allocator = Global> {
    pub(crate) format: Format,
    pub(crate) end: u8,
    pub(crate) prefix: Prefix<A>,
    /// Whether a row was written before the open file.
    earlier: bool,
    progress: Progress,
    /// Where the next block of the open file begins in it.
    offset: u64,
    window: Window<A>,
}

impl<A: Allocator> Drop for Printer<A> {
    fn drop(self) {
        let Printer {
            format: _,
            end: _,
            prefix: _,
            earlier: _,
            progress: _,
            offset: _,
            window: _,
        } = self;
    }
}

impl<A: Allocator> Printer<A> {
    ghost use Rattle.pg_selection.specs.Search.{HasItsTrees};
    ghost use Rattle.pg_rows.specs.Results.{MayPrint, WritesResult, IsRemembered, RemembersResult};
    ghost use Rattle.pg_rows.specs.Results.{ComesToLast, StopsWithin};
    ghost use Rattle.pg_rows.specs.Cursor.{Cursor, at_start};
    ghost use Rattle.pg_rows.specs.Remembered.{IsAtCursor, shows_lines, shows_parts, behind_block};
    ghost use Rattle.pg_rows.specs.Modes.{is_named};
    ghost use Rattle.pg_rows.specs.Remembered.{opened_as, end_rows};
    ghost use Rattle.pg_rows.specs.Progress.{Passes};
    ghost use Rattle.pg_rows.specs.Printing.{ComesNext, EndsKept};
    ghost use Rattle.pg_rows.specs.Printing.{has_gap, gap_of, leading};
    ghost use Rattle.pg_rows.specs.Painting.{count_before};
    ghost use Rattle.pg_rows.specs.Steps.{gap_lines, shown_before, shown_leading, shown_passed, shown_step};
    ghost use Rattle.pg_rows.specs.Steps.{ComesBehind, HasLeading, MayPrintRun, StepsOver, TakesParts};

    /// A printer to which nothing was given, for the rows of selected lines. It reserves the room of its window.
    ///
    /// # Errors
    ///
    /// `AllocError` where a request for memory is refused.
    pub fn new(alloc: A, selector: &Selector<A>, format: Format) -> Result<Printer<A>, AllocError>
    where
        A: Copy,
        ensures { (q : Search) → q.text ≡ selector.now → IfOk result (λ p. IsAtCursor p q format at_start) }
    {
        let window = Window::new(alloc, usize::from(format.before.unwrap_or(0)))?;
        let prefix = Prefix::new(alloc, b"")?;
        Ok(Printer {
            format,
            end: selector.terminator(),
            prefix,
            earlier: false,
            progress: Progress::new(),
            offset: 0,
            window,
        })
    }

    /// Begins the next file. What was held of the one before is given up.
    pub fn open(&mut self, prefix: Prefix<A>)
        ensures { (q : Search) (format : Format) (c : Cursor) → IsAtCursor self.old q format c →
            IsAtCursor self.new q format (opened_as c prefix) }
    {
        self.earlier |= self.progress.shown;
        self.prefix = prefix;
        self.progress = Progress::new();
        self.offset = 0;
        self.window.clear();
    }

    /// What is remembered of the lines of the open file.
    pub fn progress(&self) -> Progress
        ensures { result ≡ self.now.progress }
    {
        self.progress
    }

    /// Goes on behind a block whose rows were written: the one that `print` was given last, with what it
    /// answered. The block is held as long as its last lines may still be shown.
    pub fn pass(&mut self, block: Arc<Block<A>, A>, printed: PrintedBlock)
        requires { (q : Search) × (format : Format) × (c : Cursor) × IsAtCursor self.old q format c
            × IsRemembered self.old q format c (arc_value block).bytes printed }
        ensures { (q : Search) (format : Format) (c : Cursor) → IsAtCursor self.old q format c →
            IsRemembered self.old q format c (arc_value block).bytes printed →
            IsAtCursor self.new q format (behind_block q format c (arc_value block).bytes) }
    {
        self.progress = printed.progress;
        self.offset = printed.offset;
        self.window.clear_unless(printed.fresh);
        self.window
            .push_some(self.end, block, printed.start, printed.lines);
    }

    /// Writes the row that a file's end adds: its count or its name, where they are asked for.
    ///
    /// # Errors
    ///
    /// `WriteError` where a write failed. A beginning of the row was taken then.
    pub fn end<W: Sink>(&self, out: &mut W) -> Result<(), WriteError>
        ensures { (text : List ℕ) × WritesText text (W.stream out.old) (W.stream out.new) result
            × ((q : Search) (format : Format) (c : Cursor) → IsAtCursor self.now q format c → text
            ≡ end_rows format c) }
    {
        match self.format.mode.row_at_end() {
            EndRow::Count => write_count(out, &self.format, &self.prefix, self.progress.kept),
            EndRow::Name => self.write_listed_name(out),
            EndRow::None => Ok(()),
        }
    }

    /// Writes the file's name as a row, where the mode lists the file.
    fn write_listed_name<W: Sink>(&self, out: &mut W) -> Result<(), WriteError>
        ensures { WritesText (when (is_named self.now.format.mode (nat_lt 0 self.now.progress.kept))
            (listed_text self.now.format self.now.prefix)) (W.stream out.old) (W.stream out.new) result }
    {
        if self.format.mode.is_named(self.progress.kept > 0) {
            write_name(out, &self.format, &self.prefix)
        } else {
            Ok(())
        }
    }

    /// Goes past a block of which no line is held, by its runs of selected lines. Nothing looks at a line.
    fn passed(&self, found: &BlockResult<A>) -> PrintedBlock
        requires may { MayPrint self.now found.now }
        requires hides { shows_lines self.now.format ≡ false }
        ensures { (q : Search) (format : Format) (c : Cursor) → IsAtCursor self.now q format c → HasItsTrees q →
            found.now.query ≡ q.text → IsRemembered self.now q format c found.now.block.bytes result }
    {
        let bytes = bytes_of(found);
        let total = found.lines() as u64;
        PrintedBlock {
            progress: self.progress.after(&self.format, found.runs(), total),
            offset: self.behind(bytes),
            fresh: true,
            start: bytes.len(),
            lines: 0,
        }
    }

    /// Where a block ends in the open file: a last line without a terminator counts as if it had one.
    fn behind(&self, bytes: &[u8]) -> u64
        requires { self.now.offset + length bytes.now < 2 ^ 63 }
        ensures { result ≡ self.now.offset + bytes_in (lines self.now.end bytes.now) }
    {
        self.offset + size_of_lines(self.end, bytes)
    }

    /// How many lines of a block stand before the first selected one that isn't kept.
    fn cut(&self, runs: &[Run], total: usize) -> usize
        requires { (q : Search) × (bytes : List ℕ) × HasLines q bytes runs.now total }
        ensures value { (q : Search) (bytes : List ℕ) → HasLines q bytes runs.now total →
            result ≡ cut_at q self.now.format.limit self.now.progress.kept (lines (terminator q) bytes) }
        ensures short { result ≤ total }
    {
        match self.progress.room(&self.format) {
            Some(room) => line_beyond(runs, room, total),
            None => total,
        }
    }

    /// Writes the rows of the matched parts of a block.
    fn print_parts<W: Sink>(
        &mut self,
        out: &mut W,
        found: &BlockResult<A>,
    ) -> Result<PrintedBlock, WriteError>
        requires may { MayPrint self.old found.now }
        requires shows { shows_parts self.old.format ≡ true }
        ensures same { self.new ≡ self.old }
        ensures writes { WritesResult self.old found.now (W.stream out.old) (W.stream out.new) result }
        ensures follows { RemembersResult self.old found.now result }
    {
        let cut = self.cut(found.runs(), found.lines());
        let first = Position {
            number: self.progress.number + 1,
            offset: self.offset,
        };
        let lines = LineExtent { first, count: cut };
        let printed = self.passed(found);
        write_parts(
            out,
            &self.format,
            self.end,
            &mut self.prefix,
            lines,
            bytes_of(found),
            found.parts(),
        )?;
        Ok(printed)
    }

    /// Writes the rows that a block adds: the open file's next one, by its result under the query that the
    /// printer is for, and with fewer than 2^63 lines and bytes in the file up to its end. The printer stands where it
    /// stood; `pass` goes on behind the block.
    ///
    /// # Errors
    ///
    /// `WriteError` where a write failed. A beginning of the rows was taken then.
    pub fn print<W: Sink>(
        &mut self,
        out: &mut W,
        found: &BlockResult<A>,
    ) -> Result<PrintedBlock, WriteError>
        requires { MayPrint self.old found.now }
        ensures same { self.new ≡ self.old }
        ensures writes { WritesResult self.old found.now (W.stream out.old) (W.stream out.new) result }
        ensures follows { RemembersResult self.old found.now result }
    {
        if !self.format.mode.shows_rows() {
            return Ok(self.passed(found));
        }
        if self.format.parts {
            return self.print_parts(out, found);
        }
        self.print_lines(out, found)
    }

    /// Whether a separator stands before the next kept line and its context.
    fn has_gap(&self, progress: Progress) -> bool
        ensures { result ≡ has_gap self.now.format self.now.earlier progress }
    {
        if !self.format.has_separators() {
            return false;
        }
        if progress.shown {
            u64::from(self.format.before.unwrap_or(0)) < progress.behind
        } else {
            self.earlier
        }
    }

    /// Writes the separator that may stand before the next kept line and its context.
    fn print_gap<W: Sink>(&self, out: &mut W, progress: Progress) -> Result<(), WriteError>
        ensures { WritesText (gap_of self.now.format self.now.end self.now.earlier progress)
            (W.stream out.old) (W.stream out.new) result }
    {
        if self.has_gap(progress) {
            write_gap(out, &self.format, self.end)
        } else {
            Ok(())
        }
    }

    /// How many lines are shown before the next kept line as its context.
    fn leading(&self, progress: Progress) -> usize
        ensures { result ≡ leading self.now.format progress }
    {
        u64::from(self.format.before.unwrap_or(0)).min(progress.behind) as usize
    }

    /// Writes those lines that are shown as trailing context, where none is kept: they begin at this offset. The answer
    /// is the place behind them.
    fn print_passed<W: Sink>(
        &mut self,
        out: &mut W,
        progress: Progress,
        offset: u64,
        text: &[u8],
        count: usize,
    ) -> Result<usize, WriteError>
        requires { ComesBehind self.old.end progress offset text.now count }
        ensures same { self.new ≡ self.old }
        ensures writes { WritesText (shown_passed self.old progress offset (lines self.old.end text.now))
            (W.stream out.old) (W.stream out.new) result }
        ensures stops { IfOk result (λ stop. FirstLines self.old.end text.now stop progress.countdown) }
    {
        let stop = self.end_of_passed(progress, text, count);
        let first = Position {
            number: progress.number + 1,
            offset,
        };
        let prefix = &mut self.prefix;
        let shown = &text[..stop];
        write_lines(
            out,
            &self.format,
            self.end,
            prefix,
            CONTEXT_MARK,
            first,
            shown,
        )?;
        Ok(stop)
    }

    /// Where the lines end that are shown as trailing context, where none is kept.
    fn end_of_passed(&self, progress: Progress, text: &[u8], count: usize) -> usize
        requires { count ≡ length (lines self.now.end text.now) }
        ensures { FirstLines self.now.end text.now result progress.countdown }
    {
        if progress.countdown >= count as u64 {
            return text.len();
        }
        end_of_first(self.end, text, progress.countdown as usize)
    }

    /// Writes the rows of the lines that are shown before a kept one, which begins at this offset: the last ones that
    /// are held, and the last ones of those that stand before it in its block.
    fn print_leading<W: Sink>(
        &mut self,
        out: &mut W,
        progress: Progress,
        offset: u64,
        near: &[u8],
        count: usize,
    ) -> Result<(), WriteError>
        requires whole { AreWhole self.old.end near.now }
        requires count { count ≡ length (lines self.old.end near.now) }
        requires leading { HasLeading self.old progress (lines self.old.end near.now) offset }
        requires small { progress.number < 2 ^ 63 }
        ensures same { self.new ≡ self.old }
        ensures writes { WritesText (shown_leading self.old (lines self.old.end near.now) progress offset)
            (W.stream out.old) (W.stream out.new) result }
    {
        let leading = self.leading(progress);
        if leading == 0 {
            return Ok(());
        }
        let close = leading.min(count);
        let far = leading - close;
        let from = start_of_last(self.end, near, close);
        let last = &near[from..];
        let start = offset - last.len() as u64;
        let begin = self
            .window
            .offset_of_last(&self.format, self.end, start, far);
        let first = Position {
            number: progress.number + 1 - leading as u64,
            offset: begin,
        };
        let prefix = &mut self.prefix;
        self.window
            .write_last(out, &self.format, self.end, prefix, first, far)?;
        let next = Position {
            number: progress.number + 1 - close as u64,
            offset: start,
        };
        write_lines(
            out,
            &self.format,
            self.end,
            prefix,
            CONTEXT_MARK,
            next,
            last,
        )
    }

    /// Writes what stands before a kept line, which begins at this offset: the separator, and the lines that are
    /// shown before it.
    fn print_before<W: Sink>(
        &mut self,
        out: &mut W,
        progress: Progress,
        offset: u64,
        near: &[u8],
        count: usize,
    ) -> Result<(), WriteError>
        requires whole { AreWhole self.old.end near.now }
        requires count { count ≡ length (lines self.old.end near.now) }
        requires leading { HasLeading self.old progress (lines self.old.end near.now) offset }
        requires small { progress.number < 2 ^ 63 }
        ensures same { self.new ≡ self.old }
        ensures writes { WritesText (shown_before self.old (lines self.old.end near.now) progress offset)
            (W.stream out.old) (W.stream out.new) result }
    {
        self.print_gap(out, progress)?;
        self.print_leading(out, progress, offset, near, count)
    }

    /// Writes the rows of the lines before a run of selected lines, none of which is kept, and what stands before the
    /// run. The lines begin at this offset.
    fn print_unkept<W: Sink>(
        &mut self,
        out: &mut W,
        progress: Progress,
        passed: Progress,
        offset: u64,
        gap: &[u8],
        count: usize,
    ) -> Result<(), WriteError>
        requires whole { AreWhole self.old.end gap.now }
        requires comes { ComesBehind self.old.end progress offset gap.now count }
        requires passes { Passes progress count passed }
        requires leading { HasLeading self.old passed (drop progress.countdown (lines self.old.end gap.now))
            (offset + length gap.now) }
        ensures same { self.new ≡ self.old }
        ensures writes { WritesText (shown_passed self.old progress offset (lines self.old.end gap.now) ++ shown_before
            self.old (drop progress.countdown (lines self.old.end gap.now)) passed (offset + length gap.now))
            (W.stream out.old) (W.stream out.new) result }
    {
        let stop = self.print_passed(out, progress, offset, gap, count)?;
        let hidden = (count as u64).saturating_sub(progress.countdown) as usize;
        let behind = offset + gap.len() as u64;
        self.print_before(out, passed, behind, &gap[stop..], hidden)
    }

    /// Where the first lines of a run end, so many.
    fn end_of_kept(&self, bytes: &[u8], run: Run, count: usize) -> usize
        requires { (at : ℕ) × (seen : ℕ) × ComesNext self.now.end bytes.now at seen run }
        ensures { EndsKept self.now.end bytes.now run count result }
    {
        if count >= run.count {
            return run.span.end;
        }
        run.span.start + end_of_first(self.end, run.span.of(bytes), count)
    }

    /// How many parts of a block stand before so many lines of it, where so many of them are known to. Only colors
    /// ask for that.
    fn used_before(&self, parts: &[Part], used: usize, limit: usize) -> usize
        requires { used ≤ length parts.now }
        ensures { result ≡ (if self.now.format.colored then used + count_before limit (drop used parts.now) else used) }
    {
        if self.format.colored {
            end_of_parts(parts, used, limit)
        } else {
            used
        }
    }

    /// Goes from a place to the place behind the first lines of a run, so many.
    fn step(&self, place: Place, bytes: &[u8], run: Run, count: usize, parts: &[Part]) -> Step
        requires { MayPrintRun self.now bytes.now parts.now place run count }
        ensures { StepsOver self.now bytes.now parts.now place run count result }
    {
        let passed = place.progress.pass((run.first - place.seen) as u64);
        Step {
            passed,
            place: Place {
                progress: passed.keep(count as u64, &self.format),
                at: self.end_of_kept(bytes, run, count),
                seen: run.first + count,
                used: self.used_before(parts, place.used, run.first + count),
            },
        }
    }

    /// Writes the rows of the lines between two places: those before a run of selected lines, none of which is kept,
    /// and the first lines of the run, which are kept.
    fn print_step<W: Sink>(
        &mut self,
        out: &mut W,
        place: Place,
        bytes: &[u8],
        kept: KeptRun,
        next: Step,
        parts: &[Part],
    ) -> Result<(), WriteError>
        requires may { MayPrintRun self.old bytes.now parts.now place kept.run kept.count }
        requires steps { StepsOver self.old bytes.now parts.now place kept.run kept.count next }
        requires leading { HasLeading self.old next.passed
            (drop place.progress.countdown (gap_lines self.old bytes.now place kept.run))
            (self.old.offset + kept.run.span.start) }
        requires takes { (q : Search) × TakesParts q self.old bytes.now parts.now place kept.run next.place }
        ensures same { self.new ≡ self.old }
        ensures writes { (q : Search) → TakesParts q self.old bytes.now parts.now place kept.run next.place →
            WritesText (shown_step q self.old bytes.now place kept.run next) (W.stream out.old) (W.stream out.new)
            result }
    {
        let run = kept.run;
        let gap = &bytes[place.at..run.span.start];
        let hidden = run.first - place.seen;
        let offset = self.offset + place.at as u64;
        self.print_unkept(out, place.progress, next.passed, offset, gap, hidden)?;
        let text = &bytes[..next.place.at];
        let own = &parts[place.used..next.place.used];
        let first = Position {
            number: next.passed.number + 1,
            offset: self.offset + run.span.start as u64,
        };
        self.print_kept(out, first, text, run.span.start, run.first, own)
    }

    /// Writes the rows of the lines up to the last one of a block that is kept. It goes from run to run,
    /// and stops once no more line is kept. The answer is the place behind that line.
    fn print_runs<W: Sink>(
        &mut self,
        out: &mut W,
        found: &BlockResult<A>,
    ) -> Result<Place, WriteError>
        requires may { MayPrint self.old found.now }
        requires shows { shows_lines self.old.format ≡ true }
        ensures same { self.new ≡ self.old }
        ensures comes { ComesToLast self.old found.now (W.stream out.old) (W.stream out.new) result }
        ensures stops { StopsWithin self.old found.now (W.stream out.old) (W.stream out.new) result }
    {
        let bytes = bytes_of(found);
        let runs = found.runs();
        let parts = found.parts();
        let mut place = Place {
            progress: self.progress,
            at: 0,
            seen: 0,
            used: 0,
        };
        for run in runs {
            let count = place.progress.keeps(&self.format, run.count as u64) as usize;
            if count == 0 {
                return Ok(place);
            }
            let next = self.step(place, bytes, *run, count, parts);
            let kept = KeptRun { run: *run, count };
            self.print_step(out, place, bytes, kept, next, parts)?;
            place = next.place;
        }
        Ok(place)
    }

    /// Writes the rows of the lines of a block.
    fn print_lines<W: Sink>(
        &mut self,
        out: &mut W,
        found: &BlockResult<A>,
    ) -> Result<PrintedBlock, WriteError>
        requires may { MayPrint self.old found.now }
        requires shows { shows_lines self.old.format ≡ true }
        ensures same { self.new ≡ self.old }
        ensures writes { WritesResult self.old found.now (W.stream out.old) (W.stream out.new) result }
        ensures follows { RemembersResult self.old found.now result }
    {
        let place = self.print_runs(out, found)?;
        let bytes = bytes_of(found);
        let left = found.lines() - place.seen;
        let last = place.progress.pass(left as u64);
        let next = self.behind(bytes);
        let offset = self.offset + place.at as u64;
        let stop = self.print_passed(out, place.progress, offset, &bytes[place.at..], left)?;
        Ok(PrintedBlock {
            progress: last,
            offset: next,
            fresh: place.at == 0,
            start: place.at + stop,
            lines: (left as u64).saturating_sub(place.progress.countdown) as usize,
        })
    }
}
