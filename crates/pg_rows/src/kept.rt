//! The rows of kept lines.
ghost use Rattle.std.specs.Prelude.{◌≡◌, ◌≤◌, length, drop, true};
ghost use Rattle.pg_blocks.specs.Lines.{lines};
ghost use Rattle.pg_selection.specs.Search.{Search};
ghost use Rattle.pg_rows.specs.Marks.{colon};
ghost use Rattle.pg_rows.specs.Painting.{painted_bytes, AreToldParts, AreWithin};
ghost use Rattle.pg_rows.specs.Steps.{shown_kept, AreKeptParts, CanNumberRun};
ghost use Rattle.pg_base.specs.Sink.{WritesText};
ghost use Rattle.pg_rows.specs.Stretch.{row_at};

use crate::colors::end_of_parts;
use crate::position::Position;
use crate::printer::Printer;
use crate::rows::{has_painted_text, write_lines, write_painted_text};
use pg_base::{Sink, WriteError};
use pg_blocks::line_end;
use pg_selection::Part;
use std::alloc::Allocator;

/// What stands behind the name and the numbers of a line that is kept.
const KEPT_MARK: u8 = b':';

impl<A: Allocator> Printer<A> {
    /// Writes the row of a kept line, which stands from a place of some bytes up to another, with its parts in color.
    fn print_painted_line<W: Sink>(
        &mut self,
        out: &mut W,
        at: Position,
        bytes: &[u8],
        from: usize,
        to: usize,
        parts: &[Part],
    ) -> Result<(), WriteError>
        requires { AreWithin bytes.now from to parts.now }
        ensures same { self.new ≡ self.old }
        ensures writes { WritesText (row_at self.old.format self.old.end self.old.prefix at colon
            (painted_bytes bytes.now from to parts.now)) (W.stream out.old) (W.stream out.new) result }
    {
        let has_text = has_painted_text(from, to, parts);
        self.prefix
            .write(out, &self.format, at, KEPT_MARK, has_text)?;
        write_painted_text(out, self.end, bytes, from, to, parts)
    }

    /// Writes the rows of kept lines with their parts in color: the lines of some bytes from a place on, behind so
    /// many lines of the block, the first of which stands at this position.
    fn print_painted<W: Sink>(
        &mut self,
        out: &mut W,
        first: Position,
        bytes: &[u8],
        from: usize,
        line: usize,
        parts: &[Part],
    ) -> Result<(), WriteError>
        requires colored { self.old.format.colored ≡ true }
        requires fits { CanNumberRun first line (length (lines self.old.end (drop from bytes.now))) (length bytes.now) }
        requires told { (q : Search) × AreToldParts q true self.old.end bytes.now from line parts.now }
        ensures same { self.new ≡ self.old }
        ensures writes { (q : Search) → AreToldParts q true self.old.end bytes.now from line parts.now →
            WritesText (shown_kept q self.old first (lines self.old.end (drop from bytes.now)))
            (W.stream out.old) (W.stream out.new) result }
    {
        let mut at = from;
        let mut done = 0;
        let mut used = 0;
        while at < bytes.len() {
            let stop = line_end(self.end, bytes, at);
            let next = end_of_parts(parts, used, line + done + 1);
            let own = &parts[used..next];
            let place = Position {
                number: first.number + done as u64,
                offset: first.offset + (at - from) as u64,
            };
            self.print_painted_line(out, place, bytes, at, stop, own)?;
            at = stop + 1;
            done += 1;
            used = next;
        }
        Ok(())
    }

    /// Writes the rows of kept lines: the lines of some bytes from a place on, behind so many lines of the block, the
    /// first of which stands at this position. Where rows have colors, these are their parts.
    pub(crate) fn print_kept<W: Sink>(
        &mut self,
        out: &mut W,
        first: Position,
        bytes: &[u8],
        from: usize,
        line: usize,
        parts: &[Part],
    ) -> Result<(), WriteError>
        requires within { from ≤ length bytes.now }
        requires fits { CanNumberRun first line (length (lines self.old.end (drop from bytes.now))) (length bytes.now) }
        requires told { (q : Search) × AreKeptParts q self.old bytes.now from line parts.now }
        ensures same { self.new ≡ self.old }
        ensures writes { (q : Search) → AreKeptParts q self.old bytes.now from line parts.now →
            WritesText (shown_kept q self.old first (lines self.old.end (drop from bytes.now)))
            (W.stream out.old) (W.stream out.new) result }
    {
        if self.format.colored {
            return self.print_painted(out, first, bytes, from, line, parts);
        }
        let text = &bytes[from..];
        let prefix = &mut self.prefix;
        write_lines(out, &self.format, self.end, prefix, KEPT_MARK, first, text)
    }
}
