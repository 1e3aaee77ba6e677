//! Rows as they are written.
ghost use Rattle.std.specs.Prelude.{◌≡◌, ◌++◌, [], ◌∷◌, if◌then◌else◌};
ghost use Rattle.std.specs.Prelude.{length, nat_lt, not, ◌||◌, ◌==◌, EachIndex, get_or};
ghost use Rattle.pg_blocks.specs.Lines.{lines, terminated};
ghost use Rattle.pg_rows.specs.Output.{count_text, is_nothing, bytes_in, gap_text, listed_text, part_text};
ghost use Rattle.pg_rows.specs.Painting.{painted_bytes, AreWithin};
ghost use Rattle.pg_rows.specs.Stretch.{has_text, part_row_within, rows_of_parts, plain_rows, row_at};
ghost use Rattle.pg_rows.specs.Stretch.{CanNumber, IsPartOf, no_part};
ghost use Rattle.pg_base.specs.Sink.{WritesText};

use crate::colors::{Color, write_both, write_marked_name, write_painted, write_text};
use crate::format::Format;
use crate::position::{LineExtent, Position};
use crate::prefix::Prefix;
use itoa::Buffer;
use pg_base::{Sink, WriteError, write_all};
use pg_blocks::end_of_line;
use pg_selection::Part;
use std::alloc::Allocator;

/// Whether the last of some lines lacks its terminator.
fn is_incomplete(end: u8, text: &[u8]) -> bool
    ensures { terminated end (lines end text.now) ≡ (if result then text.now ++ end ∷ [] else text.now) }
{
    !text.is_empty() && text[text.len() - 1] != end
}

/// How many bytes some lines have, each with its terminator.
pub(crate) fn size_of_lines(end: u8, text: &[u8]) -> u64
    ensures { result ≡ bytes_in (lines end text.now) }
{
    if is_incomplete(end, text) {
        text.len() as u64 + 1
    } else {
        text.len() as u64
    }
}

/// Writes some lines and nothing else. A last one without a terminator gets one.
///
/// # Errors
///
/// `WriteError` where a write failed. A beginning of the lines was taken then.
pub(crate) fn write_bare_lines<W: Sink>(out: &mut W, end: u8, text: &[u8]) -> Result<(), WriteError>
    ensures { WritesText (terminated end (lines end text.now)) (W.stream out.old) (W.stream out.new) result }
{
    write_all(out, text)?;
    if is_incomplete(end, text) {
        write_all(out, &[end])
    } else {
        Ok(())
    }
}

/// Whether the first of some lines isn't empty.
fn has_text(end: u8, text: &[u8]) -> bool
    ensures { result ≡ has_text (lines end text.now) }
{
    match text.first() {
        Some(byte) => *byte != end,
        None => false,
    }
}

/// Writes the row of a line, which may lack its terminator.
fn write_line<W: Sink, A: Allocator>(
    out: &mut W,
    format: &Format,
    end: u8,
    prefix: &mut Prefix<A>,
    mark: u8,
    at: Position,
    line: &[u8],
) -> Result<(), WriteError>
    requires { length (lines end line.now) ≡ 1 }
    ensures same { prefix.new ≡ prefix.old }
    ensures writes { WritesText (plain_rows format.now end prefix.old mark at (lines end line.now))
        (W.stream out.old) (W.stream out.new) result }
{
    prefix.write(out, format, at, mark, has_text(end, line))?;
    write_bare_lines(out, end, line)
}

/// Writes the rows of lines, each behind its prefix.
fn write_line_by_line<W: Sink, A: Allocator>(
    out: &mut W,
    format: &Format,
    end: u8,
    prefix: &mut Prefix<A>,
    mark: u8,
    first: Position,
    text: &[u8],
) -> Result<(), WriteError>
    requires { CanNumber first (length (lines end text.now)) (length text.now) }
    ensures same { prefix.new ≡ prefix.old }
    ensures writes { WritesText (plain_rows format.now end prefix.old mark first (lines end text.now))
        (W.stream out.old) (W.stream out.new) result }
{
    let mut at = first;
    let mut start = 0;
    while start < text.len() {
        let next = end_of_line(end, text, start);
        write_line(out, format, end, prefix, mark, at, &text[start..next])?;
        at.number += 1;
        at.offset += (next - start) as u64;
        start = next;
    }
    Ok(())
}

/// Writes the rows of lines with a mark, the first of which stands at this position. A last line without a
/// terminator gets one. Where rows have nothing before their texts the text goes out as it is.
///
/// # Errors
///
/// `WriteError` where a write failed. A beginning of the rows was taken then.
pub(crate) fn write_lines<W: Sink, A: Allocator>(
    out: &mut W,
    format: &Format,
    end: u8,
    prefix: &mut Prefix<A>,
    mark: u8,
    first: Position,
    text: &[u8],
) -> Result<(), WriteError>
    requires { CanNumber first (length (lines end text.now)) (length text.now) }
    ensures same { prefix.new ≡ prefix.old }
    ensures writes { WritesText (plain_rows format.now end prefix.old mark first (lines end text.now))
        (W.stream out.old) (W.stream out.new) result }
{
    if format.has_prefix() {
        write_line_by_line(out, format, end, prefix, mark, first, text)
    } else {
        write_bare_lines(out, end, text)
    }
}

/// Whether a part is written as something: escapes count.
fn has_part_text(format: &Format, text: &[u8]) -> bool
    ensures { result ≡ not (is_nothing (part_text format.now text.now)) }
{
    format.colored || !text.is_empty()
}

/// Whether bytes from a place up to another, or parts of them in color, are written as something.
pub(crate) fn has_painted_text(from: usize, to: usize, parts: &[Part]) -> bool
    ensures { result ≡ (nat_lt from to || not (length parts.now == 0)) }
{
    from < to || !parts.is_empty()
}

/// Writes a part, in its color where rows have colors, and the terminator.
fn write_part_text<W: Sink>(
    out: &mut W,
    format: &Format,
    end: u8,
    text: &[u8],
) -> Result<(), WriteError>
    ensures { WritesText (part_text format.now text.now ++ end ∷ []) (W.stream out.old) (W.stream out.new) result }
{
    write_text(out, format, Color::Part, text)?;
    write_all(out, &[end])
}

/// Writes the row of a part of some bytes.
fn write_row<W: Sink, A: Allocator>(
    out: &mut W,
    format: &Format,
    end: u8,
    prefix: &mut Prefix<A>,
    mark: u8,
    at: Position,
    text: &[u8],
) -> Result<(), WriteError>
    ensures same { prefix.new ≡ prefix.old }
    ensures writes { WritesText (row_at format.now end prefix.old at mark (part_text format.now text.now))
        (W.stream out.old) (W.stream out.new) result }
{
    prefix.write(out, format, at, mark, has_part_text(format, text))?;
    write_part_text(out, format, end, text)
}

/// Writes the row of a part of some bytes, unless its line stands behind the first ones, which are these.
fn write_part<W: Sink, A: Allocator>(
    out: &mut W,
    format: &Format,
    end: u8,
    prefix: &mut Prefix<A>,
    lines: LineExtent,
    bytes: &[u8],
    part: Part,
) -> Result<(), WriteError>
    requires within { IsPartOf bytes.now part }
    requires fits { CanNumber lines.first lines.count (length bytes.now) }
    ensures same { prefix.new ≡ prefix.old }
    ensures writes { WritesText (part_row_within format.now end prefix.old lines.first lines.count bytes.now part)
        (W.stream out.old) (W.stream out.new) result }
{
    if part.line >= lines.count {
        return Ok(());
    }
    let at = Position {
        number: lines.first.number + part.line as u64,
        offset: lines.first.offset + part.span.start as u64,
    };
    write_row(out, format, end, prefix, b':', at, part.span.of(bytes))
}

/// Writes the rows of the parts of some bytes that stand in their first lines, which are these.
///
/// # Errors
///
/// `WriteError` where a write failed. A beginning of the rows was taken then.
pub(crate) fn write_parts<W: Sink, A: Allocator>(
    out: &mut W,
    format: &Format,
    end: u8,
    prefix: &mut Prefix<A>,
    lines: LineExtent,
    bytes: &[u8],
    parts: &[Part],
) -> Result<(), WriteError>
    requires within { EachIndex parts.now (λ k. IsPartOf bytes.now (get_or parts.now k no_part)) }
    requires fits { CanNumber lines.first lines.count (length bytes.now) }
    ensures same { prefix.new ≡ prefix.old }
    ensures writes { WritesText (rows_of_parts format.now end prefix.old lines.first.number lines.first.offset
        lines.count
        bytes.now parts.now) (W.stream out.old) (W.stream out.new) result }
{
    for part in parts {
        write_part(out, format, end, prefix, lines, bytes, *part)?;
    }
    Ok(())
}

/// Writes the bytes from a place up to another, with these parts of them in color, and the terminator.
pub(crate) fn write_painted_text<W: Sink>(
    out: &mut W,
    end: u8,
    bytes: &[u8],
    from: usize,
    to: usize,
    parts: &[Part],
) -> Result<(), WriteError>
    requires { AreWithin bytes.now from to parts.now }
    ensures { WritesText (painted_bytes bytes.now from to parts.now ++ end ∷ [])
        (W.stream out.old) (W.stream out.new) result }
{
    write_painted(out, bytes, from, to, parts)?;
    write_all(out, &[end])
}

/// Writes the row of a file's count, which ends with a newline whatever the terminator.
///
/// # Errors
///
/// `WriteError` where a write failed. A beginning of the row was taken then.
pub(crate) fn write_count<W: Sink, A: Allocator>(
    out: &mut W,
    format: &Format,
    prefix: &Prefix<A>,
    count: u64,
) -> Result<(), WriteError>
    ensures { WritesText (count_text format.now prefix.now count) (W.stream out.old) (W.stream out.new) result }
{
    let mut digits = Buffer::new();
    let text = digits.format(count).as_bytes();
    if !format.names {
        return write_both(out, text, b"\n");
    }
    write_marked_name(out, format, prefix.name(), b':')?;
    write_both(out, text, b"\n")
}

/// Writes a file's name as a row, which ends with a newline whatever the terminator, or with a NUL.
///
/// # Errors
///
/// `WriteError` where a write failed. A beginning of the row was taken then.
pub(crate) fn write_name<W: Sink, A: Allocator>(
    out: &mut W,
    format: &Format,
    prefix: &Prefix<A>,
) -> Result<(), WriteError>
    ensures { WritesText (listed_text format.now prefix.now) (W.stream out.old) (W.stream out.new) result }
{
    write_text(out, format, Color::Name, prefix.name())?;
    write_all(out, &[format.name_mark(b'\n')])
}

/// Writes the row of the separator that stands between rows that don't follow one another.
///
/// # Errors
///
/// `WriteError` where a write failed. A beginning of the row was taken then.
pub(crate) fn write_gap<W: Sink>(out: &mut W, format: &Format, end: u8) -> Result<(), WriteError>
    ensures { WritesText (gap_text format.now end) (W.stream out.old) (W.stream out.new) result }
{
    write_text(out, format, Color::Mark, format.text_between())?;
    write_all(out, &[end])
}
