//! Texts in colors.
ghost use Rattle.std.specs.Prelude.{◌≡◌, ◌+◌, ◌≤◌, ◌++◌, length, drop, slice_range, true};
ghost use Rattle.pg_rows.specs.Colors.{escape, in_color, part_color};
ghost use Rattle.pg_rows.specs.Output.{marked_name, name_end};
ghost use Rattle.pg_rows.specs.Painting.{code_of, count_before, painted_bytes, AreWithin};
ghost use Rattle.pg_rows.specs.Stretch.{IsPartOf};
ghost use Rattle.pg_base.specs.Sink.{WritesText};

use crate::format::Format;
use pg_base::{Sink, WriteError, write_all};
use pg_selection::Part;

/// What stands in a color of its own.
#[derive(Clone, Copy)]
pub(crate) enum Color {
    Name,
    Number,
    Mark,
    Part,
}

/// Ends a color.
const END: &[u8] = b"\x1b[m\x1b[K";

impl Color {
    /// The bytes that begin the color.
    fn start(self) -> &'static [u8]
        ensures { result.now ≡ escape (code_of self) }
    {
        match self {
            Color::Name => b"\x1b[35m\x1b[K",
            Color::Number => b"\x1b[32m\x1b[K",
            Color::Mark => b"\x1b[36m\x1b[K",
            Color::Part => b"\x1b[01;31m\x1b[K",
        }
    }
}

/// Writes a text and another behind it.
pub(crate) fn write_both<W: Sink>(
    out: &mut W,
    first: &[u8],
    second: &[u8],
) -> Result<(), WriteError>
    ensures { WritesText (first.now ++ second.now) (W.stream out.old) (W.stream out.new) result }
{
    write_all(out, first)?;
    write_all(out, second)
}

/// Writes a text in a color.
pub(crate) fn write_in_color<W: Sink>(
    out: &mut W,
    color: Color,
    text: &[u8],
) -> Result<(), WriteError>
    ensures { WritesText (in_color true (code_of color) text.now) (W.stream out.old) (W.stream out.new) result }
{
    write_both(out, color.start(), text)?;
    write_all(out, END)
}

/// Writes a text, in a color where rows have colors.
pub(crate) fn write_text<W: Sink>(
    out: &mut W,
    format: &Format,
    color: Color,
    text: &[u8],
) -> Result<(), WriteError>
    ensures { WritesText (in_color format.now.colored (code_of color) text.now)
        (W.stream out.old) (W.stream out.new) result }
{
    if format.colored {
        write_in_color(out, color, text)
    } else {
        write_all(out, text)
    }
}

/// Writes what follows a name: a NUL where that is asked for, else the mark.
fn write_name_end<W: Sink>(out: &mut W, format: &Format, mark: u8) -> Result<(), WriteError>
    ensures { WritesText (name_end format.now mark) (W.stream out.old) (W.stream out.new) result }
{
    if format.null {
        write_all(out, b"\0")
    } else {
        write_text(out, format, Color::Mark, &[mark])
    }
}

/// Writes a name and what follows it.
pub(crate) fn write_marked_name<W: Sink>(
    out: &mut W,
    format: &Format,
    name: &[u8],
    mark: u8,
) -> Result<(), WriteError>
    ensures { WritesText (marked_name format.now name.now mark) (W.stream out.old) (W.stream out.new) result }
{
    write_text(out, format, Color::Name, name)?;
    write_name_end(out, format, mark)
}

/// Writes a stretch of some bytes and a part of them in its color behind it.
fn write_to_part<W: Sink>(
    out: &mut W,
    bytes: &[u8],
    at: usize,
    part: Part,
) -> Result<(), WriteError>
    requires start { at ≤ part.span.start }
    requires within { IsPartOf bytes.now part }
    ensures { WritesText (slice_range bytes.now at part.span.start
        ++ in_color true part_color (slice_range bytes.now part.span.start part.span.end))
        (W.stream out.old) (W.stream out.new) result }
{
    write_all(out, &bytes[at..part.span.start])?;
    write_in_color(out, Color::Part, part.span.of(bytes))
}

/// Writes the bytes from a place up to another, with these parts of them in color. The parts stand
/// between the places, one behind the other.
pub(crate) fn write_painted<W: Sink>(
    out: &mut W,
    bytes: &[u8],
    from: usize,
    to: usize,
    parts: &[Part],
) -> Result<(), WriteError>
    requires { AreWithin bytes.now from to parts.now }
    ensures { WritesText (painted_bytes bytes.now from to parts.now) (W.stream out.old) (W.stream out.new) result }
{
    let mut at = from;
    for part in parts {
        write_to_part(out, bytes, at, *part)?;
        at = part.span.end;
    }
    write_all(out, &bytes[at..to])
}

/// Where the parts end that stand in the first `limit` lines, from a part on.
pub(crate) fn end_of_parts(parts: &[Part], from: usize, limit: usize) -> usize
    requires { from ≤ length parts.now }
    ensures { result ≡ from + count_before limit (drop from parts.now) }
{
    let mut at = from;
    while at < parts.len() && parts[at].line < limit {
        at += 1;
    }
    at
}
