//! What a row has before its text.
ghost use Rattle.std.specs.Prelude.{◌≡◌, ◌+◌, ◌≤◌, ◌++◌, [], ◌∷◌, IfOk, vec_len, vec_capacity};
ghost use Rattle.std.specs.Fmt.{decimal};
ghost use Rattle.pg_rows.specs.Output.{when, marked_name, number_text, tab_before};
ghost use Rattle.pg_rows.specs.Stretch.{marks_text, prefix_text, plain_prefix_text, Appends};
ghost use Rattle.pg_base.specs.Sink.{WritesText};

use crate::colors::{Color, write_marked_name, write_text};
use crate::format::Format;
use crate::position::Position;
use itoa::Buffer;
use pg_base::{Sink, WriteError, write_all};
use std::alloc::{AllocError, Allocator, Global};
use std::marker::Model;

/// The bytes that a name's mark, two numbers with their marks, and a tab take at most.
const ROOM: usize = 44;

/// A file's name, with room behind it for all that a row has before its text. The room is reserved
/// when the value is made, so rows take no memory.
#[derive(Drop)]
pub struct Prefix<A: Allocator = Global> {
    buffer: Vec<u8, A>,
}

impl<A: Allocator> Model for Prefix<A> {
    ghost use Rattle.std.specs.Prelude.{ℕ, ◌+◌, ◌≤◌, List, vec_len, vec_capacity};

    ghost Value = { List ℕ };

    ghost view = { λ p. p.buffer.items };

    ghost invariant = { λ p. vec_len p.buffer + 44 ≤ vec_capacity p.buffer };
}

impl<A: Allocator> Prefix<A> {
    /// The prefix of the rows of a file.
    ///
    /// # Errors
    ///
    /// `AllocError` where the memory for the name and the room behind it is refused.
    pub fn new(alloc: A, name: &[u8]) -> Result<Prefix<A>, AllocError>
        ensures { IfOk result (λ p. p ≡ name.now) }
    {
        let mut buffer = Vec::with_capacity(alloc, name.len() + ROOM)?;
        buffer.extend_from_slice(name).unwrap();
        Ok(Prefix { buffer })
    }

    /// The file's name.
    pub fn name(&self) -> &[u8]
        ensures { result.now ≡ self.now }
    {
        self.buffer.as_slice()
    }

    /// Writes the name, the number and the offset where rows have them, each with the mark, and a tab before a text
    /// where rows have that: without colors in one text.
    ///
    /// # Errors
    ///
    /// `WriteError` where a write failed. A beginning of the text was taken then.
    pub(crate) fn write<W: Sink>(
        &mut self,
        out: &mut W,
        format: &Format,
        at: Position,
        mark: u8,
        has_text: bool,
    ) -> Result<(), WriteError>
        ensures same { self.new ≡ self.old }
        ensures writes { WritesText (prefix_text format.now self.old at.number at.offset mark has_text)
            (W.stream out.old) (W.stream out.new) result }
    {
        if format.colored {
            self.write_colored(out, format, at, mark, has_text)
        } else {
            self.write_plain(out, format, at, mark, has_text)
        }
    }

    /// Writes the prefix in colors, in several texts.
    fn write_colored<W: Sink>(
        &self,
        out: &mut W,
        format: &Format,
        at: Position,
        mark: u8,
        has_text: bool,
    ) -> Result<(), WriteError>
        ensures { WritesText (prefix_text format.now self.now at.number at.offset mark has_text)
            (W.stream out.old) (W.stream out.new) result }
    {
        write_name(out, format, self.name(), mark)?;
        write_number(out, format, format.numbers, at.number, mark)?;
        write_number(out, format, format.offsets, at.offset, mark)?;
        write_tab(out, format, has_text)
    }

    /// Writes the prefix without colors.
    fn write_plain<W: Sink>(
        &mut self,
        out: &mut W,
        format: &Format,
        at: Position,
        mark: u8,
        has_text: bool,
    ) -> Result<(), WriteError>
        ensures same { self.new ≡ self.old }
        ensures writes { WritesText (plain_prefix_text format.now self.old at.number at.offset mark has_text)
            (W.stream out.old) (W.stream out.new) result }
    {
        if !format.names && !format.numbers && !format.offsets {
            return Ok(());
        }
        let len = self.buffer.len();
        append_marks(&mut self.buffer, format, at, mark, has_text);
        let start = if format.names { 0 } else { len };
        let written = write_all(out, &self.buffer.as_slice()[start..]);
        self.buffer.truncate(len);
        written
    }
}

/// Writes the name and what follows it, where rows have names.
fn write_name<W: Sink>(
    out: &mut W,
    format: &Format,
    name: &[u8],
    mark: u8,
) -> Result<(), WriteError>
    ensures { WritesText (when format.now.names (marked_name format.now name.now mark))
        (W.stream out.old) (W.stream out.new) result }
{
    if format.names {
        write_marked_name(out, format, name, mark)
    } else {
        Ok(())
    }
}

/// Writes a number and its mark, where it is shown.
fn write_number<W: Sink>(
    out: &mut W,
    format: &Format,
    shown: bool,
    number: u64,
    mark: u8,
) -> Result<(), WriteError>
    ensures { WritesText (when shown (number_text format.now mark number))
        (W.stream out.old) (W.stream out.new) result }
{
    if !shown {
        return Ok(());
    }
    write_marked_number(out, format, number, mark)
}

/// Writes a number and its mark.
fn write_marked_number<W: Sink>(
    out: &mut W,
    format: &Format,
    number: u64,
    mark: u8,
) -> Result<(), WriteError>
    ensures { WritesText (number_text format.now mark number) (W.stream out.old) (W.stream out.new) result }
{
    let mut digits = Buffer::new();
    let text = digits.format(number).as_bytes();
    write_text(out, format, Color::Number, text)?;
    write_text(out, format, Color::Mark, &[mark])
}

/// Writes a tab, where rows have it before a text.
fn write_tab<W: Sink>(out: &mut W, format: &Format, has_text: bool) -> Result<(), WriteError>
    ensures { WritesText (tab_before format.now has_text) (W.stream out.old) (W.stream out.new) result }
{
    if format.tabs && format.has_prefix() && has_text {
        write_all(out, b"\t")
    } else {
        Ok(())
    }
}

/// Puts a number and its mark behind a text, where it is shown.
fn append_number<A: Allocator>(buffer: &mut Vec<u8, A>, shown: bool, number: u64, mark: u8)
    requires { vec_len buffer.old + 21 ≤ vec_capacity buffer.old }
    ensures { Appends buffer.old buffer.new (when shown (decimal number ++ mark ∷ [])) 21 }
{
    if shown {
        let mut digits = Buffer::new();
        buffer
            .extend_from_slice(digits.format(number).as_bytes())
            .unwrap();
        buffer.push(mark).unwrap();
    }
}

/// Puts the name's mark, the number and the offset with their marks, and a tab behind a name, as far as rows have them.
fn append_marks<A: Allocator>(
    buffer: &mut Vec<u8, A>,
    format: &Format,
    at: Position,
    mark: u8,
    has_text: bool,
)
    requires { vec_len buffer.old + 44 ≤ vec_capacity buffer.old }
    ensures { Appends buffer.old buffer.new (marks_text format.now at mark has_text) 44 }
{
    if format.names {
        buffer.push(format.name_mark(mark)).unwrap();
    }
    append_number(buffer, format.numbers, at.number, mark);
    append_number(buffer, format.offsets, at.offset, mark);
    if format.tabs && format.has_prefix() && has_text {
        buffer.push(b'\t').unwrap();
    }
}
