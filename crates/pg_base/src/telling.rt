//! What is told on standard error.
ghost use Rattle.std.specs.Prelude.{◌≡◌, ◌++◌, codes, IfOk};
ghost use Rattle.std.specs.List.{flat_map};
ghost use Rattle.pg_base.specs.Causes.{fault_line};
ghost use Rattle.pg_base.specs.Sink.{WritesText};

use crate::cause::Cause;
use crate::sink::{Sink, WriteError, write_all};
use std::alloc::{AllocError, Allocator};

/// Writes a text that is given in parts: in one write where there is memory for it, else part by part.
///
/// # Errors
///
/// `WriteError` where a write failed. A beginning of the text was taken then.
pub fn tell<A: Allocator, W: Sink>(alloc: A, parts: &[&[u8]], err: &mut W) -> Result<(), WriteError>
    ensures { WritesText (flat_map (λ part. part.now) parts.now) (W.stream err.old) (W.stream err.new) result }
{
    match join(alloc, parts) {
        Ok(text) => write_all(err, text.as_slice()),
        Err(AllocError) => write_each(parts, err),
    }
}

/// Writes the line that tells why a name gives no file, or that reading the file failed: in one write where there is
/// memory for it, else part by part.
///
/// # Errors
///
/// `WriteError` where a write failed. A beginning of the line was taken then.
pub fn tell_cause<A: Allocator, W: Sink>(
    alloc: A,
    name: &[u8],
    cause: Cause,
    err: &mut W,
) -> Result<(), WriteError>
    ensures { WritesText (fault_line name.now cause) (W.stream err.old) (W.stream err.new) result }
{
    tell(alloc, &line_parts(name, cause.text()), err)
}

/// The parts of the line of a name, in their order.
fn line_parts<'a>(name: &'a [u8], text: &'a str) -> [&'a [u8]; 5]
    ensures { flat_map (λ part. part.now) result
        ≡ codes "pargrep: " ++ name.now ++ codes ": " ++ text.now ++ codes "\n" }
{
    [b"pargrep: ", name, b": ", text.as_bytes(), b"\n"]
}

/// The parts, one behind the other.
fn join<A: Allocator>(alloc: A, parts: &[&[u8]]) -> Result<Vec<u8, A>, AllocError>
    ensures { IfOk result (λ text. text.items ≡ flat_map (λ part. part.now) parts.now) }
{
    let mut text = Vec::new(alloc);
    for part in parts {
        text.extend_from_slice(part)?;
    }
    Ok(text)
}

/// Writes one part after the other.
fn write_each<W: Sink>(parts: &[&[u8]], err: &mut W) -> Result<(), WriteError>
    ensures { WritesText (flat_map (λ part. part.now) parts.now) (W.stream err.old) (W.stream err.new) result }
{
    for part in parts {
        write_all(err, part)?;
    }
    Ok(())
}
