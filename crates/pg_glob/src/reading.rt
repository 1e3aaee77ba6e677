//! How a glob is read from its text.
ghost use Rattle.std.specs.Prelude.{◌≡◌, ◌≤◌, IfOk, length, map};
ghost use Rattle.pg_glob.specs.Globs.{bracket_or, piece, pieces_of, quoted};
ghost use Rattle.pg_glob.specs.Brackets.{bracket_at};
ghost use Rattle.pg_glob.specs.Views.{piece_of, written_of};

use crate::bracket::bracket;
use crate::glob::Part;
use pg_bytes::ByteSet;
use std::alloc::{AllocError, Allocator};

/// A part of a glob, and how many bytes belong to it behind its first one.
#[derive(Clone, Copy)]
pub(crate) struct WrittenPart {
    pub part: Part,
    pub behind: usize,
}

/// What stands behind a backslash.
fn quoted(rest: &[u8]) -> WrittenPart
    ensures reads { written_of result ≡ quoted rest.now }
    ensures within { result.behind ≤ length rest.now }
{
    match rest.split_first() {
        Some((byte, _)) => WrittenPart {
            part: Part::OneOf(ByteSet::one(*byte)),
            behind: 1,
        },
        None => WrittenPart {
            part: Part::OneOf(ByteSet::empty()),
            behind: 0,
        },
    }
}

/// The bracket whose `[` a text follows, or that byte itself.
fn bracket_or_byte(rest: &[u8]) -> WrittenPart
    ensures reads { written_of result ≡ bracket_or (bracket_at rest.now) }
    ensures within { result.behind ≤ length rest.now }
{
    match bracket(rest) {
        Some(inside) => WrittenPart {
            part: Part::OneOf(inside.set),
            behind: inside.length,
        },
        None => WrittenPart {
            part: Part::OneOf(ByteSet::one(b'[')),
            behind: 0,
        },
    }
}

/// The part that a byte begins, before the rest of a text.
#[tactic(auto, unfolding(crate::specs::Globs::piece))]
fn part_at(byte: u8, rest: &[u8]) -> WrittenPart
    ensures reads { written_of result ≡ piece byte rest.now }
    ensures within { result.behind ≤ length rest.now }
{
    if byte == b'*' {
        WrittenPart {
            part: Part::AnyBytes,
            behind: 0,
        }
    } else if byte == b'?' {
        WrittenPart {
            part: Part::OneOf(ByteSet::all()),
            behind: 0,
        }
    } else if byte == b'\\' {
        quoted(rest)
    } else if byte == b'[' {
        bracket_or_byte(rest)
    } else {
        WrittenPart {
            part: Part::OneOf(ByteSet::one(byte)),
            behind: 0,
        }
    }
}

/// The parts of a text.
pub(crate) fn parts_of<A: Allocator>(alloc: A, text: &[u8]) -> Result<Vec<Part, A>, AllocError>
    ensures { IfOk result (λ parts. map piece_of parts.items ≡ pieces_of text.now) }
{
    let mut parts = Vec::new(alloc);
    let mut left = text;
    while let Some((byte, rest)) = left.split_first() {
        let next = part_at(*byte, rest);
        parts.push(next.part)?;
        left = &rest[next.behind..];
    }
    Ok(parts)
}
