//! The literals of a query whose patterns are plain: the strings themselves.
ghost use Rattle.std.specs.Prelude.{◌≡◌, IfOk, map};
ghost use Rattle.pg_grammar.specs.Slices.{bytes_of};
ghost use Rattle.pg_literal.specs.Literals.{as_searched};
ghost use Rattle.pg_pattern.specs.Strings.{items_of};
ghost use Rattle.pg_prefilter.specs.Fixed.{AreStringLiterals, IsStringLiteral};
ghost use Rattle.pg_prefilter.specs.Strings.{without_empty};

use pg_literal::Literal;
use pg_pattern::Bounds;
use std::alloc::{AllocError, Allocator};

/// A copy of a string, in lower case where case is folded.
fn copy_as_searched<A: Allocator>(
    alloc: A,
    string: &[u8],
    fold: bool,
) -> Result<Vec<u8, A>, AllocError>
    ensures { IfOk result (λ copy. copy.items ≡ as_searched fold string.now) }
{
    if fold {
        string.to_ascii_lowercase(alloc)
    } else {
        string.to_vec(alloc)
    }
}

/// The literal of a string: it is enough where any match counts, and a head unless it is empty.
fn literal_of<A: Allocator>(
    alloc: A,
    string: &[u8],
    bounds: Bounds,
    fold: bool,
) -> Result<Literal<A>, AllocError>
    ensures { IfOk result (IsStringLiteral fold bounds string.now) }
{
    Ok(Literal {
        text: copy_as_searched(alloc, string, fold)?,
        is_enough: bounds == Bounds::Any,
        is_head: !string.is_empty(),
    })
}

/// Whether some string is empty.
pub(crate) fn have_empty(strings: &[&[u8]]) -> bool {
    strings.iter().any(|string| string.is_empty())
}

/// Copies of the strings that have a byte, in their order.
pub(crate) fn with_bytes<A: Allocator + Copy>(
    alloc: A,
    strings: &[&[u8]],
) -> Result<Vec<Vec<u8, A>, A>, AllocError>
    ensures { IfOk result (λ copies. map items_of copies.items ≡ without_empty (bytes_of strings.now)) }
{
    let mut copies = Vec::new(alloc);
    for string in strings {
        if !string.is_empty() {
            copies.push(copy_as_searched(alloc, string, false)?)?;
        }
    }
    Ok(copies)
}

/// The literals of strings, in their order.
pub(crate) fn string_literals<A: Allocator + Copy>(
    alloc: A,
    strings: &[&[u8]],
    bounds: Bounds,
    fold: bool,
) -> Result<Vec<Literal<A>, A>, AllocError>
    ensures { IfOk result (λ literals. AreStringLiterals fold bounds (bytes_of strings.now) literals.items) }
{
    let mut literals = Vec::new(alloc);
    for string in strings {
        literals.push(literal_of(alloc, string, bounds, fold)?)?;
    }
    Ok(literals)
}
