//! The tokens of an expression.
use pg_bytes::ByteSet;

/// The smallest part of a text that means something where it stands.
#[derive(Clone, Copy)]
pub(crate) enum Token {
    Set(ByteSet),
    /// The `^` that matches in front of a line.
    Begin,
    /// The `$` of a basic expression, which takes no mark.
    LastEnd,
    /// The `$` of an extended expression.
    End,
    Repeat(u8, Option<u8>),
    Open,
    Close,
    Bar,
}
