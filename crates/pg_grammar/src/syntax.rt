//! The syntaxes of expressions.

/// Which of the two syntaxes of expressions a text is read in (XBD 9.3, 9.4).
#[derive(Clone, Copy)]
pub enum Syntax {
    Basic,
    Extended,
}
