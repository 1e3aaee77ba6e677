//! Where a match may begin and end.
ghost use Rattle.std.specs.Prelude.{◌≡◌, ◌↔◌, ◌≤◌, length, IsTrue};
ghost use Rattle.pg_pattern.specs.Bounds.{is_word_byte, MayBegin, MayEnd};

/// Which spans of a line count as matched.
#[derive(Clone, Copy, Debug, PartialEq, Eq)]
pub enum Bounds {
    /// All of them.
    Any,
    /// Those with no letter, digit or `_` right before and right behind them (GNU grep, -w).
    Word,
    /// The whole line alone (XCU grep, -x).
    Whole,
}

/// Whether a byte is part of a word: a letter, a digit or `_` (GNU grep, -w).
pub fn is_word_byte(byte: u8) -> bool
    ensures { result ≡ is_word_byte byte }
{
    byte == b'_'
        || (byte >= b'0' && byte <= b'9')
        || (byte >= b'A' && byte <= b'Z')
        || (byte >= b'a' && byte <= b'z')
}

impl Bounds {
    /// Whether a match may begin at a place of a line, an offset in bytes from 0 to the line's length: with `Word` not
    /// right behind a letter, a digit or `_` (GNU grep, -w), with `Whole` at 0 alone (XCU grep, -x).
    #[inline(always)]
    pub fn may_begin(self, line: &[u8], place: usize) -> bool
        requires { place ≤ length line.now }
        ensures { IsTrue result ↔ MayBegin self line.now place }
    {
        match self {
            Bounds::Any => true,
            Bounds::Word => place == 0 || !is_word_byte(line[place - 1]),
            Bounds::Whole => place == 0,
        }
    }

    /// Whether a match may end at a place of a line, an offset in bytes from 0 to the line's length: with `Word` not
    /// right before a letter, a digit or `_` (GNU grep, -w), with `Whole` where the line ends alone (XCU grep, -x).
    #[inline(always)]
    pub fn may_end(self, line: &[u8], place: usize) -> bool
        requires { place ≤ length line.now }
        ensures { IsTrue result ↔ MayEnd self line.now place }
    {
        match self {
            Bounds::Any => true,
            Bounds::Word => place == line.len() || !is_word_byte(line[place]),
            Bounds::Whole => place == line.len(),
        }
    }
}
