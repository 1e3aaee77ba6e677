//! The elements of a bracket (XBD 9.3.5, rules 4 to 7).
ghost use Rattle.std.specs.Prelude.{◌≡◌, ◌<◌, ◌≤◌, ◌+◌, ◌-◌, ℕ, List, length};
ghost use Rattle.std.specs.Prelude.{drop, MatchOption, option_map, Some, None};
ghost use Rattle.pg_bytes.specs.ByteSets.{bytes};
ghost use Rattle.pg_grammar.specs.Brackets.{member, end_point, is_dash, only_byte};
ghost use Rattle.pg_syntax.specs.BracketReading.{range_of, element_at, SingleAt, EnclosedAt};
ghost use Rattle.pg_syntax.specs.BracketViews.{element};
ghost use Rattle.pg_syntax.specs.BracketPlaces.{HasElement, FaultPlace, FindsElement};
ghost use Rattle.pg_grammar.specs.Places.{IsBadRange};
ghost use Rattle.pg_syntax.specs.Reads.{EndsContent};

use pg_bytes::{ByteSet, class};
use pg_grammar::{FaultKind, SyntaxFault};

/// One byte, or what stands in `[: :]`, `[= =]` or `[. .]`, told by its mark.
#[derive(Clone, Copy)]
pub(crate) enum Element<'a> {
    Single(u8),
    Enclosed(u8, &'a [u8]),
}

/// The byte of a content of one byte.
fn only_byte(content: &[u8]) -> Option<u8>
    ensures { result ≡ only_byte content.now }
{
    match content {
        [byte] => Some(*byte),
        _ => None,
    }
}

impl<'a> Element<'a> {
    /// The bytes that the element stands for.
    pub(crate) fn member(self) -> Option<ByteSet>
        ensures { option_map bytes result ≡ member (element self.entry) }
    {
        match self {
            Element::Single(byte) => Some(ByteSet::one(byte)),
            Element::Enclosed(mark, content) => {
                if mark == b':' {
                    class(content)
                } else {
                    match only_byte(content) {
                        Some(byte) => Some(ByteSet::one(byte)),
                        None => None,
                    }
                }
            }
        }
    }

    /// The byte of an element that may begin or end a range.
    fn end_point(self) -> Option<u8>
        ensures { result ≡ end_point (element self.entry) }
    {
        match self {
            Element::Single(byte) => Some(byte),
            Element::Enclosed(mark, content) => {
                if mark == b'.' {
                    only_byte(content)
                } else {
                    None
                }
            }
        }
    }

    /// Whether it is the single byte `-`.
    pub(crate) fn is_dash(self) -> bool
        ensures { result ≡ is_dash (element self.entry) }
    {
        match self {
            Element::Single(byte) => byte == b'-',
            Element::Enclosed(_, _) => false,
        }
    }

    /// The fault of an element that stands at this offset, inside a bracket, and stands for no bytes.
    pub(crate) fn fault(self, at: usize) -> SyntaxFault
        ensures { (text : List ℕ) (bracket : ℕ) (rest : List ℕ) → member (element self.entry) ≡ None →
            HasElement text bracket at self.entry rest → FaultPlace text bracket result }
    {
        let kind = match self {
            Element::Single(_) => FaultKind::BadRange,
            Element::Enclosed(mark, _) => {
                if mark == b':' {
                    FaultKind::BadClass
                } else {
                    FaultKind::BadCollating
                }
            }
        };
        SyntaxFault { kind, at }
    }

    /// The fault of the range from this element, at `start`, to the last one, at `at`, both inside a bracket: no range
    /// joins the two.
    pub(crate) fn range_fault(self, start: usize, last: Element, at: usize) -> SyntaxFault
        ensures { (text : List ℕ) (bracket : ℕ) (from rest : List ℕ) → HasElement text bracket start self.entry from →
            HasElement text bracket at last.entry rest → IsBadRange text bracket start
            → FaultPlace text bracket result }
    {
        if self.member().is_none() {
            return self.fault(start);
        }
        if self.end_point().is_some() {
            if let Element::Enclosed(mark, content) = last {
                if mark == b'.' && only_byte(content).is_none() {
                    return last.fault(at);
                }
            }
        }
        SyntaxFault {
            kind: FaultKind::BadRange,
            at: start,
        }
    }

    /// The bytes from this end point to the last one.
    pub(crate) fn range(self, last: Element) -> Option<ByteSet>
        ensures { option_map bytes result ≡
            range_of (end_point (element self.entry)) (end_point (element last.entry)) }
    {
        let low = self.end_point()?;
        let high = last.end_point()?;
        if low > high {
            return None;
        }
        Some(ByteSet::between(low, high))
    }
}

/// The offset of the first mark with a `]` from an offset on.
fn content_end(text: &[u8], mark: u8, from: usize) -> Option<usize>
    requires { from ≤ length text.now }
    ensures { EndsContent text.now mark from result }
{
    let mut at = from;
    while at + 1 < text.len() {
        if text[at] == mark && text[at + 1] == b']' {
            return Some(at);
        }
        at += 1;
    }
    None
}

/// The mark of the enclosed element that begins at an offset, if one does.
fn mark_at(text: &[u8], at: usize) -> Option<u8>
    requires { at < length text.now }
    ensures { MatchOption result (SingleAt text.now at) (λ mark. EnclosedAt text.now at mark) }
{
    if text[at] != b'[' || at + 1 == text.len() {
        return None;
    }
    let mark = text[at + 1];
    if mark == b':' || mark == b'=' || mark == b'.' {
        Some(mark)
    } else {
        None
    }
}

/// The element at an offset, and the offset after it; `None` if it has no end.
pub(crate) fn element_at(text: &[u8], at: usize) -> Option<(Element<'_>, usize)>
    requires { at < length text.now }
    ensures { FindsElement text.now at result (element_at (drop at text.now)) }
{
    match mark_at(text, at) {
        None => Some((Element::Single(text[at]), at + 1)),
        Some(mark) => {
            let end = content_end(text, mark, at + 2)?;
            Some((Element::Enclosed(mark, &text[at + 2..end]), end + 2))
        }
    }
}
