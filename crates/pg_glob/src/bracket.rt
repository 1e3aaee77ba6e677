//! Bracket expressions in globs (XCU 2.13.1, XBD 9.3.5).
ghost use Rattle.std.specs.Prelude.{◌≡◌, ◌<◌, ◌≤◌, ◌+◌, IfSome, IsTrue, length, option_map, slice_index};
ghost use Rattle.pg_glob.specs.Brackets.{bracket_at, class_at, class_named, is_enclosed, count_of_letters, member_at};
ghost use Rattle.pg_glob.specs.Brackets.{members_at};
ghost use Rattle.pg_glob.specs.Brackets.{range_at, range_end, single};
ghost use Rattle.pg_glob.specs.Views.{set_and_length, byte_of};

use pg_bytes::{ByteSet, class};

/// A byte that may begin or end a range, and how many bytes write it.
#[derive(Clone, Copy)]
pub(crate) struct WrittenByte {
    pub byte: u8,
    pub length: usize,
}

/// A set of bytes, and how many bytes write it.
#[derive(Clone, Copy)]
pub(crate) struct WrittenSet {
    pub set: ByteSet,
    pub length: usize,
}

/// The byte at a place, or 0 beyond the end.
fn byte_at(text: &[u8], at: usize) -> u8
    ensures value { result ≡ slice_index text.now at }
    ensures within { 0 < result → at < length text.now }
{
    text.get(at).copied().unwrap_or(0)
}

/// Whether a text begins with one byte in `[.` and `.]`, or in `[=` and `=]`, told by the mark.
#[tactic(auto, unfolding(crate::specs::Brackets::is_enclosed))]
fn is_enclosed(mark: u8, text: &[u8]) -> bool
    ensures value { result ≡ is_enclosed mark text.now }
    ensures within { IsTrue result → 5 ≤ length text.now }
{
    (byte_at(text, 0) == b'[' && byte_at(text, 1) == mark)
        && (byte_at(text, 3) == mark && byte_at(text, 4) == b']')
}

/// The byte that a text begins with: behind a backslash, in `[.` and `.]`, or as it stands.
#[tactic(auto, unfolding(crate::specs::Brackets::single))]
fn single(text: &[u8]) -> Option<WrittenByte>
    ensures reads { option_map byte_of result ≡ single text.now }
    ensures within { IfSome result (λ s. (1 ≤ s.length) × (s.length ≤ length text.now)) }
{
    let (first, rest) = text.split_first()?;
    if *first == b'\\' {
        let (byte, _) = rest.split_first()?;
        return Some(WrittenByte {
            byte: *byte,
            length: 2,
        });
    }
    if is_enclosed(b'.', text) {
        return Some(WrittenByte {
            byte: byte_at(text, 2),
            length: 5,
        });
    }
    Some(WrittenByte {
        byte: *first,
        length: 1,
    })
}

/// How many lower case letters a text begins with.
fn letters(text: &[u8]) -> usize
    ensures count { result ≡ count_of_letters text.now }
    ensures within { result ≤ length text.now }
{
    let mut count = 0;
    let mut left = text;
    while let Some((byte, rest)) = left.split_first() {
        if *byte < b'a' || b'z' < *byte {
            return count;
        }
        count += 1;
        left = rest;
    }
    count
}

/// The class whose name of so many bytes a text begins with, if `:]` follows it.
fn class_named(text: &[u8], count: usize) -> Option<WrittenSet>
    requires { count ≤ length text.now }
    ensures reads { option_map set_and_length result ≡ class_named text.now count }
    ensures within { IfSome result (λ m. (1 ≤ m.length) × (m.length ≤ length text.now + 2)) }
{
    if byte_at(text, count) != b':' || byte_at(text, count + 1) != b']' {
        return None;
    }
    let set = class(&text[..count]).unwrap_or(ByteSet::empty());
    Some(WrittenSet {
        set,
        length: count + 4,
    })
}

/// The class that a text begins with.
#[tactic(auto, unfolding(crate::specs::Brackets::class_at))]
fn class_at(text: &[u8]) -> Option<WrittenSet>
    ensures reads { option_map set_and_length result ≡ class_at text.now }
    ensures within { IfSome result (λ m. (1 ≤ m.length) × (m.length ≤ length text.now)) }
{
    let (first, behind) = text.split_first()?;
    let (second, rest) = behind.split_first()?;
    if *first == b'[' && *second == b':' {
        class_named(rest, letters(rest))
    } else {
        None
    }
}

/// The other end of a range that goes on from a text.
#[tactic(auto, unfolding(crate::specs::Brackets::range_end))]
fn range_end(text: &[u8]) -> Option<WrittenByte>
    ensures reads { option_map byte_of result ≡ range_end text.now }
    ensures within { IfSome result (λ s. s.length + 1 ≤ length text.now) }
{
    let (first, rest) = text.split_first()?;
    if *first == b'-' && byte_at(rest, 0) != b']' {
        single(rest)
    } else {
        None
    }
}

/// The byte or the range that a text begins with.
fn range_at(text: &[u8]) -> Option<WrittenSet>
    ensures reads { option_map set_and_length result ≡ range_at text.now }
    ensures within { IfSome result (λ m. (1 ≤ m.length) × (m.length ≤ length text.now)) }
{
    let low = single(text)?;
    match range_end(&text[low.length..]) {
        Some(high) => Some(WrittenSet {
            set: ByteSet::between(low.byte, high.byte),
            length: low.length + 1 + high.length,
        }),
        None => Some(WrittenSet {
            set: ByteSet::one(low.byte),
            length: low.length,
        }),
    }
}

/// What a text begins with that stands for members of a bracket.
#[tactic(auto, unfolding(crate::specs::Brackets::member_at))]
fn member(text: &[u8]) -> Option<WrittenSet>
    ensures reads { option_map set_and_length result ≡ member_at text.now }
    ensures within { IfSome result (λ m. (1 ≤ m.length) × (m.length ≤ length text.now)) }
{
    if is_enclosed(b'=', text) {
        return Some(WrittenSet {
            set: ByteSet::one(byte_at(text, 2)),
            length: 5,
        });
    }
    match class_at(text) {
        Some(class) => Some(class),
        None => range_at(text),
    }
}

/// The members of a bracket up to its `]`.
#[tactic(auto, unfolding(crate::specs::Brackets::members_at))]
fn members(text: &[u8]) -> Option<WrittenSet>
    ensures reads { option_map set_and_length result ≡ members_at text.now }
    ensures within { IfSome result (λ m. m.length ≤ length text.now) }
{
    let mut set = ByteSet::empty();
    let mut length = 0;
    let mut left = text;
    while let Some((byte, _)) = left.split_first() {
        if *byte == b']' && length > 0 {
            return Some(WrittenSet {
                set,
                length: length + 1,
            });
        }
        let next = member(left)?;
        set = set.union(next.set);
        length += next.length;
        left = &left[next.length..];
    }
    None
}

/// The bracket whose `[` a text follows, and how many bytes of the text write it. `None` where it has no end.
#[tactic(auto, unfolding(crate::specs::Brackets::bracket_at))]
pub(crate) fn bracket(text: &[u8]) -> Option<WrittenSet>
    ensures reads { option_map set_and_length result ≡ bracket_at text.now }
    ensures within { IfSome result (λ m. m.length ≤ length text.now) }
{
    let (first, rest) = text.split_first()?;
    if *first == b'!' || *first == b'^' {
        let inside = members(rest)?;
        return Some(WrittenSet {
            set: inside.set.complement(),
            length: inside.length + 1,
        });
    }
    members(text)
}
