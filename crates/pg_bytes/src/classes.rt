//! The character classes of the C locale.
ghost use Rattle.std.specs.Prelude.{◌≡◌, None, codes, option_map};
ghost use Rattle.pg_bytes.specs.Sets.{between, union, one};
ghost use Rattle.pg_bytes.specs.Classes.{class, class_or, alpha, digit, alnum, graph, print, punct, xdigit};
ghost use Rattle.pg_bytes.specs.Classes.{blank, space, cntrl};
ghost use Rattle.pg_bytes.specs.ByteSets.{bytes};

use crate::byte_set::ByteSet;

/// The letters.
fn alpha() -> ByteSet
    ensures { bytes result ≡ alpha }
{
    ByteSet::between(b'A', b'Z').union(ByteSet::between(b'a', b'z'))
}

/// The letters and digits.
fn alnum() -> ByteSet
    ensures { bytes result ≡ alnum }
{
    alpha().union(ByteSet::between(b'0', b'9'))
}

/// The hexadecimal digits.
fn xdigit() -> ByteSet
    ensures { bytes result ≡ xdigit }
{
    let letters = ByteSet::between(b'A', b'F').union(ByteSet::between(b'a', b'f'));
    ByteSet::between(b'0', b'9').union(letters)
}

/// The bytes with a glyph that are neither letters nor digits.
fn punct() -> ByteSet
    ensures { bytes result ≡ punct }
{
    let other = ByteSet::between(b'!', b'~').complement();
    other.union(alnum()).complement()
}

/// Tab and space.
fn blank() -> ByteSet
    ensures { bytes result ≡ blank }
{
    ByteSet::one(b'\t').union(ByteSet::one(b' '))
}

/// Space, and the bytes from tab to carriage return.
fn space() -> ByteSet
    ensures { bytes result ≡ space }
{
    ByteSet::between(9, 13).union(ByteSet::one(b' '))
}

/// The control characters.
fn cntrl() -> ByteSet
    ensures { bytes result ≡ cntrl }
{
    ByteSet::between(0, 31).union(ByteSet::one(127))
}

/// The class of a name where it isn't one of letters and digits alone: `blank`, `space`, `cntrl`, `graph`, `print` or
/// `punct`. `None` for every other name.
fn class_beyond_alnum(name: &[u8]) -> Option<ByteSet>
    ensures { option_map bytes result ≡
        class_or name.now (codes "blank") blank
        (class_or name.now (codes "space") space
        (class_or name.now (codes "cntrl") cntrl
        (class_or name.now (codes "graph") graph
        (class_or name.now (codes "print") print
        (class_or name.now (codes "punct") punct None))))) }
{
    if name == b"blank".as_slice() {
        Some(blank())
    } else if name == b"space".as_slice() {
        Some(space())
    } else if name == b"cntrl".as_slice() {
        Some(cntrl())
    } else if name == b"graph".as_slice() {
        Some(ByteSet::between(b'!', b'~'))
    } else if name == b"print".as_slice() {
        Some(ByteSet::between(b' ', b'~'))
    } else if name == b"punct".as_slice() {
        Some(punct())
    } else {
        None
    }
}

/// The character class of a name in the C locale (XBD 7.3.1, 9.3.5): `upper`, `lower`, `alpha`,
/// `digit`, `alnum`, `xdigit`, `blank`, `space`, `cntrl`, `graph`, `print` or `punct`. `None` for
/// every other name; names are compared byte for byte.
pub fn class(name: &[u8]) -> Option<ByteSet>
    ensures { option_map bytes result ≡ class name.now }
{
    if name == b"upper".as_slice() {
        Some(ByteSet::between(b'A', b'Z'))
    } else if name == b"lower".as_slice() {
        Some(ByteSet::between(b'a', b'z'))
    } else if name == b"alpha".as_slice() {
        Some(alpha())
    } else if name == b"digit".as_slice() {
        Some(ByteSet::between(b'0', b'9'))
    } else if name == b"alnum".as_slice() {
        Some(alnum())
    } else if name == b"xdigit".as_slice() {
        Some(xdigit())
    } else {
        class_beyond_alnum(name)
    }
}
