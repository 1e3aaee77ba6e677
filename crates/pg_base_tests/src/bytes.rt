//! Sets of bytes.
use pg_bytes::ByteSet;

/// A set with `a`, 0, 63, 64, and 250 to 255.
fn some_set() -> ByteSet {
    ByteSet::one(b'a')
        .union(ByteSet::one(0))
        .union(ByteSet::between(250, 255))
        .union(ByteSet::between(63, 64))
        .union(ByteSet::between(9, 8))
}

/// Whether a set has these bytes and no others.
fn has_only(set: &ByteSet, bytes: &[u8]) -> bool {
    for byte in 0..=255u8 {
        if set.contains(byte) != bytes.contains(&byte) {
            return false;
        }
    }
    true
}

#[test]
fn sets_have_their_bytes(rt: HostRuntime) {
    let set = some_set();
    let closed = set.close_case();
    assert!(rt;
        has_only(&set, &[0, 63, 64, 97, 250, 251, 252, 253, 254, 255])
            && has_only(&closed, &[0, 63, 64, 65, 97, 250, 251, 252, 253, 254, 255])
            && set != closed
            && set.union(set.complement()) == ByteSet::all()
            && set.complement().complement() == set
    );
}
