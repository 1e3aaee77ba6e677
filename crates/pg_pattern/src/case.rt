//! Sets of bytes where case is folded.
ghost use Rattle.std.specs.Prelude.{◌≡◌};
ghost use Rattle.pg_bytes.specs.ByteSets.{bytes};
ghost use Rattle.pg_pattern.specs.Patterns.{folded};

use pg_bytes::ByteSet;

/// A set, with both cases of its letters where `fold` asks for it (XCU grep, -i).
pub fn folded(set: ByteSet, fold: bool) -> ByteSet
    ensures { bytes result ≡ folded fold (bytes set) }
{
    if fold { set.close_case() } else { set }
}
