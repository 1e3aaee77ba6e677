//! The states of an automaton.
ghost use Rattle.std.specs.Prelude.{◌≡◌, ◌↔◌, IsTrue};

use pg_bytes::ByteSet;

/// What a state does. The numbers are those of the states that it leads to.
#[derive(Clone, Copy, PartialEq, Eq)]
pub enum State {
    /// Leads nowhere.
    Fail,
    /// A match ends here.
    Accept,
    /// Goes on without a byte.
    Jump(u32),
    /// Reads one byte of the set.
    Read(ByteSet, u32),
    /// Goes on where the line begins.
    AtBegin(u32),
    /// Goes on where the line ends.
    AtEnd(u32),
    /// Goes on to both without a byte.
    Split(u32, u32),
}

/// The number of the one state that is `Accept`.
pub(crate) const ACCEPT: u32 = 0;

/// Whether two tables are the same, state by state.
pub(crate) fn is_same_table(one: &[State], other: &[State]) -> bool
    ensures { IsTrue result ↔ (one.now ≡ other.now) }
{
    one == other
}
