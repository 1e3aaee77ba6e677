//! Where lines stand.

/// Lines that follow one another: where the first one stands, and how many there are.
#[derive(Clone, Copy)]
pub(crate) struct LineExtent {
    pub(crate) first: Position,
    pub(crate) count: usize,
}

/// Where a line stands in its file.
#[derive(Clone, Copy)]
pub(crate) struct Position {
    /// Its number, from 1.
    pub(crate) number: u64,
    /// The offset of its first byte, from 0.
    pub(crate) offset: u64,
}
