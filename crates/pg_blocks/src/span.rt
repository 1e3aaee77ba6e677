//! A part of a block's bytes.
ghost use Rattle.std.specs.Prelude.{◌≡◌, ◌≤◌, length, slice_range};

/// The bytes from `start` up to `end`, which is not among them, as offsets from 0.
#[derive(Clone, Copy, Debug, PartialEq, Eq)]
pub struct Span {
    pub start: usize,
    pub end: usize,
}

impl Span {
    /// This part of some bytes. It doesn't end before it starts, nor behind them.
    pub fn of(self, bytes: &[u8]) -> &[u8]
        requires ordered { self.start ≤ self.end }
        requires within { self.end ≤ length bytes.now }
        ensures { result.now ≡ slice_range bytes.now self.start self.end }
    {
        &bytes[self.start..self.end]
    }
}
