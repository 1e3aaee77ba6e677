//! How far the rows of a plan could be written.
ghost use Rattle.std.specs.Prelude.{◌≡◌};

use pg_rows::{Format, Progress};

/// How far the rows could be written by the results that have come.
#[derive(Clone, Copy)]
pub(crate) struct Lookahead {
    /// How many of the blocks that wait would be handed out.
    pub(crate) blocks: usize,
    /// How many of the files that wait would be opened.
    pub(crate) files: usize,
    /// A file would be open.
    pub(crate) inside: bool,
    /// What would be remembered of its lines.
    pub(crate) progress: Progress,
    /// A line of some file is selected.
    pub(crate) selected: bool,
}

impl Lookahead {
    ghost use Rattle.pg_rows.specs.Progress.{IsOfTrail};
    ghost use Rattle.pg_rows.specs.Trail.{Trail};
    ghost use Rattle.pg_seq.specs.Ahead.{is_enough_by};

    /// Whether enough was read.
    pub(crate) fn is_enough(self, format: &Format) -> bool
        ensures { (t : Trail) → IsOfTrail self.progress format.now t → result ≡ is_enough_by format.now self t }
    {
        if format.mode.is_quiet() {
            self.selected
        } else {
            self.inside && self.progress.suffices(format)
        }
    }
}
