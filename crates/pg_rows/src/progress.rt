//! What is remembered of a file's lines.
ghost use Rattle.std.specs.Prelude.{◌≡◌, ◌+◌, ◌-◌, ◌^◌, ◌<◌, ◌≤◌, true, option_map};

use crate::format::Format;
use pg_selection::Run;

/// What is remembered of the lines of a file, without their texts.
///
/// Lines are told in stretches, so that lines that aren't shown cost nothing.
#[derive(Clone, Copy, Debug, PartialEq, Eq)]
pub struct Progress {
    /// How many lines there were.
    pub(crate) number: u64,
    /// How many of them count as selected: with a limit at most so many.
    pub(crate) kept: u64,
    /// How many more lines are shown as trailing context.
    pub(crate) countdown: u64,
    /// Whether a line was shown.
    pub(crate) shown: bool,
    /// How many lines stand behind the last shown one, or behind the start of the file where none was shown.
    pub(crate) behind: u64,
    ghost few_kept: { kept ≤ number },
    ghost few_behind: { behind ≤ number },
}

impl Progress {
    ghost use Rattle.pg_rows.specs.Trail.{Trail};
    ghost use Rattle.pg_rows.specs.Enough.{trail_suffices};
    ghost use Rattle.pg_rows.specs.Progress.{IsOfTrail, Passes, KeepsLines, kept_of, TellsNone, TellsPassed, TellsKept};
    ghost use Rattle.pg_rows.specs.Progress.{TellsBlock};

    /// What is remembered of no lines.
    pub fn new() -> Progress
        ensures { TellsNone result }
    {
        Progress {
            number: 0,
            kept: 0,
            countdown: 0,
            shown: false,
            behind: 0,
        }
    }

    /// Passes `count` more lines, none of which is kept. The first of them may be shown as trailing context. With those
    /// before them they are fewer than 2^63.
    pub fn pass(self, count: u64) -> Progress
        requires { self.number + count < 2 ^ 63 }
        ensures fields { Passes self count result }
        ensures tells { TellsPassed self count result }
    {
        Progress {
            number: self.number + count,
            kept: self.kept,
            countdown: self.countdown.saturating_sub(count),
            shown: self.shown,
            behind: self.behind + count.saturating_sub(self.countdown),
        }
    }

    /// Takes `count` more lines, at least one, that are all kept. With those before them they are fewer than 2^63.
    pub fn keep(self, count: u64, format: &Format) -> Progress
        requires { self.number + count < 2 ^ 63 }
        ensures fields { KeepsLines self format.now count result }
        ensures tells { TellsKept self format.now count result }
    {
        Progress {
            number: self.number + count,
            kept: self.kept + count,
            countdown: u64::from(format.after.unwrap_or(0)),
            shown: true,
            behind: 0,
        }
    }

    /// How many more lines may be kept, where there is a limit.
    pub fn room(self, format: &Format) -> Option<u64>
        ensures { result ≡ option_map (λ limit. limit - self.kept) format.now.limit }
    {
        match format.limit {
            Some(limit) => Some(u64::from(limit).saturating_sub(self.kept)),
            None => None,
        }
    }

    /// How many of the next `count` selected lines are kept.
    pub fn keeps(self, format: &Format, count: u64) -> u64
        ensures { result ≡ kept_of format.now.limit self.kept count }
    {
        match self.room(format) {
            Some(room) => count.min(room),
            None => count,
        }
    }

    /// Whether no line behind these changes what the file gives. Parts have no context.
    pub fn suffices(self, format: &Format) -> bool
        ensures { (t : Trail) → IsOfTrail self format.now t → result ≡ trail_suffices format.now.mode format.now t }
    {
        if format.mode.settles_at_first() {
            return self.kept > 0;
        }
        let is_full = self.room(format) == Some(0);
        let is_trailed = format.mode.shows_rows() && !format.parts && self.countdown > 0;
        is_full && !is_trailed
    }

    /// Goes past a block of so many lines, by its runs of selected lines. It costs a step for each run and none for a
    /// line, and stops at the first run that has no line within the limit. With those before them the lines are fewer
    /// than 2^63.
    pub fn after(self, format: &Format, runs: &[Run], lines: u64) -> Progress
        requires { self.number + lines < 2 ^ 63 }
        ensures number { result.number ≡ self.number + lines }
        ensures tells { TellsBlock self format.now runs.now lines result }
    {
        let mut progress = self;
        let mut left = lines;
        for run in runs {
            // The runs of a block stand in order and within its lines, so neither bound changes a number.
            let gap = (run.first as u64).saturating_sub(lines - left).min(left);
            let count = progress.keeps(format, run.count as u64).min(left - gap);
            if count == 0 {
                return progress.pass(left);
            }
            progress = progress.pass(gap).keep(count, format);
            left -= gap + count;
        }
        progress.pass(left)
    }
}
