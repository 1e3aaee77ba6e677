//! How rows look.
ghost use Rattle.std.specs.Prelude.{◌≡◌};
ghost use Rattle.pg_rows.specs.Modes.{shows_rows, settles_at_first, is_quiet, is_named, row_at_end};
ghost use Rattle.pg_rows.specs.Output.{has_prefix, has_separators, name_mark};
ghost use Rattle.pg_rows.specs.Separator.{text_between};

use crate::separator::Separator;

/// What is written of each file.
#[derive(Clone, Copy, Debug, PartialEq, Eq)]
pub enum Mode {
    /// A row for each line that is shown.
    Rows,
    /// -c: one row with the number of selected lines.
    Count,
    /// -l: the file's name, where a line is selected.
    List,
    /// -L: the file's name, where no line is selected.
    ListOthers,
    /// -q: nothing.
    Quiet,
}

/// The row that a file's end adds.
#[derive(Clone, Copy)]
pub(crate) enum EndRow {
    /// No row.
    None,
    /// The number of selected lines.
    Count,
    /// The file's name, where the mode lists the file.
    Name,
}

impl Mode {
    /// Whether lines, or the matched parts of lines, have rows.
    pub fn shows_rows(self) -> bool
        ensures { result ≡ shows_rows self }
    {
        match self {
            Mode::Rows => true,
            Mode::Count | Mode::List | Mode::ListOthers | Mode::Quiet => false,
        }
    }

    /// Whether the first selected line of a file settles what the file gives, so that it isn't read further.
    pub fn settles_at_first(self) -> bool
        ensures { result ≡ settles_at_first self }
    {
        match self {
            Mode::List | Mode::ListOthers | Mode::Quiet => true,
            Mode::Rows | Mode::Count => false,
        }
    }

    /// Whether nothing is written: the status tells.
    pub fn is_quiet(self) -> bool
        ensures { result ≡ is_quiet self }
    {
        match self {
            Mode::Quiet => true,
            Mode::Rows | Mode::Count | Mode::List | Mode::ListOthers => false,
        }
    }

    /// Whether the row of a file's name is written, by whether a line of the file is selected, in a mode whose files
    /// end in such a row.
    pub(crate) fn is_named(self, selected: bool) -> bool
        ensures { result ≡ is_named self selected }
    {
        match self {
            Mode::ListOthers => !selected,
            Mode::Rows | Mode::Count | Mode::List | Mode::Quiet => selected,
        }
    }

    /// Which row a file's end adds.
    pub(crate) fn row_at_end(self) -> EndRow
        ensures { result ≡ row_at_end self }
    {
        match self {
            Mode::Rows | Mode::Quiet => EndRow::None,
            Mode::Count => EndRow::Count,
            Mode::List | Mode::ListOthers => EndRow::Name,
        }
    }
}

/// How rows look, and which lines have one.
#[derive(Clone, Copy, Debug, PartialEq, Eq)]
pub struct Format {
    /// Each row begins with its file's name.
    pub names: bool,
    /// -Z: a NUL follows each name, in place of the mark or the newline behind it.
    pub null: bool,
    /// -n: each row has its line's number, from 1.
    pub numbers: bool,
    /// -b: each row has the offset of its first byte in its file, from 0: of its line, or with -o of its part.
    pub offsets: bool,
    /// -T: a tab stands before a row's text, where that isn't empty and something else stands before it.
    pub tabs: bool,
    /// What is written of each file: rows of lines, a count, its name, or nothing.
    pub mode: Mode,
    /// -o: with `Mode::Rows` the matched parts of the lines that are kept have rows, and not the lines.
    pub parts: bool,
    /// --color: names, numbers, marks and the matched parts of kept lines stand in colors.
    pub colored: bool,
    /// -m: how many selected lines of each file count at most, which isn't 0.
    pub limit: Option<u32>,
    /// -B: how many lines before a selected line are shown as its context.
    pub before: Option<u16>,
    /// -A: how many lines after a selected line are shown as its context.
    pub after: Option<u32>,
    /// --group-separator: where there is context, a row with this text stands between groups of lines that aren't
    /// adjacent, and with `None`, which is --no-group-separator, nothing.
    pub separator: Option<Separator>,
}

impl Format {
    /// What follows a name: a NUL where that is asked for, else this mark.
    pub(crate) fn name_mark(&self, mark: u8) -> u8
        ensures { result ≡ name_mark self.now mark }
    {
        if self.null { 0 } else { mark }
    }

    /// Whether groups of lines that aren't adjacent are parted.
    pub(crate) fn has_separators(&self) -> bool
        ensures { result ≡ has_separators self.now }
    {
        self.separator.is_some() && (self.before.is_some() || self.after.is_some())
    }

    /// The text between groups of lines: no byte where they aren't parted.
    pub(crate) fn text_between(&self) -> &[u8]
        ensures { result.now ≡ text_between self.now.separator }
    {
        match &self.separator {
            Some(separator) => separator.as_slice(),
            None => b"",
        }
    }

    /// Whether a row has something before its text.
    pub(crate) fn has_prefix(&self) -> bool
        ensures { result ≡ has_prefix self.now }
    {
        self.names || self.numbers || self.offsets
    }
}
