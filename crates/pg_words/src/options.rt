//! The options for the kind of the patterns and for how rows look.
ghost use Rattle.std.specs.Prelude.{◌≡◌};
ghost use Rattle.pg_rows.specs.Output.{HasRoom};

use pg_grammar::Kind;
use pg_rows::{Format, Mode, Separator};

/// When rows and counts begin with the file's name.
#[derive(Clone, Copy)]
pub enum Naming {
    /// With -H: always.
    Always,
    /// With -h: never.
    Never,
    /// With neither: where several files are searched, or a directory.
    BySeveral,
}

/// What -d asks for.
#[derive(Clone, Copy)]
pub enum DirectoryAction {
    /// Directories are read, which fails.
    Read,
    /// They are left out.
    Skip,
    /// They are visited, as with -r and -R.
    Recurse,
}

impl DirectoryAction {
    ghost use Rattle.std.specs.Prelude.{Some};
    ghost use Rattle.pg_words.specs.Asks.{is_recursive, skips_directories};

    /// Whether directories are visited.
    pub(crate) fn is_recursive(action: Option<DirectoryAction>) -> bool
        ensures { result ≡ is_recursive action }
    {
        match action {
            None => false,
            Some(DirectoryAction::Read) => false,
            Some(DirectoryAction::Skip) => false,
            Some(DirectoryAction::Recurse) => true,
        }
    }

    /// Whether they are left out.
    pub(crate) fn skips(action: Option<DirectoryAction>) -> bool
        ensures { result ≡ skips_directories action }
    {
        match action {
            None => false,
            Some(DirectoryAction::Read) => false,
            Some(DirectoryAction::Skip) => true,
            Some(DirectoryAction::Recurse) => false,
        }
    }
}

/// When rows are colored.
#[derive(Clone, Copy)]
pub enum Coloring {
    /// Without --color, or with --color=never: never.
    Never,
    /// With --color=always: wherever they go.
    Always,
    /// With --color=auto, or --color alone: where standard output is a terminal.
    OnTerminal,
}

/// What -D asks for.
#[derive(Clone, Copy)]
pub enum DeviceAction {
    /// Devices, FIFOs and sockets are read as files are.
    Read,
    /// They are left out.
    Skip,
}

/// An option that says what is written of each file: its long name, and the mode that it asks for.
#[derive(Clone, Copy)]
pub(crate) struct ModeOption(pub(crate) &'static str, pub(crate) Mode);

/// Those options, which exclude one another.
pub(crate) static MODES: [ModeOption; 4] = [
    ModeOption("count", Mode::Count),
    ModeOption("files-with-matches", Mode::List),
    ModeOption("files-without-match", Mode::ListOthers),
    ModeOption("quiet", Mode::Quiet),
];

/// What is given of the options that say what is written of each file.
#[derive(Clone, Copy)]
pub enum GivenModes {
    /// None of them: lines have rows.
    Unset,
    /// One of them.
    One(Mode),
    /// More than one, which is a fault.
    Several,
}

impl GivenModes {
    ghost use Rattle.pg_words.specs.Options.{are_several, is_some_mode, mode_by};

    /// What is written, where not several are given.
    fn mode(self) -> Mode
        ensures { result ≡ mode_by self }
    {
        match self {
            GivenModes::One(mode) => mode,
            GivenModes::Unset | GivenModes::Several => Mode::Rows,
        }
    }

    /// Whether at least one is given.
    fn is_some(self) -> bool
        ensures { result ≡ is_some_mode self }
    {
        match self {
            GivenModes::One(_) | GivenModes::Several => true,
            GivenModes::Unset => false,
        }
    }

    /// Whether more than one is given.
    pub(crate) fn are_several(self) -> bool
        ensures { result ≡ are_several self }
    {
        match self {
            GivenModes::Several => true,
            GivenModes::Unset | GivenModes::One(_) => false,
        }
    }
}

/// The options that exclude one another, want operands or decide how rows look, as they are given.
#[derive(Clone, Copy)]
pub struct Options {
    /// -E: extended expressions.
    pub extended: bool,
    /// -F: fixed strings.
    pub fixed: bool,
    /// -P: Perl's expressions.
    pub perl: bool,
    /// --binary-files with another type than `text`.
    pub binary: bool,
    /// -d with another action than `read`, `skip` and `recurse`.
    pub unknown_directories: bool,
    /// -D with another action than `read` and `skip`.
    pub unknown_devices: bool,
    /// --color with another word than `always`, `never`, `auto` and those that say the same.
    pub unknown_coloring: bool,
    /// --group-separator with a text of more than 64 bytes.
    pub long_separator: bool,
    /// -v: the lines without a match.
    pub invert: bool,
    /// -i, unless --no-ignore-case follows: upper and lower case don't differ.
    pub fold: bool,
    /// -o: the matched parts of lines.
    pub parts: bool,
    /// The options that say what is written of each file.
    pub modes: GivenModes,
    /// -n: the lines' numbers.
    pub numbers: bool,
    /// -Z: a NUL behind names.
    pub null: bool,
    /// -T: a tab before the text of rows that have something before it.
    pub tabs: bool,
    /// -b: the offsets of rows in their files.
    pub offsets: bool,
    /// --group-separator TEXT, or two hyphens, unless --no-group-separator follows: what parts groups of lines that
    /// aren't adjacent.
    pub separator: Option<Separator>,
    /// -H: the file's name before each row.
    pub names: bool,
    /// -h: no names before rows.
    pub no_names: bool,
    /// -r, -R, or -d recurse: directories are visited.
    pub recursive: bool,
    /// -m N: N selected lines at most; 0 counts as 1.
    pub limit: Option<u32>,
    /// -A N: the N lines behind each selected line.
    pub after: Option<u32>,
    /// -B N: the N lines before it.
    pub before: Option<u16>,
    /// -C N: both, where the other option isn't given.
    pub around: Option<u16>,
}

impl Options {
    ghost use Rattle.pg_words.specs.Options.{format_of_options, has_context, has_excluded_by_parts, kind_of_options};
    ghost use Rattle.pg_words.specs.Options.{naming_of};

    /// The syntax of the patterns, where not both -E and -F are given.
    pub(crate) fn kind(&self) -> Kind
        ensures { result ≡ kind_of_options self.now }
    {
        if self.extended {
            Kind::Extended
        } else if self.fixed {
            Kind::Fixed
        } else {
            Kind::Basic
        }
    }

    /// How rows look, where none of the options excludes another. They have names with -H alone, and no colors.
    pub(crate) fn format(&self) -> Format
        ensures exact { result ≡ format_of_options self.now }
        ensures some_limit { HasRoom result }
    {
        Format {
            names: self.names && !self.no_names,
            null: self.null,
            tabs: self.tabs,
            parts: self.parts,
            colored: false,
            separator: self.separator,
            numbers: self.numbers,
            offsets: self.offsets,
            mode: self.modes.mode(),
            limit: self.limit.map(|lines| lines.max(1)),
            before: self.before.or(self.around),
            after: self.after.or(self.around.map(u32::from)),
        }
    }

    /// When names are written, where not both -H and -h are given.
    pub(crate) fn naming(&self) -> Naming
        ensures { result ≡ naming_of self.now }
    {
        if self.no_names {
            Naming::Never
        } else if self.names {
            Naming::Always
        } else {
            Naming::BySeveral
        }
    }

    /// Whether one of -A, -B and -C is given.
    fn has_context(&self) -> bool
        ensures { result ≡ has_context self.now }
    {
        self.after.is_some() || self.before.is_some() || self.around.is_some()
    }

    /// Whether an option is given that -o excludes.
    pub(crate) fn has_excluded_by_parts(&self) -> bool
        ensures { result ≡ has_excluded_by_parts self.now }
    {
        self.invert || self.modes.is_some() || self.has_context()
    }
}
