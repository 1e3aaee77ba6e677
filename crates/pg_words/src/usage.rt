//! Words that `clap` accepts and that exclude one another or ask for nothing.
ghost use Rattle.std.specs.Prelude.{◌≡◌, ◌<◌, ◌+◌, OnOk, length};
ghost use Rattle.std.specs.Result.{result_err};
ghost use Rattle.pg_words.specs.Usage.{usage_fault, usage_text};

use crate::options::Options;

/// What is wrong with words that are the command's. Of several faults the one that stands first here
/// is told.
#[derive(Clone, Copy, Debug)]
pub enum UsageFault {
    /// -P is given.
    PerlExpressions,
    /// --binary-files is given with another type than `text`.
    OtherThanText,
    /// -d is given with another action than `read`, `skip` and `recurse`.
    UnknownDirectories,
    /// -D is given with another action than `read` and `skip`.
    UnknownDevices,
    /// --color is given with another word than `always`, `never`, `auto` and those that say the same.
    UnknownColoring,
    /// --group-separator is given with a text of more than 64 bytes.
    LongSeparator,
    /// More than one of -c, -l, -L and -q is given.
    SeveralModes,
    /// Both -E and -F are given.
    ExtendedAndFixed,
    /// Both -H and -h are given.
    NamesAndNoNames,
    /// Beside -o one of -v, -c, -l, -L, -q, -A, -B and -C is given.
    ExcludedByParts,
    /// There is no -e, no -f and no operand.
    NoPattern,
    /// A recursive search (-r, -R or -d recurse) has no FILE.
    NoOperand,
}

impl UsageFault {
    /// What its line on standard error says.
    pub fn text(self) -> &'static str
        ensures { result.now ≡ usage_text self }
    {
        match self {
            UsageFault::PerlExpressions => {
                "-P is not supported: use -E, which has no lookaround, lazy repetition or back reference"
            }
            UsageFault::OtherThanText => "--binary-files may only be text, and can be left out",
            UsageFault::UnknownDirectories => "-d may only be read, skip or recurse",
            UsageFault::UnknownDevices => "-D may only be read or skip",
            UsageFault::UnknownColoring => "--color may only be always, never or auto",
            UsageFault::LongSeparator => "the text of --group-separator has more than 64 bytes",
            UsageFault::SeveralModes => "only one of -c, -l, -L and -q may be given",
            UsageFault::ExtendedAndFixed => "only one of -E and -F may be given",
            UsageFault::NamesAndNoNames => "only one of -H and -h may be given",
            UsageFault::ExcludedByParts => "-o excludes -v, -c, -l, -L, -q, -A, -B and -C",
            UsageFault::NoPattern => {
                "no pattern given\n\nUsage: pargrep [OPTION ...] PATTERN [FILE ...]\n\n\
                 For more information, try '--help'."
            }
            UsageFault::NoOperand => "-r needs an operand",
        }
    }
}

/// Judges words that `clap` accepted, by the options, the texts and the files of patterns, and the FILE
/// operands.
///
/// # Errors
///
/// The first fault that there is, in the order of [`UsageFault`]: `NoPattern` where there is neither a
/// text nor a file of patterns, `NoOperand` where a recursive search has no FILE, and no other fault.
pub fn check_usage(
    options: &Options,
    texts: &[&str],
    pattern_files: &[&str],
    files: &[&str],
) -> Result<(), UsageFault>
    ensures exact { result_err result
        ≡ usage_fault options.now (length texts.now + length pattern_files.now) (length files.now) }
    ensures some_pattern { OnOk result (0 < length texts.now + length pattern_files.now) }
{
    if options.perl {
        return Err(UsageFault::PerlExpressions);
    }
    if options.binary {
        return Err(UsageFault::OtherThanText);
    }
    if options.unknown_directories {
        return Err(UsageFault::UnknownDirectories);
    }
    if options.unknown_devices {
        return Err(UsageFault::UnknownDevices);
    }
    if options.unknown_coloring {
        return Err(UsageFault::UnknownColoring);
    }
    if options.long_separator {
        return Err(UsageFault::LongSeparator);
    }
    if options.modes.are_several() {
        return Err(UsageFault::SeveralModes);
    }
    if options.extended && options.fixed {
        return Err(UsageFault::ExtendedAndFixed);
    }
    if options.names && options.no_names {
        return Err(UsageFault::NamesAndNoNames);
    }
    if options.parts && options.has_excluded_by_parts() {
        return Err(UsageFault::ExcludedByParts);
    }
    if texts.is_empty() && pattern_files.is_empty() {
        return Err(UsageFault::NoPattern);
    }
    if options.recursive && files.is_empty() {
        return Err(UsageFault::NoOperand);
    }
    Ok(())
}
