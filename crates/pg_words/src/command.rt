//! The options as `clap` knows them.
ghost use Rattle.std.specs.Prelude.{◌≡◌, IfOk, true, false, is_some, map, not, option_map, []};
ghost use Rattle.std.specs.List.{list_all, list_any};
ghost use Rattle.clap.specs.Words.{app_of, rule_of};
ghost use Rattle.pg_words.specs.App.{action_behind, bare_app, has_begun_name, has_letter, has_name, has_value_behind};
ghost use Rattle.pg_words.specs.App.{named_rule, opts_of, our_app, parser_behind, rule_for};
ghost use Rattle.pg_words.specs.Joined.{takes_value};
ghost use Rattle.pg_words.specs.Line.{by_letter, by_name, table};
ghost use Rattle.pg_words.specs.Spelled.{begins, is_flag, names_begun, only_one};

use clap::builder::ValueParser;
use clap::{Arg, ArgAction, Command};
use std::alloc::{AllocError, Global};

/// The largest number of workers.
pub const MAX_WORKERS: u32 = 64;
/// The largest block size: 2^24 bytes.
pub const MAX_BLOCK: u32 = 16_777_216;
/// The largest number of blocks in a round.
pub const MAX_ROUND: u32 = 1_024;
/// The most lines before a selected one.
const MAX_BEFORE: u32 = 65_535;

/// The value that an option takes.
#[derive(Clone, Copy)]
pub(crate) enum OptionValue {
    /// None.
    Nothing,
    /// A text, which faults call so. Texts collect.
    Text(&'static str),
    /// A number from the first to the second one. The last number counts.
    Number(u32, u32),
    /// The operand itself. Operands collect.
    Itself,
}

/// What a value is to `clap`: its name in faults, what a use does, and what it has to be. The name has no effect where
/// there is no value.
#[derive(Clone, Copy)]
struct Reading {
    name: &'static str,
    action: ArgAction,
    parser: ValueParser<'static>,
}

/// What an option goes by.
#[derive(Clone, Copy)]
pub(crate) enum Names {
    /// A letter and the long name, and further long names.
    Letter(char, &'static [&'static str]),
    /// The long name, and further ones.
    Long(&'static [&'static str]),
    /// Its place, as an operand.
    Place,
}

/// An option: what it goes by, its long name, and its value.
#[derive(Clone, Copy)]
pub(crate) struct OptionRow(Names, &'static str, OptionValue);

/// The options, and the operands: PATTERN, where neither -e nor -f is given, and each FILE. Of names that are equally
/// close to a wrong one `clap` proposes the last. -G is read by nobody: it asks for what is taken without -E and -F,
/// and has no effect beside them. Nor are -a and -U, for every file is text, nor -r, which is spelled out as -d; -R
/// stands beside its -d. A --color without a value is spelled out with one.
/// --always-spread serves tests alone, so that neither --help nor the manual page names it. -P is known to be refused
/// with what to do instead.
static OPTIONS: [OptionRow; 51] = [
    OptionRow(
        Names::Letter('q', &["silent"]),
        "quiet",
        OptionValue::Nothing,
    ),
    OptionRow(
        Names::Letter('E', &[]),
        "extended-regexp",
        OptionValue::Nothing,
    ),
    OptionRow(
        Names::Letter('F', &[]),
        "fixed-strings",
        OptionValue::Nothing,
    ),
    OptionRow(
        Names::Letter('G', &[]),
        "basic-regexp",
        OptionValue::Nothing,
    ),
    OptionRow(Names::Letter('P', &[]), "perl-regexp", OptionValue::Nothing),
    OptionRow(Names::Letter('i', &[]), "ignore-case", OptionValue::Nothing),
    OptionRow(Names::Long(&[]), "no-ignore-case", OptionValue::Nothing),
    OptionRow(
        Names::Letter('v', &[]),
        "invert-match",
        OptionValue::Nothing,
    ),
    OptionRow(Names::Letter('w', &[]), "word-regexp", OptionValue::Nothing),
    OptionRow(Names::Letter('x', &[]), "line-regexp", OptionValue::Nothing),
    OptionRow(Names::Letter('z', &[]), "null-data", OptionValue::Nothing),
    OptionRow(Names::Letter('e', &[]), "regexp", OptionValue::Text("TEXT")),
    OptionRow(Names::Letter('f', &[]), "file", OptionValue::Text("FILE")),
    OptionRow(
        Names::Letter('o', &[]),
        "only-matching",
        OptionValue::Nothing,
    ),
    OptionRow(Names::Letter('c', &[]), "count", OptionValue::Nothing),
    OptionRow(
        Names::Letter('l', &[]),
        "files-with-matches",
        OptionValue::Nothing,
    ),
    OptionRow(
        Names::Letter('L', &[]),
        "files-without-match",
        OptionValue::Nothing,
    ),
    OptionRow(Names::Letter('Z', &[]), "null", OptionValue::Nothing),
    OptionRow(Names::Letter('b', &[]), "byte-offset", OptionValue::Nothing),
    OptionRow(Names::Letter('n', &[]), "line-number", OptionValue::Nothing),
    OptionRow(Names::Letter('T', &[]), "initial-tab", OptionValue::Nothing),
    OptionRow(
        Names::Letter('H', &[]),
        "with-filename",
        OptionValue::Nothing,
    ),
    OptionRow(Names::Letter('h', &[]), "no-filename", OptionValue::Nothing),
    OptionRow(Names::Long(&[]), "label", OptionValue::Text("NAME")),
    OptionRow(
        Names::Letter('m', &[]),
        "max-count",
        OptionValue::Number(1, u32::MAX),
    ),
    OptionRow(
        Names::Letter('A', &[]),
        "after-context",
        OptionValue::Number(0, u32::MAX),
    ),
    OptionRow(
        Names::Letter('B', &[]),
        "before-context",
        OptionValue::Number(0, MAX_BEFORE),
    ),
    OptionRow(
        Names::Letter('C', &[]),
        "context",
        OptionValue::Number(0, MAX_BEFORE),
    ),
    OptionRow(
        Names::Long(&[]),
        "group-separator",
        OptionValue::Text("TEXT"),
    ),
    OptionRow(Names::Long(&[]), "no-group-separator", OptionValue::Nothing),
    OptionRow(Names::Long(&["colour"]), "color", OptionValue::Text("WHEN")),
    OptionRow(Names::Letter('r', &[]), "recursive", OptionValue::Nothing),
    OptionRow(
        Names::Letter('R', &[]),
        "dereference-recursive",
        OptionValue::Nothing,
    ),
    OptionRow(
        Names::Letter('d', &[]),
        "directories",
        OptionValue::Text("ACTION"),
    ),
    OptionRow(
        Names::Letter('D', &[]),
        "devices",
        OptionValue::Text("ACTION"),
    ),
    OptionRow(Names::Long(&[]), "include", OptionValue::Text("GLOB")),
    OptionRow(Names::Long(&[]), "exclude", OptionValue::Text("GLOB")),
    OptionRow(Names::Long(&[]), "exclude-from", OptionValue::Text("FILE")),
    OptionRow(Names::Long(&[]), "exclude-dir", OptionValue::Text("GLOB")),
    OptionRow(Names::Letter('s', &[]), "no-messages", OptionValue::Nothing),
    OptionRow(Names::Letter('a', &[]), "text", OptionValue::Nothing),
    OptionRow(Names::Letter('U', &[]), "binary", OptionValue::Nothing),
    OptionRow(Names::Long(&[]), "binary-files", OptionValue::Text("TYPE")),
    OptionRow(Names::Long(&[]), "line-buffered", OptionValue::Nothing),
    OptionRow(
        Names::Long(&[]),
        "workers",
        OptionValue::Number(1, MAX_WORKERS),
    ),
    OptionRow(Names::Long(&[]), "block", OptionValue::Number(1, MAX_BLOCK)),
    OptionRow(Names::Long(&[]), "round", OptionValue::Number(1, MAX_ROUND)),
    OptionRow(Names::Long(&[]), "always-spread", OptionValue::Nothing),
    OptionRow(Names::Long(&[]), "help", OptionValue::Nothing),
    OptionRow(Names::Letter('V', &[]), "version", OptionValue::Nothing),
    OptionRow(Names::Place, "operands", OptionValue::Itself),
];

/// The options and operands of a search.
///
/// # Errors
///
/// Where a request for memory was refused.
pub(crate) fn search_command<'a>(alloc: Global) -> Result<Command<'a>, AllocError>
    ensures { IfOk result (λ command. app_of command ≡ our_app) }
{
    let args = args_of(alloc, &OPTIONS)?;
    bare_command(alloc).args(args)
}

/// The command without options.
fn bare_command<'a>(alloc: Global) -> Command<'a>
    ensures { app_of result ≡ bare_app }
{
    Command::new(alloc, "pargrep")
        .override_usage("pargrep [OPTION ...] [PATTERN] [FILE ...]")
        .no_binary_name(true)
        .disable_help_flag(true)
        .args_override_self(true)
}

/// The arguments of rows, in their order.
fn args_of<'a>(alloc: Global, rows: &[OptionRow]) -> Result<Vec<Arg<'a>>, AllocError>
    ensures rules { IfOk result (λ args. map rule_of args.items ≡ map rule_for rows.now) }
    ensures local { IfOk result (λ args. list_all (λ arg. not arg.global) args.items ≡ true) }
{
    let mut args = Vec::new(alloc);
    for row in rows {
        args.push(row.arg(alloc)?)?;
    }
    Ok(args)
}

/// Whether something stands behind the option of this letter.
pub(crate) fn letter_has_value(letter: u8) -> bool
    ensures { result ≡ takes_value (by_letter table letter) }
{
    row_of_letter_has_value(&OPTIONS, letter)
}

/// Whether this is the letter of an option behind which nothing stands.
pub(crate) fn letter_is_flag(letter: u8) -> bool
    ensures { result ≡ is_flag (by_letter table letter) }
{
    row_of_letter_is_flag(&OPTIONS, letter)
}

/// Whether something stands behind the option of this long name.
pub(crate) fn name_has_value(name: &str) -> bool
    ensures { result ≡ takes_value (by_name table name.now) }
{
    row_of_name_has_value(&OPTIONS, name)
}

/// Whether this is a long name of an option.
pub(crate) fn is_name(name: &str) -> bool
    ensures { result ≡ is_some (by_name table name.now) }
{
    row_is_called(&OPTIONS, name)
}

/// The first long name of the option with a long name that begins so, if that is one option.
pub(crate) fn name_begun(start: &str) -> Option<&'static str>
    ensures { option_map (λ name. name.now) result ≡ only_one (names_begun table start.now) }
{
    row_begun(&OPTIONS, start)
}

/// Whether the option of this letter takes a value, among these rows.
fn row_of_letter_has_value(rows: &[OptionRow], letter: u8) -> bool
    ensures { result ≡ takes_value (by_letter (opts_of rows.now) letter) }
{
    for row in rows {
        if row.is_letter(letter) {
            return row.has_value();
        }
    }
    false
}

/// Whether this is the letter of an option behind which nothing stands, among these rows.
fn row_of_letter_is_flag(rows: &[OptionRow], letter: u8) -> bool
    ensures { result ≡ is_flag (by_letter (opts_of rows.now) letter) }
{
    for row in rows {
        if row.is_letter(letter) {
            return !row.has_value();
        }
    }
    false
}

/// Whether the option of this long name takes a value, among these rows.
fn row_of_name_has_value(rows: &[OptionRow], name: &str) -> bool
    ensures { result ≡ takes_value (by_name (opts_of rows.now) name.now) }
{
    for row in rows {
        if row.is_called(name) {
            return row.has_value();
        }
    }
    false
}

/// Whether one of these rows has this long name.
fn row_is_called(rows: &[OptionRow], name: &str) -> bool
    ensures { result ≡ is_some (by_name (opts_of rows.now) name.now) }
{
    for row in rows {
        if row.is_called(name) {
            return true;
        }
    }
    false
}

/// The first long name of the option with a long name that begins so, if that is one option, among these rows.
fn row_begun(rows: &[OptionRow], start: &str) -> Option<&'static str>
    ensures { option_map (λ name. name.now) result ≡ only_one (names_begun (opts_of rows.now) start.now) }
{
    let mut only = None;
    for row in rows {
        if row.begins(start) {
            if only.is_some() {
                return None;
            }
            only = Some(row.1);
        }
    }
    only
}

/// Whether a name begins so.
fn begins(name: &str, start: &str) -> bool
    ensures { result ≡ begins name.now start.now }
{
    name.starts_with(start)
}

/// Whether one of these names begins so.
fn some_begins(names: &[&str], start: &str) -> bool
    ensures { result ≡ list_any (λ name. begins name.now start.now) names.now }
{
    names.iter().any(|name| begins(name, start))
}

impl OptionRow {
    /// Whether this is the option's letter.
    fn is_letter(&self, letter: u8) -> bool
        ensures { result ≡ has_letter self.now letter }
    {
        match self.0 {
            Names::Letter(own, _) => own == char::from(letter),
            _ => false,
        }
    }

    /// Whether the option goes by this long name.
    fn is_called(&self, name: &str) -> bool
        ensures { result ≡ has_name self.now name.now }
    {
        match self.0 {
            Names::Letter(_, others) => self.1 == name || others.contains(&name),
            Names::Long(others) => self.1 == name || others.contains(&name),
            Names::Place => false,
        }
    }

    /// Whether a long name of the option begins so. That of --always-spread may not be cut short.
    fn begins(&self, start: &str) -> bool
        ensures { result ≡ has_begun_name self.now start.now }
    {
        if self.1 == "always-spread" {
            return false;
        }
        match self.0 {
            Names::Letter(_, others) => begins(self.1, start) || some_begins(others, start),
            Names::Long(others) => begins(self.1, start) || some_begins(others, start),
            Names::Place => false,
        }
    }

    /// Whether something stands behind the option.
    fn has_value(&self) -> bool
        ensures { result ≡ has_value_behind self.now.2 }
    {
        !matches!(self.2, OptionValue::Nothing)
    }

    /// The option as `clap` knows it.
    fn arg<'a>(&self, alloc: Global) -> Result<Arg<'a>, AllocError>
        ensures rule { IfOk result (λ arg. rule_of arg ≡ rule_for self.now) }
        ensures local { IfOk result (λ arg. arg.global ≡ false) }
    {
        let OptionRow(names, name, behind) = self;
        match names {
            Names::Letter(letter, others) => behind
                .named(alloc, name)
                .long(name)
                .short(*letter)
                .aliases(others),
            Names::Long(others) => behind.named(alloc, name).long(name).aliases(others),
            Names::Place => Ok(behind.named(alloc, name)),
        }
    }
}

impl OptionValue {
    /// What is found by this name, and has this behind it.
    fn named<'a>(self, alloc: Global, name: &'a str) -> Arg<'a>
        ensures rule { rule_of result ≡ named_rule self name.now }
        ensures local { result.global ≡ false }
        ensures alone { result.aliases.items ≡ [] }
    {
        let reading = self.reading();
        Arg::new(alloc, name)
            .value_name(reading.name)
            .action(reading.action)
            .value_parser(reading.parser)
    }

    /// What it is to `clap`.
    fn reading(self) -> Reading
        ensures action { result.action ≡ action_behind self }
        ensures parser { result.parser ≡ parser_behind self }
    {
        match self {
            OptionValue::Nothing => Reading {
                name: "",
                action: ArgAction::SetTrue,
                parser: ValueParser::Bool,
            },
            OptionValue::Text(name) => Reading {
                name,
                action: ArgAction::Append,
                parser: ValueParser::String,
            },
            OptionValue::Number(first, last) => Reading {
                name: "N",
                action: ArgAction::Set,
                parser: ValueParser::Signed(i64::from(first), i64::from(last)),
            },
            OptionValue::Itself => Reading {
                name: "FILE",
                action: ArgAction::Append,
                parser: ValueParser::String,
            },
        }
    }
}
