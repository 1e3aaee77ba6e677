//! What `clap` found, by the names of options.
ghost use Rattle.std.specs.Prelude.{◌≡◌, ◌≤◌, ◌<◌, List, None, Option, codes, map, option_and_then, option_map};
ghost use Rattle.std.specs.Prelude.{true, unwrap_or};
ghost use Rattle.std.specs.Str.{str_eq_ignore_ascii_case};
ghost use Rattle.clap.specs.Words.{found_of};
ghost use Rattle.pg_rows.specs.Separator.{separator_for};
ghost use Rattle.pg_words.specs.Asks.{coloring_by, coloring_in, device_action, directories_in, directory_action};
ghost use Rattle.pg_words.specs.Asks.{has_long_separator, has_other_action, has_other_coloring};
ghost use Rattle.pg_words.specs.Asks.{has_other_directory_action};
ghost use Rattle.pg_words.specs.Asks.{has_other_type, is_word_of, modes_given, modes_in, number_in, options_in};
ghost use Rattle.pg_words.specs.Found.{found_values, value_behind, IsOfUses};
ghost use Rattle.pg_words.specs.Gives.{IsNumberUpTo};
ghost use Rattle.pg_words.specs.Options.{are_flags, given_modes, mode_table};
ghost use Rattle.pg_words.specs.Line.{ignores_case, is_given, last_of, last_value, separator_in, AnyText, Nothing};
ghost use Rattle.pg_words.specs.Line.{Number, Use};

use crate::options::{
    Coloring, DeviceAction, DirectoryAction, GivenModes, MODES, ModeOption, Options,
};
use clap::ArgMatches;
use pg_rows::Separator;

/// The options that exclude one another, want operands or decide how rows look, and what `clap` doesn't know of them:
/// whether case is ignored, and what parts groups of lines.
pub(crate) fn options_of(
    found: &ArgMatches<'_>,
    fold: bool,
    separator: Option<Separator>,
) -> Options
    ensures { (us : List Use) → IsOfUses us (found_of found.now) → fold ≡ ignores_case us
        → separator ≡ option_and_then separator_for (separator_in us) → result ≡ options_in us }
{
    Options {
        extended: flag(found, "extended-regexp"),
        fixed: flag(found, "fixed-strings"),
        perl: flag(found, "perl-regexp"),
        binary: has_other_type(values_of(found, "binary-files")),
        unknown_directories: has_other_directory_action(values_of(found, "directories")),
        unknown_devices: has_other_action(values_of(found, "devices")),
        unknown_coloring: has_other_coloring(values_of(found, "color")),
        long_separator: has_long_separator(values_of(found, "group-separator")),
        invert: flag(found, "invert-match"),
        fold,
        parts: flag(found, "only-matching"),
        modes: modes_of(found),
        numbers: flag(found, "line-number"),
        null: flag(found, "null"),
        tabs: flag(found, "initial-tab"),
        offsets: flag(found, "byte-offset"),
        separator,
        names: flag(found, "with-filename"),
        no_names: flag(found, "no-filename"),
        recursive: DirectoryAction::is_recursive(directories_of(found)),
        limit: number(found, "max-count"),
        after: number(found, "after-context"),
        before: small_number(found, "before-context"),
        around: small_number(found, "context"),
    }
}

/// What is given of the options that say what is written of each file.
fn modes_of(found: &ArgMatches<'_>) -> GivenModes
    ensures { (us : List Use) → IsOfUses us (found_of found.now) → result ≡ modes_in us }
{
    modes_among(found, &MODES)
}

/// What is given of these options.
fn modes_among(found: &ArgMatches<'_>, options: &[ModeOption]) -> GivenModes
    ensures { (us : List Use) → IsOfUses us (found_of found.now) → are_flags options.now ≡ true
        → result ≡ given_modes (modes_given (mode_table options.now) us) }
{
    let mut only = None;
    for option in options {
        if flag(found, option.0) {
            if only.is_some() {
                return GivenModes::Several;
            }
            only = Some(option.1);
        }
    }
    match only {
        Some(mode) => GivenModes::One(mode),
        None => GivenModes::Unset,
    }
}

/// Whether one of the types of files is another than `text`.
fn has_other_type(types: &[&str]) -> bool
    ensures { result ≡ has_other_type (map (λ name. name.now) types.now) }
{
    types.iter().any(|name| *name != "text")
}

/// What a value of -d asks for.
fn directory_action(text: &str) -> Option<DirectoryAction>
    ensures { result ≡ directory_action text.now }
{
    if text == "read" {
        Some(DirectoryAction::Read)
    } else if text == "skip" {
        Some(DirectoryAction::Skip)
    } else if text == "recurse" {
        Some(DirectoryAction::Recurse)
    } else {
        None
    }
}

/// Whether one of the values of -d asks for nothing.
fn has_other_directory_action(values: &[&str]) -> bool
    ensures { result ≡ has_other_directory_action (map (λ value. value.now) values.now) }
{
    values.iter().any(|value| directory_action(value).is_none())
}

/// What the last of -d, -r and -R asks for, if one is given.
pub(crate) fn directories_of(found: &ArgMatches<'_>) -> Option<DirectoryAction>
    ensures { (us : List Use) → IsOfUses us (found_of found.now) → result ≡ directories_in us }
{
    match last_value(found, "directories") {
        Some(text) => directory_action(text),
        None => None,
    }
}

/// What a value of -D asks for.
fn device_action(text: &str) -> Option<DeviceAction>
    ensures { result ≡ device_action text.now }
{
    if text == "read" {
        Some(DeviceAction::Read)
    } else if text == "skip" {
        Some(DeviceAction::Skip)
    } else {
        None
    }
}

/// Whether one of the values of -D asks for nothing.
fn has_other_action(values: &[&str]) -> bool
    ensures { result ≡ has_other_action (map (λ value. value.now) values.now) }
{
    values.iter().any(|value| device_action(value).is_none())
}

/// What -D asks for, if it is given.
pub(crate) fn devices_of(found: &ArgMatches<'_>) -> Option<DeviceAction>
    ensures { (us : List Use) → IsOfUses us (found_of found.now)
        → result ≡ option_and_then device_action (last_value (codes "devices") us) }
{
    match last_value(found, "devices") {
        Some(text) => device_action(text),
        None => None,
    }
}

/// Whether a value is this word; case is ignored.
fn is_word(text: &str, word: &str) -> bool
    ensures { result ≡ str_eq_ignore_ascii_case text.now word.now }
{
    text.eq_ignore_ascii_case(word)
}

/// Whether a value is one of these words.
fn is_word_of(text: &str, words: &[&str]) -> bool
    ensures { result ≡ is_word_of (map (λ word. word.now) words.now) text.now }
{
    words.iter().any(|word| is_word(text, word))
}

/// What a value of --color asks for.
fn coloring_by(text: &str) -> Option<Coloring>
    ensures { result ≡ coloring_by text.now }
{
    if is_word_of(text, &["always", "yes", "force"]) {
        Some(Coloring::Always)
    } else if is_word_of(text, &["never", "no", "none"]) {
        Some(Coloring::Never)
    } else if is_word_of(text, &["auto", "tty", "if-tty"]) {
        Some(Coloring::OnTerminal)
    } else {
        None
    }
}

/// Whether one of the values of --color asks for nothing.
fn has_other_coloring(values: &[&str]) -> bool
    ensures { result ≡ has_other_coloring (map (λ value. value.now) values.now) }
{
    values.iter().any(|value| coloring_by(value).is_none())
}

/// Whether one of the texts of --group-separator is too long.
fn has_long_separator(texts: &[&str]) -> bool
    ensures { result ≡ has_long_separator (map (λ text. text.now) texts.now) }
{
    texts
        .iter()
        .any(|text| Separator::new(text.as_bytes()).is_none())
}

/// What the last --color asks for.
pub(crate) fn coloring_of(found: &ArgMatches<'_>) -> Coloring
    ensures { (us : List Use) → IsOfUses us (found_of found.now) → result ≡ coloring_in us }
{
    match last_value(found, "color") {
        Some(text) => coloring_by(text).unwrap_or(Coloring::Never),
        None => Coloring::Never,
    }
}

/// The values of an option, in their order, or the operands.
pub(crate) fn values_of<'w, 'a: 'w>(found: &'w ArgMatches<'a>, name: &str) -> &'w [&'a str]
    ensures { map (λ value. value.now) result.now ≡ found_values (found_of found.now) name.now }
{
    found.get_strs(name).unwrap_or_default()
}

/// The last value of an option, if it is given.
pub(crate) fn last_value<'a>(found: &ArgMatches<'a>, name: &str) -> Option<&'a str>
    ensures { (us : List Use) → IsOfUses us (found_of found.now) → value_behind name.now ≡ Some AnyText
        → option_map (λ value. value.now) result ≡ last_value name.now us }
{
    last_of(values_of(found, name))
}

/// The last of some texts, if there is one.
fn last_of<'a>(texts: &[&'a str]) -> Option<&'a str>
    ensures { option_map (λ text. text.now) result ≡ last_of (map (λ text. text.now) texts.now) None }
{
    let mut last = None;
    for text in texts {
        last = Some(*text);
    }
    last
}

/// Whether an option is given that has no value.
pub(crate) fn flag(found: &ArgMatches<'_>, name: &str) -> bool
    ensures { (us : List Use) → IsOfUses us (found_of found.now) → value_behind name.now ≡ Some Nothing
        → result ≡ is_given name.now us }
{
    found.get_flag(name)
}

/// The number that an option gives.
fn number(found: &ArgMatches<'_>, name: &str) -> Option<u32>
    ensures { (us : List Use) → IsOfUses us (found_of found.now) → IsNumberUpTo u32.MAX name.now
        → result ≡ number_in name.now us }
{
    found.get_one(name)
}

/// The number that an option gives whose numbers fit a `u16`.
fn small_number(found: &ArgMatches<'_>, name: &str) -> Option<u16>
    ensures { (us : List Use) → IsOfUses us (found_of found.now) → IsNumberUpTo u16.MAX name.now
        → result ≡ number_in name.now us }
{
    found.get_one(name)
}

/// The number from 1 to `most` that an option gives, and this one where it isn't given.
pub(crate) fn number_within(found: &ArgMatches<'_>, name: &str, default: u32, most: u32) -> u32
    requires { (1 ≤ default) × (default ≤ most) }
    ensures exact { (us : List Use) → IsOfUses us (found_of found.now) → value_behind name.now ≡ Some (Number 1 most)
        → result ≡ unwrap_or (number_in name.now us) default }
    ensures within { (1 ≤ result) × (result ≤ most) }
{
    let number = number(found, name).unwrap_or(default);
    if number == 0 {
        return default;
    }
    if number > most {
        return default;
    }
    number
}
