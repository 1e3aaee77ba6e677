//! The words of the command line.
ghost use Rattle.std.specs.Prelude.{◌≡◌, ◌<◌, ◌+◌, List, codes, map, option_and_then, vec_len};
ghost use Rattle.std.specs.String.{string_bytes};
ghost use Rattle.clap.specs.Words.{found_of, kind_of};
ghost use Rattle.pg_rows.specs.Separator.{separator_for};
ghost use Rattle.pg_grammar.specs.Slices.{bytes_of};
ghost use Rattle.pg_words.specs.Asked.{asked_of, pace_of};
ghost use Rattle.pg_words.specs.Asks.{asked_in, asks_of, fault_in, files_in, options_in, pace_in, search_or, texts_in};
ghost use Rattle.pg_words.specs.Filters.{filters_of};
ghost use Rattle.pg_words.specs.Found.{AreSources, IsOfUses};
ghost use Rattle.pg_words.specs.Gives.{Gives, IsRefusal};
ghost use Rattle.pg_words.specs.Joined.{asked};
ghost use Rattle.pg_words.specs.Line.{filters_in, ignores_case, separator_in, table, values_of, Use};
ghost use Rattle.pg_words.specs.Operands.{searched};
ghost use Rattle.pg_words.specs.declared.words.WordsFault.TheVariants.{OutOfMemory, Usage};

use crate::case::ignores_case;
use crate::command::{MAX_BLOCK, MAX_ROUND, MAX_WORKERS, search_command};
use crate::filters::filters_of;
use crate::matches::{
    coloring_of, devices_of, directories_of, flag, last_value, number_within, options_of, values_of,
};
use crate::operands::{Sources, place_operands, searched_files};
use crate::options::{DirectoryAction, Options};
use crate::request::{FileFilter, Request};
use crate::separator::separator_of;
use crate::split::Words;
use crate::usage::{UsageFault, check_usage};
use clap::error::ErrorKind;
use clap::{ArgMatches, Error};
use pg_rows::Separator;
use std::alloc::{AllocError, AllocFailed, Global};

/// The number of workers where --workers isn't given.
const DEFAULT_WORKERS: u32 = 4;
/// The block size where --block isn't given, in bytes.
const DEFAULT_BLOCK: u32 = 65_536;
/// The number of blocks in a round where --round isn't given.
const DEFAULT_ROUND: u32 = 64;

/// What the words of a command line ask for.
#[derive(Drop)]
pub enum Task<'a> {
    /// A search.
    Search(Request<'a>),
    /// --help: [`HELP`](crate::HELP).
    Help,
    /// --version: [`VERSION`](crate::VERSION).
    Version,
}

/// Why there is no request.
#[derive(Drop)]
pub enum WordsFault {
    /// They form no command line. The text says why, and ends with a newline.
    Refused(String),
    /// They form one, but options in it exclude one another, or it asks for nothing.
    Usage(UsageFault),
    /// A request for memory was refused.
    OutOfMemory,
}

impl From<UsageFault> for WordsFault {
    ghost from_gives = { λ usage fault. fault ≡ Usage usage };

    fn from(fault: UsageFault) -> WordsFault {
        WordsFault::Usage(fault)
    }
}

impl From<AllocError> for WordsFault {
    ghost from_gives = { λ _ fault. fault ≡ OutOfMemory };

    fn from(_error: AllocError) -> WordsFault {
        WordsFault::OutOfMemory
    }
}

impl<T: Drop> From<AllocFailed<T>> for WordsFault {
    ghost from_gives = { λ _ fault. fault ≡ OutOfMemory };

    fn from(_error: AllocFailed<T>) -> WordsFault {
        WordsFault::OutOfMemory
    }
}

/// Reads the words of a command line.
///
/// `pargrep [options] [PATTERN] [FILE ...]`: PATTERN is the first operand where neither -e nor -f is
/// given. Options may stand behind operands, until `--`. Of an option that is given twice the last
/// one counts, and of -i and --no-ignore-case, of --group-separator and --no-group-separator, and of -d, -r and -R too,
/// but a later -r or -d doesn't take back that -R follows links;
/// -e, -f and --exclude-dir collect, and --include, --exclude and --exclude-from together, in one order. -C gives the
/// lines before and after where -B or -A doesn't. -y is -i, and digits among letters are -C with that number. The value
/// of --color stands behind `=` in its word alone, and is `auto` where it is left out. -G has no effect beside -E or
/// -F, and -a, -U and --binary-files=text have none at all.
///
/// The long names are GNU grep's, and --workers, --block and --round. One may be cut short where the rest of it leaves
/// no other option. --help comes before --version, and both come before a fault that [`check_usage`] finds.
///
/// # Errors
///
/// `Refused` where the words aren't as above, hold an option that isn't known (-h asks for no help),
/// or give an option no number in its range: --workers 1 to 64, --block 1 to 2^24, --round 1 to 1,024,
/// -m 1 to 2^32 - 1, -A 0 to 2^32 - 1, -B and -C 0 to 65,535. `Usage` where `clap` takes them and
/// [`check_usage`] finds a fault. `OutOfMemory` where a request for memory was refused.
pub fn read_words<'a>(alloc: Global, words: &'a Words) -> Result<Task<'a>, WordsFault>
    ensures { Gives (asks_of (asked table (map string_bytes words.now.parts.items))) result }
{
    let command = search_command(alloc)?;
    match command.try_get_matches_from(words.as_slice()) {
        Ok(found) => {
            let filters = filters_of(alloc, words.as_slice())?;
            task_of(
                alloc,
                &found,
                ignores_case(words.as_slice()),
                separator_of(words.as_slice()),
                filters,
            )
        }
        Err(error) => Err(refusal(alloc, &error)),
    }
}

/// What `clap` said.
fn refusal(alloc: Global, error: &Error) -> WordsFault
    ensures memory { kind_of error.now ≡ ErrorKind.OutOfMemory → result ≡ WordsFault.OutOfMemory }
    ensures text { IsRefusal result }
{
    if error.kind() == ErrorKind::OutOfMemory {
        return WordsFault::OutOfMemory;
    }
    match error.to_string(alloc) {
        Ok(text) => WordsFault::Refused(text),
        Err(_) => WordsFault::OutOfMemory,
    }
}

/// --help before --version, and both before a search, in which case is ignored or not, this parts groups of lines, and
/// these filters say which files are searched.
fn task_of<'a>(
    alloc: Global,
    found: &ArgMatches<'a>,
    fold: bool,
    separator: Option<Separator>,
    filters: Vec<FileFilter<'a>>,
) -> Result<Task<'a>, WordsFault>
    ensures { (us : List Use) → IsOfUses us (found_of found.now) → fold ≡ ignores_case us
        → separator ≡ option_and_then separator_for (separator_in us)
        → filters_of filters.entry.items ≡ filters_in us → Gives (asks_of (Some us)) result }
{
    if flag(found, "help") {
        return Ok(Task::Help);
    }
    if flag(found, "version") {
        return Ok(Task::Version);
    }
    search_of(
        alloc,
        found,
        &options_of(found, fold, separator),
        sources_of(found),
        filters,
    )
}

/// What the words name.
fn sources_of<'w, 'a: 'w>(found: &'w ArgMatches<'a>) -> Sources<'w, 'a>
    ensures { (us : List Use) → IsOfUses us (found_of found.now) → AreSources us result }
{
    place_operands(
        values_of(found, "regexp"),
        values_of(found, "file"),
        values_of(found, "operands"),
    )
}

/// The search that the words ask for.
fn search_of<'a>(
    alloc: Global,
    found: &ArgMatches<'a>,
    options: &Options,
    sources: Sources<'_, 'a>,
    filters: Vec<FileFilter<'a>>,
) -> Result<Task<'a>, WordsFault>
    ensures { (us : List Use) → IsOfUses us (found_of found.now) → options.now ≡ options_in us
        → AreSources us sources.entry → filters_of filters.entry.items ≡ filters_in us
        → Gives (search_or us (fault_in us)) result }
{
    check_usage(options, sources.texts, sources.pattern_files, sources.files)?;
    let texts = Vec::from_slice(alloc, sources.texts)?;
    let pattern_files = Vec::from_slice(alloc, sources.pattern_files)?;
    let files = searched_files(alloc, sources.files)?;
    let excluded = Vec::from_slice(alloc, values_of(found, "exclude-dir"))?;
    let request = build_request(
        found,
        options,
        texts,
        pattern_files,
        files,
        filters,
        excluded,
    );
    Ok(Task::Search(request))
}

/// The search with these options, texts and files of patterns, files that are searched, filters of files, and
/// directories that aren't visited. `clap` has refused numbers out of range.
fn build_request<'a>(
    found: &ArgMatches<'a>,
    options: &Options,
    texts: Vec<&'a str>,
    pattern_files: Vec<&'a str>,
    files: Vec<&'a str>,
    filters: Vec<FileFilter<'a>>,
    excluded: Vec<&'a str>,
) -> Request<'a>
    requires some_pattern { 0 < vec_len texts + vec_len pattern_files }
    requires some_file { 0 < vec_len files }
    ensures { (us : List Use) → IsOfUses us (found_of found.now) → options.now ≡ options_in us
        → bytes_of texts.entry.items ≡ texts_in us → bytes_of pattern_files.entry.items ≡ values_of (codes "file") us
        → bytes_of files.entry.items ≡ searched (files_in us) → filters_of filters.entry.items ≡ filters_in us
        → bytes_of excluded.entry.items ≡ values_of (codes "exclude-dir") us
        → (asked_of result ≡ asked_in us) × (pace_of result ≡ pace_in us) }
{
    Request {
        kind: options.kind(),
        texts,
        pattern_files,
        fold: options.fold,
        whole: flag(found, "line-regexp"),
        word: flag(found, "word-regexp"),
        invert: options.invert,
        zero: flag(found, "null-data"),
        parts: options.parts,
        format: options.format(),
        coloring: coloring_of(found),
        names: options.naming(),
        label: last_value(found, "label"),
        files,
        recursive: options.recursive,
        follows: flag(found, "dereference-recursive"),
        skips_directories: DirectoryAction::skips(directories_of(found)),
        devices: devices_of(found),
        filters,
        excluded,
        silent: flag(found, "no-messages"),
        line_buffered: flag(found, "line-buffered"),
        workers: number_within(found, "workers", DEFAULT_WORKERS, MAX_WORKERS),
        block: number_within(found, "block", DEFAULT_BLOCK, MAX_BLOCK),
        round: number_within(found, "round", DEFAULT_ROUND, MAX_ROUND),
        always_spread: flag(found, "always-spread"),
    }
}
