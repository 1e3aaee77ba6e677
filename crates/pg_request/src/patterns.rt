//! The files of patterns and those of globs.
ghost use Rattle.std.specs.Prelude.{◌≡◌, ◌<◌, ◌∷◌, List, ℕ, map, option_map, IfErr, IfOk, length, true};
ghost use Rattle.pg_grammar.specs.Memory.{patterns_of};
ghost use Rattle.pg_grammar.specs.Slices.{bytes_of};
ghost use Rattle.pg_selection.specs.Search.{ByLine};
ghost use Rattle.pg_base.specs.Entries.{Ended, Left};
ghost use Rattle.pg_files.specs.Given.{FileOutcome, File, is_reading};
ghost use Rattle.pg_words.specs.Filters.{filter_said, filters_of};
ghost use Rattle.pg_request.specs.Asked.{glob_file, glob_files};
ghost use Rattle.pg_request.specs.declared.patterns.ReadToEndFault.TheVariants.{ReadFailed, OutOfMemory};
ghost use Rattle.pg_request.specs.Reading.{contents_of, FailsToReadAll, HasRead, IsReadOrGivenUp, StopsAt};

use crate::fault::Fault;
use pg_base::Cause;
use pg_files::{OpenFault, ReadFault, STANDARD_INPUT, Store, shown_name};
use pg_grammar::PatternList;
use pg_words::FileFilter;
use std::alloc::{AllocError, Global};

/// How many bytes are asked for in one read.
const READ_SIZE: usize = 65_536;

/// Reads the files of patterns at some paths, one after the other, each to its end. Each line of them
/// is a pattern.
///
/// # Errors
///
/// `Unreadable` for the first file that couldn't be opened or read to its end, and `OutOfMemory` where
/// a request for memory was refused.
pub fn read_patterns<'a, S: Store>(
    alloc: Global,
    paths: &[&'a str],
    store: &mut S,
) -> Result<Vec<PatternList>, Fault<'a>>
    ensures read { IfOk result (λ lists. (contents : List (List ℕ))
        × (map patterns_of lists.items ≡ map ByLine contents)
        × HasRead (S.past store.old) (S.past store.new) (bytes_of paths.now) contents) }
    ensures fault { IfErr result (FailsToReadAll (bytes_of paths.now) (S.past store.old) (S.past store.new)) }
{
    let mut lists = Vec::new(alloc);
    for path in paths {
        let bytes = read_file(alloc, path, store)?;
        lists.push(PatternList::Lines(bytes))?;
    }
    Ok(lists)
}

/// Reads the files of globs among filters, one after the other, each to its end. The answer is what they hold.
///
/// # Errors
///
/// `Unreadable` for the first file that couldn't be opened or read to its end, and `OutOfMemory` where
/// a request for memory was refused.
pub fn read_globs<'a, S: Store>(
    alloc: Global,
    filters: &[FileFilter<'a>],
    store: &mut S,
) -> Result<Vec<Vec<u8>>, Fault<'a>>
    ensures read { IfOk result (λ contents. HasRead (S.past store.old) (S.past store.new)
        (glob_files (filters_of filters.now)) (contents_of contents.items)) }
    ensures fault { IfErr result (FailsToReadAll (glob_files (filters_of filters.now))
        (S.past store.old) (S.past store.new)) }
{
    let mut contents = Vec::new(alloc);
    for filter in filters {
        let Some(path) = glob_file(filter) else {
            continue;
        };
        let bytes = read_file(alloc, path, store)?;
        contents.push(bytes)?;
    }
    Ok(contents)
}

/// The path of a file of globs, if the filter is one.
fn glob_file<'a>(filter: &FileFilter<'a>) -> Option<&'a str>
    ensures { option_map (λ path. path.now) result ≡ glob_file (filter_said filter.now) }
{
    match filter {
        FileFilter::Include(_) => None,
        FileFilter::Exclude(_) => None,
        FileFilter::ExcludeFrom(path) => Some(path),
    }
}

/// Opens the file at a path and reads it to its end.
fn read_file<'a, S: Store>(
    alloc: Global,
    path: &'a str,
    store: &mut S,
) -> Result<Vec<u8>, Fault<'a>>
    ensures read { IfOk result (λ bytes. S.past store.new ≡ File path.now bytes.items Ended ∷ S.past store.old) }
    ensures fault { IfErr result (StopsAt path.now (S.past store.old) (S.past store.new)) }
{
    let name = shown_name(STANDARD_INPUT, path);
    match store.open(path, false) {
        Ok(()) => {}
        Err(OpenFault::Refused(cause)) => return Err(Fault::Unreadable(name, cause)),
        Err(OpenFault::OutOfMemory) => return Err(Fault::OutOfMemory),
    }
    let mut bytes = Vec::new(alloc);
    match read_to_end(alloc, &mut bytes, store) {
        Ok(()) => Ok(bytes),
        Err(ReadToEndFault::ReadFailed) => Err(Fault::Unreadable(name, Cause::ReadFailed)),
        Err(ReadToEndFault::OutOfMemory) => Err(Fault::OutOfMemory),
    }
}

/// Why a file isn't read to its end.
#[derive(Clone, Copy)]
enum ReadToEndFault {
    /// A read failed.
    ReadFailed,
    /// A request for memory was refused.
    OutOfMemory,
}

impl From<ReadFault> for ReadToEndFault {
    ghost from_gives = { λ _ fault. fault ≡ ReadFailed };

    fn from(_fault: ReadFault) -> ReadToEndFault {
        ReadToEndFault::ReadFailed
    }
}

impl From<AllocError> for ReadToEndFault {
    ghost from_gives = { λ _ fault. fault ≡ OutOfMemory };

    fn from(_error: AllocError) -> ReadToEndFault {
        ReadToEndFault::OutOfMemory
    }
}

/// Adds the bytes of the open file behind those that it gave before, to its end or to a read that fails. Neither was
/// met before.
fn read_to_end<S: Store>(
    alloc: Global,
    bytes: &mut Vec<u8>,
    store: &mut S,
) -> Result<(), ReadToEndFault>
    requires { is_reading (S.past store.old) ≡ true }
    ensures { (path : List ℕ) → (past : List FileOutcome) → S.past store.old ≡ File path bytes.old.items Left ∷ past →
        IsReadOrGivenUp path past result bytes.new.items (S.past store.new) }
{
    let mut buffer = vec![in alloc; 0u8; READ_SIZE]?;
    read_by(&mut buffer, bytes, store)
}

/// Adds the rest of the open file behind the bytes that it gave before, to its end or to a read that fails, by way of a
/// buffer, which isn't empty. Neither was met before.
fn read_by<S: Store>(
    buffer: &mut [u8],
    bytes: &mut Vec<u8>,
    store: &mut S,
) -> Result<(), ReadToEndFault>
    requires some { 0 < length buffer.old }
    requires reading { is_reading (S.past store.old) ≡ true }
    ensures { (path : List ℕ) → (past : List FileOutcome) → S.past store.old ≡ File path bytes.old.items Left ∷ past →
        IsReadOrGivenUp path past result bytes.new.items (S.past store.new) }
{
    loop {
        let count = store.read(buffer)?;
        if count == 0 {
            return Ok(());
        }
        bytes.extend_from_slice(&buffer[..count])?;
    }
}
