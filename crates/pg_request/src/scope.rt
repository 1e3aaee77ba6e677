//! Which part of the trees a request asks for.
ghost use Rattle.std.specs.Prelude.{◌≡◌, ◌++◌, ◌∷◌, IfOk, List, map};
ghost use Rattle.pg_glob.specs.Views.{rules};
ghost use Rattle.pg_walk.specs.Scopes.{scope_of};
ghost use Rattle.pg_words.specs.Filters.{filter_said, filters_of};
ghost use Rattle.pg_words.specs.Line.{Filter as Asked};
ghost use Rattle.pg_grammar.specs.Slices.{bytes_of};
ghost use Rattle.pg_request.specs.Asked.{asked_of, devices_for, directory_rule, file_rules, scope_for, without_slash};
ghost use Rattle.pg_request.specs.Reading.{contents_of};

use pg_glob::{Filter, Glob};
use pg_walk::{Devices, Scope};
use pg_words::{DeviceAction, FileFilter, Request};
use std::alloc::{AllocError, Global};

/// Which part of the trees a request asks for: its globs, read, whether directories are visited (-r) or skipped (-d),
/// whether links are followed below operands (-R), and what is done with devices (-D). The files of globs have these
/// contents. A refused request for memory is the only error.
pub fn read_scope(
    alloc: Global,
    request: &Request<'_>,
    globs: &[Vec<u8>],
) -> Result<Scope, AllocError>
    ensures { IfOk result (λ scope. scope_of scope ≡ scope_for (asked_of request.now) (contents_of globs.now)) }
{
    Ok(Scope {
        recursive: request.recursive,
        follows: request.follows,
        skips_directories: request.skips_directories,
        devices: devices_for(request.devices),
        files: file_filter(alloc, request.filters.as_slice(), globs)?,
        directories: directory_filter(alloc, request.excluded.as_slice())?,
    })
}

/// What is done with devices, by -D.
fn devices_for(action: Option<DeviceAction>) -> Devices
    ensures { result ≡ devices_for action }
{
    match action {
        None => Devices::ReadOperands,
        Some(DeviceAction::Read) => Devices::Read,
        Some(DeviceAction::Skip) => Devices::Skip,
    }
}

/// The filter of files, by --include, --exclude and --exclude-from, whose files have these contents.
fn file_filter(
    alloc: Global,
    filters: &[FileFilter<'_>],
    contents: &[Vec<u8>],
) -> Result<Filter, AllocError>
    ensures { IfOk result (λ filter. rules filter
        ≡ file_rules (filters_of filters.now) (contents_of contents.now)) }
{
    let mut filter = Filter::new(alloc);
    let mut left = contents;
    for asked in filters {
        left = add_rules(alloc, &mut filter, asked, left)?;
    }
    Ok(filter)
}

/// Adds the rules that are asked for, where the next files of globs have these contents. The answer is those of the
/// files behind.
fn add_rules<'c>(
    alloc: Global,
    filter: &mut Filter,
    asked: &FileFilter<'_>,
    contents: &'c [Vec<u8>],
) -> Result<&'c [Vec<u8>], AllocError>
    ensures { IfOk result (λ left. (later : List Asked) → rules filter.new ++ file_rules later (contents_of left.now)
        ≡ rules filter.old ++ file_rules (filter_said asked.now ∷ later) (contents_of contents.now)) }
{
    match asked {
        FileFilter::Include(glob) => {
            let glob = Glob::new(alloc, glob)?;
            filter.push(true, glob)?;
            Ok(contents)
        }
        FileFilter::Exclude(glob) => {
            let left_out = Glob::new(alloc, glob)?;
            filter.push(false, left_out)?;
            Ok(contents)
        }
        FileFilter::ExcludeFrom(_) => match contents.split_first() {
            None => Ok(contents),
            Some((content, left)) => {
                filter.push_lines(alloc, content.as_slice())?;
                Ok(left)
            }
        },
    }
}

/// The filter of directories, by --exclude-dir.
fn directory_filter(alloc: Global, globs: &[&str]) -> Result<Filter, AllocError>
    ensures { IfOk result (λ filter. rules filter ≡ map directory_rule (bytes_of globs.now)) }
{
    let mut filter = Filter::new(alloc);
    for glob in globs {
        let glob = Glob::new(alloc, without_slash(glob))?;
        filter.push(false, glob)?;
    }
    Ok(filter)
}

/// A glob without a slash at its end.
fn without_slash(glob: &str) -> &str
    ensures { result.now ≡ without_slash glob.now }
{
    match glob.strip_suffix('/') {
        Some(front) => front,
        None => glob,
    }
}
