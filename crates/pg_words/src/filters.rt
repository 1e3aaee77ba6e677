//! Which files are searched by their names: `clap` collects --include, --exclude and --exclude-from apart, and their
//! order counts.
ghost use Rattle.std.specs.Prelude.{◌≡◌, ◌++◌, IfOk, List, OnOk, Some, map};
ghost use Rattle.std.specs.String.{string_bytes};
ghost use Rattle.pg_words.specs.Filters.{filter_or_none, filters_of};
ghost use Rattle.pg_words.specs.Joined.{asked, word};
ghost use Rattle.pg_words.specs.Line.{filters_in, table, Use};

use crate::request::FileFilter;
use crate::split::words_before_mark;
use std::alloc::{AllocError, Global};

/// --include, --exclude and --exclude-from in joined words, in their order.
pub(crate) fn filters_of<'a>(
    alloc: Global,
    words: &'a [String],
) -> Result<Vec<FileFilter<'a>>, AllocError>
    ensures { IfOk result (λ filters. (us : List Use) → asked table (map string_bytes words.now) ≡ Some us
        → filters_of filters.items ≡ filters_in us) }
{
    let mut filters = Vec::new(alloc);
    for word in words_before_mark(words) {
        add_filter(&mut filters, word.as_str())?;
    }
    Ok(filters)
}

/// Adds the filter of a word, if it is --include, --exclude or --exclude-from.
fn add_filter<'a>(filters: &mut Vec<FileFilter<'a>>, part: &'a str) -> Result<(), AllocError>
    ensures { OnOk result ((us : List Use) → word table part.now ≡ Some us
        → filters_of filters.new.items ≡ filters_of filters.old.items ++ filters_in us) }
{
    if let Some(filter) = filter_of(part) {
        filters.push(filter)?;
    }
    Ok(())
}

/// The filter of a word, if it is --include, --exclude or --exclude-from.
fn filter_of(part: &str) -> Option<FileFilter<'_>>
    ensures { (us : List Use) → word table part.now ≡ Some us → filter_or_none result ≡ filters_in us }
{
    let (option, value) = part.split_once('=')?;
    if option == "--include" {
        return Some(FileFilter::Include(value));
    }
    if option == "--exclude" {
        return Some(FileFilter::Exclude(value));
    }
    if option == "--exclude-from" {
        return Some(FileFilter::ExcludeFrom(value));
    }
    None
}
