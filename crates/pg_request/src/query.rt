//! What a request searches for.
ghost use Rattle.std.specs.Prelude.{◌≡◌, ◌++◌, map, IfOk};
ghost use Rattle.pg_grammar.specs.Memory.{patterns_of};
ghost use Rattle.pg_grammar.specs.Slices.{bytes_of};
ghost use Rattle.pg_selection.specs.Search.{Split};
ghost use Rattle.pg_request.specs.Asked.{asked_of, text_with, wants_parts};

use pg_grammar::PatternList;
use pg_selection::QueryText;
use pg_words::Request;
use std::alloc::{AllocError, Global};

/// What a request searches for where its -f files hold these lists of patterns. A refused request for memory is the
/// only error.
pub fn text_of(
    alloc: Global,
    request: &Request<'_>,
    files: Vec<PatternList>,
) -> Result<QueryText, AllocError>
    ensures { IfOk result (λ text. text ≡ text_with (asked_of request.now) (map patterns_of files.items)) }
{
    let lists = lists_of(alloc, request.texts.as_slice(), files)?;
    Ok(QueryText {
        kind: request.kind,
        lists,
        fold: request.fold,
        whole: request.whole,
        word: request.word,
        invert: request.invert,
        with_parts: wants_parts(request),
        zero: request.zero,
    })
}

/// Whether the matched parts of lines are wanted: with -o, and where those of selected lines are colored.
fn wants_parts(request: &Request<'_>) -> bool
    ensures { result ≡ wants_parts (asked_of request.now) }
{
    let format = &request.format;
    request.parts || format.colored && format.mode.shows_rows() && !request.invert
}

/// All lists of patterns: the texts, and then the files.
fn lists_of(
    alloc: Global,
    texts: &[&str],
    mut files: Vec<PatternList>,
) -> Result<Vec<PatternList>, AllocError>
    ensures { IfOk result (λ lists. map patterns_of lists.items
        ≡ map Split (bytes_of texts.now) ++ map patterns_of files.items) }
{
    let mut all = text_lists(alloc, texts)?;
    all.append(&mut files)?;
    Ok(all)
}

/// A list of patterns for each text.
fn text_lists(alloc: Global, texts: &[&str]) -> Result<Vec<PatternList>, AllocError>
    ensures { IfOk result (λ lists. map patterns_of lists.items ≡ map Split (bytes_of texts.now)) }
{
    let mut lists = Vec::new(alloc);
    for text in texts {
        let bytes = Vec::from_slice(alloc, text.as_bytes())?;
        lists.push(PatternList::Text(bytes))?;
    }
    Ok(lists)
}
