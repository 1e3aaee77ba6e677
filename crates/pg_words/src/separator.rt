//! The text between groups of lines: of several options the last one says it, and `clap` doesn't tell which of them
//! that is.
ghost use Rattle.std.specs.Prelude.{◌≡◌, List, Some, map, option_and_then, option_map};
ghost use Rattle.std.specs.String.{string_bytes};
ghost use Rattle.pg_rows.specs.Separator.{separator_for};
ghost use Rattle.pg_words.specs.Joined.{asked, word};
ghost use Rattle.pg_words.specs.Line.{separator_after, separator_in, table, Use};

use crate::split::words_before_mark;
use pg_rows::Separator;

/// What the last of --group-separator and --no-group-separator in joined words asks for: a separator that can hold its
/// text, or none.
pub(crate) fn separator_of(words: &[String]) -> Option<Separator>
    ensures { (us : List Use) → asked table (map string_bytes words.now) ≡ Some us
        → result ≡ option_and_then separator_for (separator_in us) }
{
    match text_of(words) {
        Some(text) => Separator::new(text.as_bytes()),
        None => None,
    }
}

/// Its text, whatever its length.
fn text_of(words: &[String]) -> Option<&str>
    ensures { (us : List Use) → asked table (map string_bytes words.now) ≡ Some us
        → option_map (λ text. text.now) result ≡ separator_in us }
{
    let mut last = Some("--");
    for word in words_before_mark(words) {
        last = text_behind(word.as_str(), last);
    }
    last
}

/// The text behind a word, by the text before it.
fn text_behind<'a>(part: &'a str, before: Option<&'a str>) -> Option<&'a str>
    ensures { (us : List Use) → word table part.now ≡ Some us → option_map (λ text. text.now) result
        ≡ separator_after us (option_map (λ text. text.now) before.entry) }
{
    if part == "--no-group-separator" {
        return None;
    }
    match part.split_once('=') {
        Some((option, text)) => {
            if option == "--group-separator" {
                return Some(text);
            }
            before
        }
        None => before,
    }
}
