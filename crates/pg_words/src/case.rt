//! Whether case is ignored: of several options the last one says it, and `clap` doesn't tell which of them that is.
ghost use Rattle.std.specs.Prelude.{◌≡◌, List, Some, map};
ghost use Rattle.std.specs.String.{string_bytes};
ghost use Rattle.pg_words.specs.Joined.{asked, case_letters, word};
ghost use Rattle.pg_words.specs.Line.{case_after, ignores_case, table, Use};

use crate::command::letter_has_value;
use crate::spell::letters_of;
use crate::split::words_before_mark;

/// Whether the last of -i, --ignore-case and --no-ignore-case in joined words is one of the first two.
pub(crate) fn ignores_case(words: &[String]) -> bool
    ensures { (us : List Use) → asked table (map string_bytes words.now) ≡ Some us → result ≡ ignores_case us }
{
    let mut ignored = false;
    for word in words_before_mark(words) {
        ignored = case_behind(word.as_str(), ignored);
    }
    ignored
}

/// Whether case is ignored behind a word, by whether it was before it.
fn case_behind(part: &str, before: bool) -> bool
    ensures { (us : List Use) → word table part.now ≡ Some us → result ≡ case_after us before }
{
    if part == "--ignore-case" {
        return true;
    }
    if part == "--no-ignore-case" {
        return false;
    }
    match letters_of(part) {
        Some(letters) => before || has_case_letter(letters),
        None => before,
    }
}

/// Whether -i is among letters, the last of which may have a value behind it.
fn has_case_letter(letters: &str) -> bool
    ensures { result ≡ case_letters letters.now }
{
    for letter in letters.as_bytes() {
        if letter_has_value(*letter) {
            return false;
        }
        if *letter == b'i' {
            return true;
        }
    }
    false
}
