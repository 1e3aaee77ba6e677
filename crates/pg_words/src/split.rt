//! Words of a command line, joined so that the value of an option stands in the option's word.
ghost use Rattle.std.specs.Prelude.{◌≡◌, ◌++◌, ◌∷◌, ◌<◌, ◌-◌, ◌==◌, true, IfOk, map, List, ℕ};
ghost use Rattle.std.specs.Prelude.{◌+◌, false, slice_index, option_map, OnOk, []};
ghost use Rattle.std.specs.List.{before_first, position_or_len};
ghost use Rattle.std.specs.String.{string_bytes};
ghost use Rattle.clap.specs.Lexer.{has_byte};
ghost use Rattle.pg_words.specs.Joined.{asked, behind_text, complete, joined_from, joined_word};
ghost use Rattle.pg_words.specs.Joined.{letter_takes_value, value_cut};
ghost use Rattle.pg_words.specs.Joined.{waits, Free};
ghost use Rattle.pg_words.specs.Places.{next_word_of};
ghost use Rattle.pg_words.specs.Line.{is_mark, table};
ghost use Rattle.pg_words.specs.Spelled.{uses_in};

use crate::command::{letter_has_value, name_has_value};
use crate::spell::spell;
use std::alloc::{AllocError, Global};

/// The words of a command line without the program's name, each letter in a word of its own, long names in full, and
/// each value of an option in the option's word, behind `=`: `-ve x` and `-vex` are the words `-v` and `-e=x`, `-v5` is
/// `-v` and `-C=5`, and `--file x` and `--fil x` are `--file=x`.
///
/// So `clap` takes no value for an option, and drops no `=` with which a value begins.
#[derive(Drop)]
pub struct Words {
    parts: Vec<String>,
    ghost complete: { complete table (map string_bytes parts.items) ≡ true },
}

/// What the next word is.
#[derive(Clone, Copy)]
pub(crate) enum Place<'a> {
    /// An option or an operand.
    Free,
    /// The value of the option at the end of this word.
    Value(&'a str),
    /// An operand, since it stands behind `--`.
    Operand,
}

impl Words {
    /// Joins the words.
    ///
    /// # Errors
    ///
    /// Where a request for memory was refused.
    pub fn new(alloc: Global, words: &[String]) -> Result<Words, AllocError>
        ensures { IfOk result (λ joined. asked table (map string_bytes joined.parts.items)
            ≡ uses_in (map string_bytes words.now)) }
    {
        let spelled = spell(alloc, words)?;
        let parts = join(alloc, spelled.as_slice())?;
        Ok(Words { parts })
    }

    /// The words in their order.
    pub(crate) fn as_slice(&self) -> &[String]
        ensures { result.now ≡ self.now.parts.items }
    {
        self.parts.as_slice()
    }
}

/// The words, joined.
fn join(alloc: Global, words: &[String]) -> Result<Vec<String>, AllocError>
    ensures { IfOk result (λ parts. map string_bytes parts.items
        ≡ joined_from table Free (map string_bytes words.now)) }
{
    let mut parts = Vec::with_capacity(alloc, words.len())?;
    let mut place = Place::Free;
    for word in words {
        place = add_word(alloc, &mut parts, place, word.as_str())?;
    }
    add_last(alloc, &mut parts, place)?;
    Ok(parts)
}

/// Adds the word whose option waits in vain for its value, if there is one.
fn add_last(alloc: Global, parts: &mut Vec<String>, place: Place<'_>) -> Result<(), AllocError>
    ensures { OnOk result (map string_bytes parts.new.items
        ≡ map string_bytes parts.old.items ++ joined_from table (next_word_of place.entry) []) }
{
    match place {
        Place::Value(option) => add_copy(alloc, parts, option),
        _ => Ok(()),
    }
}

/// Adds what a word is part of, unless that waits for the next word, and says what the next word is.
fn add_word<'a>(
    alloc: Global,
    parts: &mut Vec<String>,
    place: Place<'a>,
    word: &'a str,
) -> Result<Place<'a>, AllocError>
    ensures { IfOk result (λ next. (rest : List (List ℕ))
        → map string_bytes parts.new.items ++ joined_from table (next_word_of next) rest
        ≡ map string_bytes parts.old.items ++ joined_from table (next_word_of place.entry) (word.entry.now ∷ rest)) }
{
    match place {
        Place::Value(option) => {
            add_joined(alloc, parts, option, word)?;
            Ok(Place::Free)
        }
        Place::Operand => {
            add_copy(alloc, parts, word)?;
            Ok(Place::Operand)
        }
        Place::Free if is_mark(word) => {
            add_copy(alloc, parts, word)?;
            Ok(Place::Operand)
        }
        Place::Free if waits(word) => Ok(Place::Value(word)),
        Place::Free => {
            add_joined(alloc, parts, word, "")?;
            Ok(Place::Free)
        }
    }
}

/// Adds a word as it is.
pub(crate) fn add_copy(alloc: Global, parts: &mut Vec<String>, word: &str) -> Result<(), AllocError>
    ensures { OnOk result (map string_bytes parts.new.items ≡ map string_bytes parts.old.items ++ word.now ∷ []) }
{
    parts.push(String::from_str(alloc, word)?)?;
    Ok(())
}

/// Adds a word with the value that it waits for, if it waits for one.
fn add_joined(
    alloc: Global,
    parts: &mut Vec<String>,
    word: &str,
    value: &str,
) -> Result<(), AllocError>
    ensures { OnOk result (map string_bytes parts.new.items
        ≡ map string_bytes parts.old.items ++ joined_word table word.now value.now ∷ []) }
{
    parts.push(joined_word(alloc, word, value)?)?;
    Ok(())
}

/// A word with the value that it waits for, if it waits for one.
fn joined_word(alloc: Global, word: &str, value: &str) -> Result<String, AllocError>
    ensures { IfOk result (λ text. string_bytes text ≡ joined_word table word.now value.now) }
{
    match value_cut(word) {
        Some((option, inner)) => joined(alloc, option, inner_or(inner, value)),
        None => String::from_str(alloc, word),
    }
}

/// The text behind an option in its word, and else the value.
fn inner_or<'a>(inner: &'a str, value: &'a str) -> &'a str
    ensures { behind_text inner.now (61 ∷ value.now) ≡ 61 ∷ result.now }
{
    if inner.is_empty() {
        return value;
    }
    inner
}

/// An option and its value.
fn joined(alloc: Global, option: &str, value: &str) -> Result<String, AllocError>
    ensures { IfOk result (λ text. string_bytes text ≡ option.now ++ 61 ∷ value.now) }
{
    let mut text = String::from_str(alloc, option)?;
    text.push('=')?;
    text.push_str(value)?;
    Ok(text)
}

/// Whether the word ends with an option that waits for its value.
pub(crate) fn waits(word: &str) -> bool
    ensures { result ≡ waits table word.now }
{
    match value_cut(word) {
        Some((_, inner)) => inner.is_empty(),
        None => false,
    }
}

/// An option with a value at the end of the word, or the option of a letter in it, and the text behind it.
fn value_cut(word: &str) -> Option<(&str, &str)>
    ensures { option_map (λ cut. (cut.0.now, cut.1.now)) result ≡ value_cut table word.now }
{
    if byte_at(word, 0) != b'-' {
        return None;
    }
    if byte_at(word, 1) == b'-' {
        return long_cut(word);
    }
    letter_cut(word)
}

/// The word, with no text behind it, where it is a long option that takes a value and has no `=`.
fn long_cut(word: &str) -> Option<(&str, &str)>
    requires { (slice_index word.now 0 ≡ 45) × (slice_index word.now 1 ≡ 45) }
    ensures { option_map (λ cut. (cut.0.now, cut.1.now)) result ≡ value_cut table word.now }
{
    let (_, name) = word.split_at(2);
    if has_equals(name) {
        return None;
    }
    if name_has_value(name) {
        return Some((word, ""));
    }
    None
}

/// Whether there is a `=`, behind which a value stands.
fn has_equals(name: &str) -> bool
    ensures { result ≡ has_byte 61 name.now }
{
    name.as_bytes().contains(&b'=')
}

/// A word that begins with one hyphen, cut behind the first letter whose option takes a value, if it has one.
fn letter_cut(word: &str) -> Option<(&str, &str)>
    requires { (slice_index word.now 0 ≡ 45) × ((slice_index word.now 1 == 45) ≡ false) }
    ensures { option_map (λ cut. (cut.0.now, cut.1.now)) result ≡ value_cut table word.now }
{
    let start = value_start(word);
    if start <= word.len() {
        return Some(word.split_at(start));
    }
    None
}

/// The words before `--`, or all of them where there is none.
pub(crate) fn words_before_mark(words: &[String]) -> &[String]
    ensures { result.now ≡ before_first (λ word. is_mark (string_bytes word)) words.now }
{
    let end = words
        .iter()
        .position(|word| is_mark(word.as_str()))
        .unwrap_or(words.len());
    &words[..end]
}

/// Whether the word is `--`.
pub(crate) fn is_mark(word: &str) -> bool
    ensures { result ≡ is_mark word.now }
{
    word == "--"
}

/// The byte at an offset, and 0 behind the end.
pub(crate) fn byte_at(word: &str, at: usize) -> u8
    ensures { result ≡ slice_index word.now at }
{
    word.as_bytes().get(at).copied().unwrap_or(0)
}

/// The offset behind the first letter whose option has a value; one more than the end where there is none.
fn value_start(word: &str) -> usize
    ensures { result ≡ position_or_len letter_takes_value word.now + 1 }
{
    for (at, letter) in word.as_bytes().iter().enumerate() {
        if letter_has_value(*letter) {
            return at + 1;
        }
    }
    word.len() + 1
}
