//! Words of a command line, spelled out: each letter in a word of its own, -y as -i, -r as -d recurse, -R as itself and
//! that, a number as that of -C, and long names in full.
ghost use Rattle.std.specs.Prelude.{◌≡◌, ◌++◌, ◌∷◌, ◌<◌, ◌≤◌, ◌||◌, length, slice_index, true, IfOk, OnOk};
ghost use Rattle.std.specs.Prelude.{List, ℕ, map, option_map, []};
ghost use Rattle.std.specs.Char.{is_ascii_digit};
ghost use Rattle.std.specs.String.{string_bytes};
ghost use Rattle.clap.specs.Lexer.{short_of};
ghost use Rattle.pg_words.specs.Joined.{Free};
ghost use Rattle.pg_words.specs.Line.{by_letter, table};
ghost use Rattle.pg_words.specs.Places.{next_word_of};
ghost use Rattle.pg_words.specs.Spelled.{flag_words, full_word, is_flag, letter_words, newer_letter, number_words};
ghost use Rattle.pg_words.specs.Spelled.{place_behind};
ghost use Rattle.pg_words.specs.Spelled.{rest_word, spelled_from, spelled_word};

use crate::command::letter_is_flag;
use crate::long_name::full_word;
use crate::split::{Place, add_copy, byte_at, is_mark, waits};
use std::alloc::{AllocError, Global};

/// The words, spelled out.
pub(crate) fn spell(alloc: Global, words: &[String]) -> Result<Vec<String>, AllocError>
    ensures { IfOk result (λ parts. map string_bytes parts.items
        ≡ spelled_from table Free (map string_bytes words.now)) }
{
    let mut parts = Vec::with_capacity(alloc, words.len())?;
    let mut place = Place::Free;
    for word in words {
        place = add_spelled(alloc, &mut parts, place, word.as_str())?;
    }
    Ok(parts)
}

/// Adds a word, spelled out unless it is a value or stands behind `--`, and says what the next word is.
fn add_spelled<'a>(
    alloc: Global,
    parts: &mut Vec<String>,
    place: Place<'a>,
    word: &'a str,
) -> Result<Place<'a>, AllocError>
    ensures { IfOk result (λ next. (rest : List (List ℕ))
        → map string_bytes parts.new.items ++ spelled_from table (next_word_of next) rest
        ≡ map string_bytes parts.old.items ++ spelled_from table (next_word_of place.entry) (word.entry.now ∷ rest)) }
{
    match place {
        Place::Value(_) => {
            add_copy(alloc, parts, word)?;
            Ok(Place::Free)
        }
        Place::Operand => {
            add_copy(alloc, parts, word)?;
            Ok(Place::Operand)
        }
        Place::Free if is_mark(word) => {
            add_copy(alloc, parts, word)?;
            Ok(Place::Operand)
        }
        Place::Free => add_free(alloc, parts, word),
    }
}

/// Adds a word in a free place, spelled out, and says what follows it: the value of its last option, if that waits
/// for it.
fn add_free<'a>(
    alloc: Global,
    parts: &mut Vec<String>,
    word: &'a str,
) -> Result<Place<'a>, AllocError>
    ensures { IfOk result (λ next. (next_word_of next ≡ place_behind table word.entry.now)
        × (map string_bytes parts.new.items
        ≡ map string_bytes parts.old.items ++ spelled_word table (full_word table word.entry.now))) }
{
    let full = full_word(alloc, word)?;
    let part = full.as_str();
    add_word_spelled(alloc, parts, part)?;
    if waits(part) {
        return Ok(Place::Value(word));
    }
    Ok(Place::Free)
}

/// Adds a word, spelled out.
fn add_word_spelled(alloc: Global, parts: &mut Vec<String>, word: &str) -> Result<(), AllocError>
    ensures { OnOk result (map string_bytes parts.new.items
        ≡ map string_bytes parts.old.items ++ spelled_word table word.now) }
{
    match letters_of(word) {
        Some(letters) => add_letters(alloc, parts, word, letters),
        None => add_copy(alloc, parts, word),
    }
}

/// What stands behind the one hyphen of a word; nothing of an operand, of `-` and of a long name.
pub(crate) fn letters_of(word: &str) -> Option<&str>
    ensures { option_map (λ letters. letters.now) result ≡ short_of word.now }
{
    if byte_at(word, 0) != b'-' {
        return None;
    }
    if byte_at(word, 1) == b'-' {
        return None;
    }
    if word.len() < 2 {
        return None;
    }
    Some(behind_first(word))
}

/// What stands behind the hyphen at the head of a word.
pub(crate) fn behind_first(word: &str) -> &str
    requires hyphen { slice_index word.now 0 ≡ 45 }
    requires letters { 2 ≤ length word.now }
    ensures { word.now ≡ 45 ∷ result.now }
{
    let (_, letters) = word.split_at(1);
    letters
}

/// Adds the words for the letters of a word, up to the first that has none of its own.
fn add_letters(
    alloc: Global,
    parts: &mut Vec<String>,
    word: &str,
    letters: &str,
) -> Result<(), AllocError>
    ensures { OnOk result (map string_bytes parts.new.items
        ≡ map string_bytes parts.old.items ++ letter_words table word.now [] letters.now) }
{
    let mut digits = String::new(alloc);
    for (at, letter) in letters.as_bytes().iter().enumerate() {
        if !has_own_word(*letter) {
            let (_, rest) = letters.split_at(at);
            return add_rest(alloc, parts, digits.as_str(), word, rest);
        }
        add_letter(alloc, parts, &mut digits, *letter)?;
    }
    add_number(alloc, parts, digits.as_str())
}

/// Whether this is a digit, or the letter of an option without a value.
fn has_own_word(letter: u8) -> bool
    ensures { result ≡ (is_ascii_digit letter || is_flag (by_letter table (newer_letter letter))) }
{
    letter.is_ascii_digit() || letter_is_flag(newer_letter(letter))
}

/// The letter that this one is another name of.
fn newer_letter(letter: u8) -> u8
    ensures { result ≡ newer_letter letter }
{
    if letter == b'y' { b'i' } else { letter }
}

/// Adds a digit to those that stand before it, or the words for them and for a letter.
fn add_letter(
    alloc: Global,
    parts: &mut Vec<String>,
    digits: &mut String,
    letter: u8,
) -> Result<(), AllocError>
    requires { (is_ascii_digit letter || is_flag (by_letter table (newer_letter letter))) ≡ true }
    ensures { OnOk result ((word rest : List ℕ)
        → map string_bytes parts.new.items ++ letter_words table word (string_bytes digits.new) rest
        ≡ map string_bytes parts.old.items ++ letter_words table word (string_bytes digits.old) (letter ∷ rest)) }
{
    if letter.is_ascii_digit() {
        return digits.push(char::from(letter));
    }
    add_flag(alloc, parts, digits.as_str(), newer_letter(letter))?;
    digits.clear();
    Ok(())
}

/// Adds the words for digits and the option of a letter behind them.
fn add_flag(
    alloc: Global,
    parts: &mut Vec<String>,
    digits: &str,
    letter: u8,
) -> Result<(), AllocError>
    requires { letter < 128 }
    ensures { OnOk result (map string_bytes parts.new.items
        ≡ map string_bytes parts.old.items ++ number_words digits.now ++ flag_words letter) }
{
    add_number(alloc, parts, digits)?;
    if letter == b'r' {
        return add_copy(alloc, parts, "-drecurse");
    }
    if letter == b'R' {
        add_copy(alloc, parts, "-R")?;
        return add_copy(alloc, parts, "-drecurse");
    }
    parts.push(letter_word(alloc, letter)?)?;
    Ok(())
}

/// A letter behind a hyphen.
fn letter_word(alloc: Global, letter: u8) -> Result<String, AllocError>
    requires { letter < 128 }
    ensures { IfOk result (λ word. string_bytes word ≡ 45 ∷ letter ∷ []) }
{
    let mut word = String::from_str(alloc, "-")?;
    word.push(char::from(letter))?;
    Ok(word)
}

/// Adds the words for digits and for the rest of their word. A rest that begins with a hyphen
/// would be a long name behind one more, so the whole word stays as it is, and is refused.
fn add_rest(
    alloc: Global,
    parts: &mut Vec<String>,
    digits: &str,
    word: &str,
    rest: &str,
) -> Result<(), AllocError>
    ensures { OnOk result (map string_bytes parts.new.items
        ≡ map string_bytes parts.old.items ++ number_words digits.now ++ rest_word word.now rest.now ∷ []) }
{
    add_number(alloc, parts, digits)?;
    if byte_at(rest, 0) == b'-' {
        return add_copy(alloc, parts, word);
    }
    let mut text = String::from_str(alloc, "-")?;
    text.push_str(rest)?;
    parts.push(text)?;
    Ok(())
}

/// Adds the word for digits, if there are any.
fn add_number(alloc: Global, parts: &mut Vec<String>, digits: &str) -> Result<(), AllocError>
    ensures { OnOk result (map string_bytes parts.new.items
        ≡ map string_bytes parts.old.items ++ number_words digits.now) }
{
    if digits.is_empty() {
        return Ok(());
    }
    let mut text = String::from_str(alloc, "-C")?;
    text.push_str(digits)?;
    parts.push(text)?;
    Ok(())
}
