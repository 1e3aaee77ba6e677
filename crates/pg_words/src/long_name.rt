//! Long names of options, in full.
ghost use Rattle.std.specs.Prelude.{◌≡◌, ◌++◌, codes, IfOk, None, Some, option_map};
ghost use Rattle.std.specs.String.{string_bytes};
ghost use Rattle.clap.specs.Lexer.{long_of, name_and_value};
ghost use Rattle.pg_words.specs.Line.{table};
ghost use Rattle.pg_words.specs.Spelled.{full_long, full_name, full_word, is_color, name_word};

use crate::command::{is_name, name_begun};
use crate::spell::behind_first;
use crate::split::byte_at;
use std::alloc::{AllocError, Global};

/// A word with its long name in full, if it has one.
pub(crate) fn full_word(alloc: Global, word: &str) -> Result<String, AllocError>
    ensures { IfOk result (λ text. string_bytes text ≡ full_word table word.now) }
{
    match behind_hyphens(word) {
        Some(text) => full_long(alloc, text),
        None => String::from_str(alloc, word),
    }
}

/// What stands behind two hyphens, if that is anything.
fn behind_hyphens(word: &str) -> Option<&str>
    ensures { option_map (λ text. name_and_value text.now) result ≡ long_of word.now }
{
    if byte_at(word, 0) != b'-' {
        return None;
    }
    if byte_at(word, 1) != b'-' {
        return None;
    }
    if word.len() < 3 {
        return None;
    }
    Some(behind_first(behind_first(word)))
}

/// The word for a long name, which is cut short or not, and the value behind its `=`.
fn full_long(alloc: Global, text: &str) -> Result<String, AllocError>
    ensures { IfOk result (λ word. string_bytes word
        ≡ full_long table (name_and_value text.now).0 (name_and_value text.now).1) }
{
    match text.split_once('=') {
        Some((name, value)) => full_valued(alloc, name, value),
        None => full_alone(alloc, text),
    }
}

/// The word for a long name and a value.
fn full_valued(alloc: Global, name: &str, value: &str) -> Result<String, AllocError>
    ensures { IfOk result (λ word. string_bytes word ≡ full_long table name.now (Some value.now)) }
{
    let mut word = hyphened(alloc, full_name(name))?;
    word.push('=')?;
    word.push_str(value)?;
    Ok(word)
}

/// The word for a long name.
fn full_alone(alloc: Global, name: &str) -> Result<String, AllocError>
    ensures { IfOk result (λ word. string_bytes word ≡ full_long table name.now None) }
{
    name_word(alloc, full_name(name))
}

/// The word for a long name in full.
fn name_word(alloc: Global, name: &str) -> Result<String, AllocError>
    ensures { IfOk result (λ word. string_bytes word ≡ name_word name.now) }
{
    if name == "recursive" {
        return String::from_str(alloc, "--directories=recurse");
    }
    if name == "dereference-recursive" {
        return String::from_str(alloc, "-R");
    }
    if is_color(name) {
        return String::from_str(alloc, "--color=auto");
    }
    hyphened(alloc, name)
}

/// Whether this is a name of the option that may have a value or not.
fn is_color(name: &str) -> bool
    ensures { result ≡ is_color name.now }
{
    name == "color" || name == "colour"
}

/// A name behind two hyphens.
fn hyphened(alloc: Global, name: &str) -> Result<String, AllocError>
    ensures { IfOk result (λ word. string_bytes word ≡ codes "--" ++ name.now) }
{
    let mut word = String::from_str(alloc, "--")?;
    word.push_str(name)?;
    Ok(word)
}

/// The long name that is cut short so, and else the name as it is.
fn full_name(name: &str) -> &str
    ensures { result.now ≡ full_name table name.now }
{
    if is_name(name) {
        return name;
    }
    name_begun(name).unwrap_or(name)
}
