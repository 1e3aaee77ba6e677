//! The pattern of a fault, as it is shown: its text, and what to write instead.
ghost use Rattle.std.specs.Prelude.{◌≡◌, ◌≤◌, IfSome, option_map, replicate, slice_index, true};
ghost use Rattle.std.specs.List.{list_all, list_any};
ghost use Rattle.pg_grammar.specs.Slices.{bytes_of};
ghost use Rattle.pg_report.specs.Shown.{advice, escape_advice, has_newline, interval_advice, is_printable};
ghost use Rattle.pg_report.specs.Shown.{can_be_shown};
ghost use Rattle.pg_report.specs.Shown.{pattern_text, pattern_shown};

use pg_grammar::{FaultKind, ListFault};

/// The longest pattern that is shown, in bytes.
const MAX_SHOWN: usize = 200;

/// Blanks in front of a mark.
static BLANKS: [u8; MAX_SHOWN] = [b' '; MAX_SHOWN];

/// The text of a pattern with a fault, where it can be shown: it has at most 200 bytes, which are printable ASCII, and
/// no text has several patterns.
pub(crate) fn shown_text<'a>(texts: &[&'a str], fault: ListFault) -> Option<&'a str>
    ensures exact { option_map (λ text. text.now) result ≡ pattern_shown (bytes_of texts.now) fault }
    ensures within { IfSome result (λ _. fault.fault.at ≤ 200) }
{
    match pattern_text(texts, fault.pattern) {
        Some(text) if is_shown(text, fault.fault.at) => Some(text),
        _ => None,
    }
}

/// The text of the pattern of this number, counted from 1, where each text is one pattern.
fn pattern_text<'a>(texts: &[&'a str], number: usize) -> Option<&'a str>
    ensures { option_map (λ text. text.now) result ≡ pattern_text (bytes_of texts.now) number }
{
    if some_has_newline(texts) {
        return None;
    }
    texts.get(number.saturating_sub(1)).copied()
}

/// Whether a newline separates patterns in one of these texts.
fn some_has_newline(texts: &[&str]) -> bool
    ensures { result ≡ list_any has_newline (bytes_of texts.now) }
{
    for text in texts {
        if has_newline(text) {
            return true;
        }
    }
    false
}

/// Whether a newline separates patterns in a text.
fn has_newline(text: &str) -> bool
    ensures { result ≡ has_newline text.now }
{
    text.as_bytes().iter().any(|byte| *byte == b'\n')
}

/// Whether a text can be shown on one line, with a mark under the place or right behind the text.
fn is_shown(text: &str, at: usize) -> bool
    ensures exact { result ≡ can_be_shown text.now at }
    ensures within { result ≡ true → at ≤ 200 }
{
    text.len() <= MAX_SHOWN && at <= text.len() && are_printable(text.as_bytes())
}

/// Whether all bytes are printable ASCII.
fn are_printable(bytes: &[u8]) -> bool
    ensures { result ≡ list_all is_printable bytes.now }
{
    bytes.iter().all(|byte| is_printable(*byte))
}

/// Whether a byte is printable ASCII.
fn is_printable(byte: u8) -> bool
    ensures { result ≡ is_printable byte }
{
    byte >= b' ' && byte <= b'~'
}

/// A text of `count` blanks, which are at most 200.
pub(crate) fn blanks(count: usize) -> &'static [u8]
    requires { count ≤ 200 }
    ensures { result.now ≡ replicate count 32 }
{
    &BLANKS[..count]
}

/// The byte at an offset, and 0 behind the end.
pub(crate) fn byte_at(text: &str, at: usize) -> u8
    ensures { result ≡ slice_index text.now at }
{
    text.as_bytes().get(at).copied().unwrap_or(0)
}

/// The line that says what to write instead, by the byte behind the place; nothing where there is no such line.
pub(crate) fn advice(kind: FaultKind, next: u8) -> &'static str
    ensures { result.now ≡ advice kind next }
{
    match kind {
        FaultKind::BadEscape => escape_advice(next),
        FaultKind::BadInterval => interval_advice(next),
        _ => "",
    }
}

/// What to write in place of a backslash and this byte.
fn escape_advice(byte: u8) -> &'static str
    ensures { result.now ≡ escape_advice byte }
{
    if byte == b'|' {
        "pargrep: for alternatives use -E\n"
    } else if byte == b'+' || byte == b'?' {
        "pargrep: for + and ? use -E\n"
    } else if byte == b'w' {
        "pargrep: use [[:alnum:]_]\n"
    } else if byte == b'W' {
        "pargrep: use [^[:alnum:]_]\n"
    } else if byte == b's' {
        "pargrep: use [[:space:]]\n"
    } else if byte == b'S' {
        "pargrep: use [^[:space:]]\n"
    } else if byte == b'<' || byte == b'>' || byte == b'b' {
        "pargrep: for whole words use -w\n"
    } else {
        ""
    }
}

/// What to write in place of an interval that begins with this byte.
fn interval_advice(byte: u8) -> &'static str
    ensures { result.now ≡ interval_advice byte }
{
    if byte == b',' {
        "pargrep: use {0,N} in place of {,N}\n"
    } else {
        ""
    }
}
