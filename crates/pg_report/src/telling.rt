//! What is told of faults.
ghost use Rattle.std.specs.Prelude.{◌≡◌, ◌++◌, ◌≤◌, codes};
ghost use Rattle.std.specs.List.{flat_map};
ghost use Rattle.pg_grammar.specs.Slices.{bytes_of};
ghost use Rattle.pg_base.specs.Causes.{fault_line as file_line};
ghost use Rattle.pg_report.specs.Shown.{shown_lines, pattern_shown};
ghost use Rattle.pg_report.specs.Told.{IsPlainFault, TellsFault, TellsOfSearch, TellsText, line_of, lines_of_pattern};
ghost use Rattle.pg_report.specs.Told.{pattern_line, plain_line};

use crate::shown::{advice, blanks, byte_at, shown_text};
use itoa::Buffer;
use pg_base::{Cause, Sink, tell, tell_cause};
use pg_grammar::{ListFault, SyntaxFault};
use pg_request::Fault;
use std::alloc::Global;

/// The status of a run that met a fault.
pub const FAULT_STATUS: u8 = 2;

/// What a fault's line says is wrong, where that is neither about a file nor about a pattern.
fn reason_of(fault: Fault<'_>) -> &'static str
    ensures { IsPlainFault fault.entry → line_of fault.entry ≡ plain_line result.now }
{
    match fault {
        Fault::NotText => "an argument is not UTF-8",
        Fault::Usage(fault) => fault.text(),
        Fault::TooLarge => "pattern too large",
        Fault::OutOfMemory => "out of memory",
        Fault::WriteFailed => "write failed",
        Fault::TooManyFiles => "too many files",
        Fault::LineTooLong => "line too long",
        Fault::Unreadable(..) | Fault::Pattern(_) => "",
    }
}

/// Writes the line of a fault to standard error; where that fails, a beginning of it. The answer is 2, the status that
/// the program ends with.
pub fn report<W: Sink>(alloc: Global, fault: Fault<'_>, err: &mut W) -> u8
    ensures status { result ≡ 2 }
    ensures told { TellsFault fault.entry (W.stream err.old) (W.stream err.new) }
{
    match fault {
        Fault::Pattern(fault) => tell_pattern(alloc, fault, err),
        Fault::Unreadable(name, cause) => tell_file(alloc, name, cause, err),
        _ => tell_text(alloc, reason_of(fault), err),
    }
    FAULT_STATUS
}

/// Writes the lines of a fault of a search for the patterns of these texts to standard error: its line, and below that
/// of a pattern the pattern with a mark under the place, and what to write instead, where that is known. A pattern is
/// shown where no text has several, and where it is printable ASCII of at most 200 bytes. Where writing fails, a
/// beginning of the lines.
pub fn tell_of_search<W: Sink>(alloc: Global, texts: &[&str], fault: Fault<'_>, err: &mut W)
    ensures { TellsOfSearch (bytes_of texts.now) fault.entry (W.stream err.old) (W.stream err.new) }
{
    match fault {
        Fault::Pattern(fault) => tell_pattern_of(alloc, texts, fault, err),
        _ => {
            report(alloc, fault, err);
        }
    }
}

/// Writes a line that says what is wrong.
fn tell_text<W: Sink>(alloc: Global, text: &str, err: &mut W)
    ensures { TellsText (plain_line text.now) (W.stream err.old) (W.stream err.new) }
{
    tell_parts(alloc, &[b"pargrep: ", text.as_bytes(), b"\n"], err);
}

/// Writes a text that is given in parts to standard error; where that fails, a beginning of it.
pub fn tell_parts<W: Sink>(alloc: Global, parts: &[&[u8]], err: &mut W)
    ensures { TellsText (flat_map (λ part. part.now) parts.now) (W.stream err.old) (W.stream err.new) }
{
    let _ = tell(alloc, parts, err);
}

/// Writes the line of a file's fault.
fn tell_file<W: Sink>(alloc: Global, name: &str, cause: Cause, err: &mut W)
    ensures { TellsText (file_line name.now cause) (W.stream err.old) (W.stream err.new) }
{
    let _ = tell_cause(alloc, name.as_bytes(), cause, err);
}

/// Writes the line of a pattern's fault, with the number of the pattern and the offset of the fault.
fn tell_pattern<W: Sink>(alloc: Global, fault: ListFault, err: &mut W)
    ensures { TellsText (pattern_line fault) (W.stream err.old) (W.stream err.new) }
{
    let (mut number, mut offset) = (Buffer::new(), Buffer::new());
    let parts = pattern_parts(
        number.format(fault.pattern),
        fault.fault.kind.text(),
        offset.format(fault.fault.at),
    );
    tell_parts(alloc, &parts, err);
}

/// Writes the lines of a pattern's fault, with the pattern, if it is one of these texts and can be shown.
fn tell_pattern_of<W: Sink>(alloc: Global, texts: &[&str], fault: ListFault, err: &mut W)
    ensures { TellsText (lines_of_pattern (pattern_shown (bytes_of texts.now) fault) fault) (W.stream err.old)
        (W.stream err.new) }
{
    match shown_text(texts, fault) {
        Some(text) => tell_shown(alloc, text, fault, err),
        None => tell_pattern(alloc, fault, err),
    }
}

/// Writes the lines of the fault of a pattern with this text, at most 200 bytes behind its start.
fn tell_shown<W: Sink>(alloc: Global, text: &str, fault: ListFault, err: &mut W)
    requires { fault.fault.at ≤ 200 }
    ensures { TellsText (pattern_line fault ++ shown_lines text.now fault) (W.stream err.old) (W.stream err.new) }
{
    let ListFault { pattern, fault } = fault;
    let SyntaxFault { kind, at } = fault;
    let (mut number, mut offset) = (Buffer::new(), Buffer::new());
    let next = byte_at(text, at + 1);
    let parts = shown_parts(
        number.format(pattern),
        kind.text(),
        offset.format(at),
        text,
        blanks(at),
        advice(kind, next),
    );
    tell_parts(alloc, &parts, err);
}

/// The parts of the lines of the fault of a pattern that is shown, in their order.
fn shown_parts<'a>(
    number: &'a str,
    reason: &'a str,
    offset: &'a str,
    text: &'a str,
    blanks: &'a [u8],
    advice: &'a str,
) -> [&'a [u8]; 12]
    ensures { flat_map (λ part. part.now) result ≡ (codes "pargrep: pattern " ++ number.now ++ codes ": " ++ reason.now
        ++ codes " at " ++ offset.now ++ codes "\n") ++ (codes "pargrep:   " ++ text.now ++ codes "\npargrep:   "
        ++ blanks.now ++ codes "^\n" ++ advice.now) }
{
    [
        b"pargrep: pattern ",
        number.as_bytes(),
        b": ",
        reason.as_bytes(),
        b" at ",
        offset.as_bytes(),
        b"\npargrep:   ",
        text.as_bytes(),
        b"\npargrep:   ",
        blanks,
        b"^\n",
        advice.as_bytes(),
    ]
}

/// The parts of the line of a pattern's fault, in their order.
fn pattern_parts<'a>(number: &'a str, text: &'a str, offset: &'a str) -> [&'a [u8]; 7]
    ensures { flat_map (λ part. part.now) result ≡ codes "pargrep: pattern " ++ number.now ++ codes ": " ++ text.now
        ++ codes " at " ++ offset.now ++ codes "\n" }
{
    [
        b"pargrep: pattern ",
        number.as_bytes(),
        b": ",
        text.as_bytes(),
        b" at ",
        offset.as_bytes(),
        b"\n",
    ]
}
