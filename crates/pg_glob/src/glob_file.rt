//! Files of globs.
ghost use Rattle.std.specs.Prelude.{◌≡◌, ◌++◌, OnOk, OnErr};
ghost use Rattle.pg_glob.specs.GlobFiles.{is_blank, rule_in, rules_in, without_blanks, AddsFirst};
ghost use Rattle.pg_glob.specs.Views.{rules};

use crate::filter::Filter;
use crate::glob::Glob;
use crate::reading::parts_of;
use std::alloc::{AllocError, Allocator};

impl<A: Allocator> Filter<A> {
    /// Adds the rules of a file of globs: what the glob on a line matches is left out. Blanks at the end of a line
    /// don't count, and a line that has nothing else is no glob.
    ///
    /// # Errors
    ///
    /// `AllocError` where a request for memory was refused. The rules of some lines at the front may be added then.
    pub fn push_lines(&mut self, alloc: A, text: &[u8]) -> Result<(), AllocError>
    where
        A: Copy,
        ensures ok { OnOk result (rules self.new ≡ rules self.old ++ rules_in text.now) }
        ensures err { OnErr result (AddsFirst (rules_in text.now) (rules self.old) (rules self.new)) }
    {
        let mut line = Vec::new(alloc);
        let mut left = text;
        while let Some((byte, rest)) = left.split_first() {
            if *byte == b'\n' {
                push_line(alloc, self, line.as_slice())?;
                line.clear();
            } else {
                line.push(*byte)?;
            }
            left = rest;
        }
        push_line(alloc, self, line.as_slice())
    }
}

/// Adds the rule of a line, if it has a glob. An `Err` changes nothing.
fn push_line<A: Allocator>(alloc: A, filter: &mut Filter<A>, line: &[u8]) -> Result<(), AllocError>
    ensures ok { OnOk result (rules filter.new ≡ rules filter.old ++ rule_in (without_blanks line.now)) }
    ensures err { OnErr result (rules filter.new ≡ rules filter.old) }
{
    let text = without_blanks(line);
    if text.is_empty() {
        return Ok(());
    }
    let parts = parts_of(alloc, text)?;
    filter.push(false, Glob { parts })
}

/// A line without the blanks at its end.
fn without_blanks(line: &[u8]) -> &[u8]
    ensures { result.now ≡ without_blanks line.now }
{
    let mut text = line;
    while let Some((byte, front)) = text.split_last() {
        if !is_blank(*byte) {
            return text;
        }
        text = front;
    }
    text
}

/// Whether a byte is a space, or one from the tab to the carriage return.
fn is_blank(byte: u8) -> bool
    ensures { result ≡ is_blank byte }
{
    byte == b' ' || byte > 8 && byte < 14
}
