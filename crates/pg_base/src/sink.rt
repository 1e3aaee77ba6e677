//! What takes bytes and tells which it took.
ghost use Rattle.std.specs.Prelude.{◌+◌, ◌<◌, length, OnErr};
ghost use Rattle.pg_base.specs.Sink.{Writes, Flushes, WritesText};

use thiserror::Error;

/// A write that failed.
#[derive(Clone, Copy, Debug, PartialEq, Eq, Error)]
#[error("write failed")]
pub struct WriteError;

/// A writer that tells contracts which bytes it took and how often it failed.
pub trait Sink {
    ghost use Rattle.pg_base.specs.Sink.{Stream};

    /// The bytes that it took, one after another, and how often a write failed, or took no byte of a text that isn't
    /// empty.
    ghost stream: { Self → Stream };

    /// Takes a beginning of the text.
    ///
    /// `Ok(k)` says that it took the first k bytes, at most all of them. `Ok(0)` for a text that
    /// isn't empty is a failure as an `Err` is: the next write may fare no better.
    ///
    /// # Errors
    ///
    /// `WriteError` where the write failed. No byte was taken then.
    fn write(&mut self, text: &[u8]) -> Result<usize, WriteError>
        ensures { Writes text.now (stream self.old) (stream self.new) result };

    /// Sends on what the sink holds back, so that whoever reads the output sees all that was taken.
    ///
    /// # Errors
    ///
    /// `WriteError` where that failed, which counts as a failure. What is still held back then is the sink's affair.
    fn flush(&mut self) -> Result<(), WriteError>
        ensures { Flushes (stream self.old) (stream self.new) result };
}

/// Writes all of a text, by as many writes as that takes.
///
/// # Errors
///
/// `WriteError` at the first write that fails, or takes no byte. A beginning of the text was taken
/// then.
pub fn write_all<W: Sink>(out: &mut W, text: &[u8]) -> Result<(), WriteError>
    ensures writes { WritesText text.now (W.stream out.old) (W.stream out.new) result }
    ensures not_all { OnErr result (length (W.stream out.new).taken < length (W.stream out.old).taken + length
        text.now) }
{
    let mut at = 0;
    while at < text.len() {
        let count = out.write(&text[at..])?;
        if count == 0 {
            return Err(WriteError);
        }
        at += count;
    }
    Ok(())
}
