//! A sink over a writer of std.
ghost use Rattle.std.specs.Prelude.{◌≡◌, []};
ghost use Rattle.std.specs.Io.KnownBytes.{Keeps, WriteAppends};
ghost use Rattle.pg_base.specs.Sink.{Writes, Flushes};

use crate::history::History;
use crate::sink::{Sink, WriteError};
use std::io::Write;
use std::marker::Model;

/// A sink over a writer. It holds back nothing itself: each text goes to the writer at once.
///
/// What it took and how often it failed are kept for contracts alone. What a file or a terminal does
/// with the bytes no contract can say.
#[derive(Drop)]
pub struct Out<W: Write> {
    writer: W,
    taken: History<u8>,
    failed: History<()>,
}

impl<W: Write> Model for Out<W> {
    ghost use Rattle.std.specs.Prelude.{length};
    ghost use Rattle.pg_base.specs.Sink.{OutData};

    ghost Value = { OutData };

    ghost view = { λ s. record {
      stream = record { taken = s.taken.items; failures = length s.failed.items };
      contents = W.contents s.writer;
    } };
}

impl<W: Write> Out<W> {
    /// A sink that took nothing yet.
    pub fn new(writer: W) -> Out<W>
        ensures { result ≡ record { stream = record { taken = []; failures = 0 }; contents = W.contents writer } }
    {
        Out {
            writer,
            taken: History::new(),
            failed: History::new(),
        }
    }
}

impl<W: Write> Sink for Out<W> {
    ghost stream = { λ s. s.stream };

    /// Gives the text to the writer in one write.
    ///
    /// # Errors
    ///
    /// `WriteError` where the writer fails, also where the write was interrupted.
    fn write(&mut self, text: &[u8]) -> Result<usize, WriteError>
        ensures writes { Writes text.now self.old.stream self.new.stream result }
        // Where the writer tells its bytes, they grow by those that were taken.
        ensures contents { WriteAppends self.old.contents self.new.contents result text.now }
    {
        match self.writer.write(text) {
            Ok(count) => {
                if count == 0 && !text.is_empty() {
                    self.failed.push(&());
                }
                self.taken.extend(&text[..count]);
                Ok(count)
            }
            Err(_) => {
                self.failed.push(&());
                Err(WriteError)
            }
        }
    }
    /// Sends on what the writer holds back.
    ///
    /// # Errors
    ///
    /// `WriteError` where the writer fails. What the writer still holds back then is the writer's affair.
    fn flush(&mut self) -> Result<(), WriteError>
        ensures flushes { Flushes self.old.stream self.new.stream result }
        // The bytes that the writer tells stay.
        ensures contents { Keeps self.old.contents self.new.contents }
    {
        match self.writer.flush() {
            Ok(()) => Ok(()),
            Err(_) => {
                self.failed.push(&());
                Err(WriteError)
            }
        }
    }
}
