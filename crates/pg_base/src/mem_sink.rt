//! A sink over memory.
ghost use Rattle.std.specs.Prelude.{◌≡◌, ◌≢◌, ◌-◌, ◌≤◌, ◌↔◌, [], length, min, IfOk, IsErr};
ghost use Rattle.pg_base.specs.Sink.{Writes, Flushes};

use crate::history::History;
use crate::sink::{Sink, WriteError};
use std::alloc::{AllocError, Allocator, Global};
use std::marker::Model;

/// A sink over memory that is reserved when it is made. It takes bytes up to a limit and then fails,
/// so a test can let any write of a program fail.
pub struct MemSink<A: Allocator = Global> {
    bytes: Vec<u8, A>,
    limit: usize,
    write_limit: usize,
    failed: History<()>,
}

impl<A: Allocator> Drop for MemSink<A> {
    fn drop(self) {
        let MemSink {
            bytes: _,
            limit: _,
            write_limit: _,
            failed: _,
        } = self;
    }
}

impl<A: Allocator> Model for MemSink<A> {
    ghost use Rattle.std.specs.Prelude.{◌≤◌, length, vec_len, vec_capacity};
    ghost use Rattle.pg_base.specs.Sink.{MemSinkData};

    ghost Value = { MemSinkData };

    ghost view = { λ s. record {
      stream = record { taken = s.bytes.items; failures = length s.failed.items };
      limit = s.limit;
      write_limit = s.write_limit;
    } };

    ghost invariant = { λ s. (vec_len s.bytes ≤ s.limit) × (s.limit ≤ vec_capacity s.bytes) };
}

impl<A: Allocator> MemSink<A> {
    /// A sink that took nothing yet, and takes `limit` bytes in all, as many in one write as it can.
    ///
    /// # Errors
    ///
    /// `AllocError` where the memory for `limit` bytes is refused.
    pub fn new(alloc: A, limit: usize) -> Result<MemSink<A>, AllocError>
        ensures { IfOk result (λ sink. sink ≡ record {
          stream = record { taken = []; failures = 0 };
          limit = limit;
          write_limit = limit;
        }) }
    {
        let bytes = Vec::with_capacity(alloc, limit)?;
        Ok(MemSink {
            bytes,
            limit,
            write_limit: limit,
            failed: History::new(),
        })
    }

    /// From now on it takes at most `write_limit` bytes in one write: with 0 none, so that each write
    /// of some bytes answers `Ok(0)` until it is full.
    pub fn set_write_limit(&mut self, write_limit: usize)
        ensures { self.new ≡ record self.old { write_limit = write_limit } }
    {
        self.write_limit = write_limit;
    }

    /// The bytes that it took.
    pub fn bytes(&self) -> &[u8]
        ensures { result.now ≡ self.now.stream.taken }
    {
        self.bytes.as_slice()
    }
}

impl<A: Allocator> Sink for MemSink<A> {
    ghost stream = { λ s. s.stream };

    /// Takes as many bytes as the limits allow, and no memory.
    ///
    /// # Errors
    ///
    /// `WriteError` where it took all the bytes of its limit and the text isn't empty.
    fn write(&mut self, text: &[u8]) -> Result<usize, WriteError>
        ensures writes { Writes text.now self.old.stream self.new.stream result }
        ensures count { IfOk result (λ count. count ≡ min (length text.now)
            (min self.old.write_limit (self.old.limit - length self.old.stream.taken))) }
        ensures full { IsErr result ↔ ((text.now ≢ []) × (self.old.limit ≤ length self.old.stream.taken)) }
        ensures limit { self.new.limit ≡ self.old.limit }
        ensures write_limit { self.new.write_limit ≡ self.old.write_limit }
    {
        if text.is_empty() {
            return Ok(0);
        }
        let room = self.limit - self.bytes.len();
        if room == 0 {
            self.failed.push(&());
            return Err(WriteError);
        }
        let count = text.len().min(self.write_limit.min(room));
        if count == 0 {
            self.failed.push(&());
        }
        self.bytes.extend_from_slice(&text[..count]).unwrap();
        Ok(count)
    }
    /// It holds nothing back, so there is nothing to send on.
    fn flush(&mut self) -> Result<(), WriteError>
        ensures flushes { Flushes self.old.stream self.new.stream result }
        ensures same { self.new ≡ self.old }
    {
        Ok(())
    }
}
