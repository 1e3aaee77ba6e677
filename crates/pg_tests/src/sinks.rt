//! Sinks over memory and over writers that fail.
ghost use Rattle.std.specs.Prelude.{◌≤◌};

use pg_base::{History, MemSink, Out, Sink, WriteError, write_all};
use std::alloc::Global;
use std::io::{self, ErrorKind, Write};
use std::mem::size_of;
use std::process::Abort;

const TEXT: &[u8] = b"alpha\nbeta\n";

#[test]
fn a_history_has_no_bytes(rt: HostRuntime) {
    assert_eq!(rt; size_of::<History<u64>>(), 0);
    assert_eq!(rt; size_of::<Out<Vec<u8>>>(), size_of::<Vec<u8>>());
    let mut history = History::new();
    history.push(&1u64);
    history.extend(&[2, 3]);
}

/// Whether the sink has the first bytes of the text, as many as it takes, and takes no more.
fn is_full(sink: &mut MemSink, limit: usize) -> bool
    requires { limit ≤ 11 }
{
    let is_filled = sink.bytes() == &TEXT[..limit];
    let more = sink.write(b"x");
    let nothing = sink.write(b"");
    let is_still = sink.bytes() == &TEXT[..limit];
    is_filled && more == Err(WriteError) && nothing == Ok(0) && is_still
}

/// A sink that takes `limit` bytes in all takes these of the text.
fn assert_takes(rt: &impl Abort, alloc: Global, limit: usize, write_limit: usize)
    requires { limit ≤ 11 }
{
    let mut sink = MemSink::new(alloc, limit).expect(rt, "memory");
    sink.set_write_limit(write_limit);
    let written = write_all(&mut sink, TEXT);
    let is_whole = limit == TEXT.len();
    assert!(rt;
        written.is_ok() == is_whole && is_full(&mut sink, limit),
        "at {limit}"
    );
}

#[test]
fn memory_fails_at_each_byte(rt: HostRuntime) {
    for limit in 0..=TEXT.len() {
        for write_limit in [usize::MAX, 2, 1] {
            assert_takes(&rt, rt.alloc(), limit, write_limit);
        }
    }
}

#[test]
fn memory_that_takes_no_byte(rt: HostRuntime) {
    let mut sink = MemSink::new(rt.alloc(), TEXT.len()).expect(&rt, "memory");
    sink.set_write_limit(0);
    assert!(rt; sink.write(TEXT) == Ok(0) && write_all(&mut sink, TEXT) == Err(WriteError));
    assert!(rt; write_all(&mut sink, b"").is_ok() && sink.bytes().is_empty());
    sink.set_write_limit(TEXT.len());
    assert!(rt; write_all(&mut sink, TEXT).is_ok() && sink.bytes() == TEXT);
    assert!(rt; sink.flush().is_ok() && sink.bytes() == TEXT);
    assert!(rt; MemSink::new(rt.alloc(), usize::MAX).is_err());
}

/// Whether the text is written through a writer in two parts.
fn takes_text<W: Write>(out: &mut Out<W>) -> bool {
    out.write(b"") == Ok(0)
        && write_all(out, b"alpha\n").is_ok()
        && write_all(out, b"beta\n").is_ok()
        && out.flush().is_ok()
}

#[test]
fn a_writer_gets_the_text(rt: HostRuntime) {
    let mut bytes = Vec::new(rt.alloc());
    assert!(rt; takes_text(&mut Out::new(&mut bytes)));
    assert!(rt; bytes.as_slice() == TEXT);
}

/// What a writer does at its third call.
#[derive(Clone, Copy, Debug)]
enum Third {
    Interrupted,
    Failed,
    Stalled,
    Short,
}

/// A writer that takes at most two bytes a call.
#[derive(Drop)]
struct Faulty {
    bytes: Vec<u8>,
    calls: u64,
    third: Third,
}

impl Faulty {
    fn new(alloc: Global, third: Third) -> Faulty {
        Faulty {
            bytes: Vec::new(alloc),
            calls: 0,
            third,
        }
    }
}

impl Write for Faulty {
    fn write(&mut self, text: &[u8]) -> io::Result<usize> {
        self.calls = self.calls.wrapping_add(1);
        let mut count = text.len().min(2);
        if self.calls == 3 {
            match self.third {
                Third::Interrupted => return Err(io::Error::from(ErrorKind::Interrupted)),
                Third::Failed => return Err(io::Error::from(ErrorKind::BrokenPipe)),
                Third::Stalled => return Ok(0),
                Third::Short => count = count.min(1),
            }
        }
        self.bytes.extend_from_slice(&text[..count])?;
        Ok(count)
    }

    fn flush(&mut self) -> io::Result<()> {
        self.calls = self.calls.wrapping_add(1);
        if self.calls == 3 {
            return Err(io::Error::from(ErrorKind::BrokenPipe));
        }
        Ok(())
    }
}

/// Whether a text is written at once through a writer, and else whether the rest is at a second call.
fn write_twice(faulty: &mut Faulty) -> (bool, bool) {
    let mut out = Out::new(faulty);
    let is_whole = write_all(&mut out, TEXT).is_ok();
    (
        is_whole,
        is_whole || write_all(&mut out, &TEXT[4..]).is_ok(),
    )
}

#[test]
fn a_writer_fails_once_in_mid_stream(rt: HostRuntime) {
    for third in [
        Third::Interrupted,
        Third::Failed,
        Third::Stalled,
        Third::Short,
    ] {
        let mut faulty = Faulty::new(rt.alloc(), third);
        let written = write_twice(&mut faulty);
        let is_short = matches!(third, Third::Short);
        let is_right = written == (is_short, true) && faulty.bytes.as_slice() == TEXT;
        assert!(rt; is_right, "at {third:?}");
    }
}

#[test]
fn a_flush_fails(rt: HostRuntime) {
    let mut faulty = Faulty::new(rt.alloc(), Third::Failed);
    let mut out = Out::new(&mut faulty);
    let written = out.write(TEXT);
    let first = out.flush();
    let second = out.flush();
    let third = out.flush();
    assert!(rt; written == Ok(2) && first.is_ok() && second == Err(WriteError) && third.is_ok());
    assert!(rt; faulty.bytes.as_slice() == b"al".as_slice());
}

#[test]
fn an_error_has_its_text(rt: HostRuntime) {
    let text = format!(in rt.alloc(); "{WriteError}").expect(&rt, "memory");
    assert!(rt; text.as_str() == "write failed");
}

fn needs_send<T: Send>(_value: &T) {}

#[test]
fn sinks_go_to_other_threads(rt: HostRuntime) {
    needs_send(&MemSink::new(rt.alloc(), 1).expect(&rt, "memory"));
    needs_send(&Out::new(Vec::new(rt.alloc())));
}
