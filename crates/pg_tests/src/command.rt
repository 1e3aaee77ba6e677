//! The command over files and streams in memory: what no command line shows on the built program.
ghost use Rattle.std.specs.Prelude.{◌≤◌};

use crate::formats::cut;
use pg_base::MemSink;
use pg_command::{Call, Fault, ToldFault, command, report};
use pg_files::{Ending, MemStore, OperandFiles};
use pg_walk::{FileKind, MemTree, Node};
use pg_words::{Task, Words, read_words};
use std::alloc::Global;
use std::process::Abort;
use std::sync::Wait;
use std::thread::Threads;
use std::time::Clock;

/// The most bytes of a stream that has no limit of its own.
const ROOM: usize = 100;

/// What standard input and the file `broken` hold.
const INPUT: &[u8] = b"abc\nxyz\nb";

/// Their lines that hold `b`.
const OUTPUT: &[u8] = b"abc\nb\n";

/// The most bytes of a read, of a write, and of all that is written to each stream; how files end; and what comes of
/// that: the answer, and how many bytes of the output are written.
#[derive(Clone, Copy)]
struct Case {
    read: usize,
    write: usize,
    out: usize,
    err: usize,
    ending: Ending,
    answer: Result<u8, ToldFault>,
    written: usize,
}

/// The limit of a digit, ten for `a`, and for `-` one that isn't met.
fn limit_of(rt: &impl Abort, letter: u8) -> usize {
    match letter {
        b'0'..=b'9' => usize::from(letter - b'0'),
        b'a' => 10,
        b'-' => ROOM,
        _ => panic!(rt; "a limit"),
    }
}

/// How files end: `F` where reading fails behind the bytes, and else `E`.
fn ending_of(rt: &impl Abort, letter: u8) -> Ending {
    match letter {
        b'E' => Ending::Ends,
        b'F' => Ending::Fails,
        _ => panic!(rt; "an ending"),
    }
}

/// The status of a digit, or `!` where a fault was told instead.
fn answer_of(rt: &impl Abort, letter: u8) -> Result<u8, ToldFault> {
    match letter {
        b'0'..=b'2' => Ok(letter - b'0'),
        b'!' => Err(ToldFault),
        _ => panic!(rt; "a status"),
    }
}

/// The case of seven letters: the limits of a read, of a write and of both streams, how files end, the status, and how
/// many bytes are written.
fn case_of(rt: &impl Abort, letters: &str) -> Case {
    let [read, write, out, err, ending, answer, written] = letters.as_bytes() else {
        panic!(rt; "seven letters: {letters}");
    };
    Case {
        read: limit_of(rt, *read),
        write: limit_of(rt, *write),
        out: limit_of(rt, *out),
        err: limit_of(rt, *err),
        ending: ending_of(rt, *ending),
        answer: answer_of(rt, *answer),
        written: limit_of(rt, *written),
    }
}

/// What a command line wrote and answered.
struct Outcome {
    answer: Result<u8, ToldFault>,
    out: MemSink,
    err: MemSink,
}

impl Drop for Outcome {
    fn drop(self) {
        let Outcome {
            answer: _,
            out: _,
            err: _,
        } = self;
    }
}

impl Outcome {
    /// Whether it is that of a case in which this is told.
    fn is_of(&self, case: Case, told: &str) -> bool {
        self.answer == case.answer
            && self.out.bytes().len() == case.written
            && OUTPUT.starts_with(self.out.bytes())
            && self.err.bytes() == told.as_bytes()
    }
}

/// The words of a text, which blanks set apart.
pub(crate) fn words_of(rt: &impl Abort, alloc: Global, text: &str) -> Vec<String> {
    let mut words = Vec::new(alloc);
    for word in text.split(' ') {
        let word = String::from_str(alloc, word).expect(rt, "memory");
        words.push(word).expect(rt, "memory");
    }
    words
}

/// Standard input and a file, of which a read gives at most so many bytes.
fn store_of(rt: &impl Abort, alloc: Global, ending: Ending, read_limit: usize) -> MemStore
    requires { 1 ≤ read_limit }
{
    let mut store = MemStore::new(alloc);
    store.add("-", INPUT, ending).expect(rt, "memory");
    store.add("broken", INPUT, ending).expect(rt, "memory");
    store.set_read_limit(read_limit);
    store
}

/// What a command line does.
fn run(
    rt: &(impl Abort + Threads + Wait + Clock + Sync),
    alloc: Global,
    text: &str,
    case: Case,
) -> Outcome {
    let call = Call {
        words: words_of(rt, alloc, text),
        terminal: false,
    };
    let mut tree = MemTree::new(alloc);
    tree.add("broken", Node::new(FileKind::Regular))
        .expect(rt, "memory");
    let store = store_of(rt, alloc, case.ending, case.read.max(1));
    let mut files = OperandFiles::new(alloc, &tree, store);
    let mut out = MemSink::new(alloc, case.out).expect(rt, "memory");
    out.set_write_limit(case.write);
    let mut err = MemSink::new(alloc, case.err).expect(rt, "memory");
    let answer = command(rt, alloc, &call, &tree, &mut files, &mut out, &mut err);
    Outcome { answer, out, err }
}

/// Cases, set apart by commas, command lines that they are tried on, and what is told: blocks of any size where reads
/// and writes are short; files whose reading fails behind their bytes, to be searched and with patterns; an output that
/// takes some bytes, and the fault that can be told or not.
const CASES: &str = "\
11--E06,22--E06,33--E06,99--E06,aa--E06 -F b - --block 1=|\
11--E06,22--E06,33--E06,99--E06,aa--E06 -F b - --block 2=|\
11--E06,22--E06,33--E06,99--E06,aa--E06 -F b - --block 3=|\
11--E06,22--E06,33--E06,99--E06,aa--E06 -F b - --block 4=|\
11--E06,22--E06,33--E06,99--E06,aa--E06 -F b - --block 9=|\
11--E06,22--E06,33--E06,99--E06,aa--E06 -F b - --block 10=|\
11--E06,22--E06,33--E06,99--E06,aa--E06 -F b - --block 65536=|\
11--E06,22--E06,33--E06,99--E06,aa--E06 -F b - --block 16777216=|\
----F26 -F b broken=pargrep: broken: read failed\n|\
---0F!6 -F b broken=|\
---7F!6 -F b broken=pargrep|\
----F26 -F b -=pargrep: (standard input): read failed\n|\
----F!0 -F -f broken -=pargrep: broken: read failed\n|\
----F!0 -f - broken=pargrep: (standard input): read failed\n|\
----F!0 -e ( -E -f broken -=pargrep: broken: read failed\n|\
--0-E!0,--1-E!1,--2-E!2,--3-E!3,--4-E!4,--5-E!5 -F b -=pargrep: write failed\n|\
-10-E!0,-11-E!1,-12-E!2,-13-E!3,-14-E!4,-15-E!5 -F b -=pargrep: write failed\n|\
-00-E!0,-01-E!0,-02-E!0,-03-E!0,-04-E!0,-05-E!0 -F b -=pargrep: write failed\n|\
--00E!0,--10E!1,--20E!2,--30E!3,--40E!4,--50E!5 -F b -=";

#[test]
fn streams_with_limits_that_fail(rt: HostRuntime) {
    for row in CASES.split('|') {
        let (asked, told) = cut(&rt, row, "=");
        let (cases, text) = cut(&rt, asked, " ");
        for letters in cases.split(',') {
            let case = case_of(&rt, letters);
            let found = run(&rt, rt.alloc(), text, case);
            assert!(rt; found.is_of(case, told), "{letters} {text}");
        }
    }
}

/// Block sizes, and the words that give them.
const BLOCK_SIZES: &str = "\
7 -F b - --block=3 --block=7
3 --block 7 -F b --block 3 -
16777216 --block 16777216 -F b -
65536 -F b -";

/// The size of blocks that words give in a search for one text in standard input.
fn block_asked(alloc: Global, words: &Words) -> Option<u32> {
    match read_words(alloc, words) {
        Ok(Task::Search(request)) => {
            let files = &request.files;
            if request.texts.len() == 1 && files.len() == 1 && files[0] == "-" {
                Some(request.block)
            } else {
                None
            }
        }
        Ok(_text) => None,
        Err(_fault) => None,
    }
}

/// The size of blocks that the words of a text give in a search for one text in standard input.
fn block_of(rt: &impl Abort, alloc: Global, text: &str) -> Option<u32> {
    let words = words_of(rt, alloc, text);
    let cut = Words::new(alloc, words.as_slice()).expect(rt, "memory");
    block_asked(alloc, &cut)
}

#[test]
fn the_last_block_size_counts(rt: HostRuntime) {
    for line in BLOCK_SIZES.lines() {
        let (size, text) = cut(&rt, line, " ");
        let size = size.parse().expect(&rt, "a number");
        let block = block_of(&rt, rt.alloc(), text);
        assert!(rt; block == Some(size), "{line}");
    }
}

/// Whether a fault is reported by a line.
fn is_reported(rt: &impl Abort, alloc: Global, fault: Fault, line: &str) -> bool {
    let mut err = MemSink::new(alloc, ROOM).expect(rt, "memory");
    let status = report(alloc, fault, &mut err);
    status == 2 && err.bytes() == line.as_bytes()
}

#[test]
fn texts_of_rare_faults(rt: HostRuntime) {
    for (fault, line) in [
        (Fault::OutOfMemory, "pargrep: out of memory\n"),
        (Fault::LineTooLong, "pargrep: line too long\n"),
        (Fault::TooManyFiles, "pargrep: too many files\n"),
    ] {
        assert!(rt; is_reported(&rt, rt.alloc(), fault, line), "{line}");
    }
}
