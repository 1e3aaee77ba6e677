//! The run over files in memory: sinks that fail, reads that fail and memory that is refused.
ghost use Rattle.std.specs.Prelude.{◌≡◌, ◌≤◌, ◌^◌, [], false};
ghost use Rattle.pg_rows.specs.Output.{HasRoom};

use crate::command::words_of;
use crate::fixtures::PLAIN;
use crate::formats::{cut, format_of, with_controls};
use pg_base::MemSink;
use pg_files::{Ending, MemFiles, MemStore, OperandFiles};
use pg_lines::{Kind, ListFault, PatternList, QueryFault, QueryText};
use pg_rows::Format;
use pg_search::{FreeGate, RunFault, SearchFault, Setup, run};
use pg_syntax::{FaultKind, SyntaxFault};
use pg_walk::{FileKind, MemTree, Node, Scope};
use refusing::Refusing;
use std::alloc::{AllocError, Allocator, Global};
use std::process::Abort;
use std::sync::Wait;
use std::thread::Threads;
use std::time::Clock;

const FILE: &[u8] = b"abc\nxyz\nb";

/// A file named `f`, how it is read and cut, what is asked for of it, and what its output takes.
#[derive(Clone, Copy)]
struct Case<'a> {
    /// What the patterns are and what is asked of them, as `text_of` reads it.
    letters: &'a str,
    pattern: &'a [u8],
    format: Format,
    file: &'a [u8],
    ending: Ending,
    read_limit: usize,
    /// Whether files are in memory already, and taken as they are.
    is_buffered: bool,
    block: u32,
    workers: u32,
    /// Whether no names are listed behind the file.
    is_alone: bool,
    /// The most bytes of the output, and of a write to it.
    room: usize,
    write_limit: usize,
    ghost some_limit: { HasRoom format },
    ghost some_bytes: { 1 ≤ read_limit },
    ghost block_in_range: { (1 ≤ block) × (block ≤ 2 ^ 24) },
    ghost workers_in_range: { workers ≤ 64 },
}

impl<'a> Case<'a> {
    /// The search for `b` in `FILE`, which is cut into the smallest blocks.
    fn new(format: Format) -> Case<'a>
        requires { HasRoom format }
    {
        Case {
            letters: "F",
            pattern: b"b",
            format,
            file: FILE,
            ending: Ending::Ends,
            read_limit: 100,
            is_buffered: false,
            block: 1,
            workers: 0,
            is_alone: true,
            room: 100,
            write_limit: usize::MAX,
        }
    }

    /// Names that give none behind the file.
    fn among_others(mut self) -> Case<'a> {
        self.is_alone = false;
        self
    }

    /// An output that takes so many bytes in all, and so many in a write.
    fn into_room(mut self, room: usize, write_limit: usize) -> Case<'a> {
        self.room = room;
        self.write_limit = write_limit;
        self
    }

    /// Rounds of two blocks, each searched by so many threads beside the calling one.
    fn spread(mut self, workers: u32) -> Case<'a>
        requires { workers ≤ 64 }
    {
        self.workers = workers;
        self
    }

    /// The search for another pattern in another file.
    fn with(mut self, pattern: &'a [u8], file: &'a [u8]) -> Case<'a> {
        self.pattern = pattern;
        self.file = file;
        self
    }

    /// The search for other patterns.
    fn asking(mut self, letters: &'a str, pattern: &'a [u8]) -> Case<'a> {
        self.letters = letters;
        self.format.parts = has(letters, b'o');
        self.pattern = pattern;
        self
    }

    /// A file behind whose bytes a read fails.
    fn broken(mut self) -> Case<'a> {
        self.ending = Ending::Fails;
        self
    }

    /// Blocks of at least so many bytes, and reads of at most so many.
    fn cut(mut self, block: u32, read_limit: usize) -> Case<'a>
        requires { (1 ≤ block) × (block ≤ 2 ^ 24) × (1 ≤ read_limit) }
    {
        self.block = block;
        self.read_limit = read_limit;
        self
    }

    /// Files that are in memory already.
    fn buffered(mut self) -> Case<'a> {
        self.is_buffered = true;
        self
    }
}

/// The letters of what is asked for: `E` expressions or `F` fixed strings, `f` from a file; and the options.
const LETTERS: &[u8] = b"EFfivo";

fn has(letters: &str, letter: u8) -> bool {
    letters.as_bytes().contains(&letter)
}

/// What a query is compiled from, by the letters of what is asked for, and a text of one or more patterns.
fn text_of<A: Allocator + Copy>(
    alloc: A,
    letters: &str,
    patterns: &[u8],
) -> Result<QueryText<A>, AllocError> {
    let patterns = Vec::from_slice(alloc, patterns)?;
    let mut lists = Vec::new(alloc);
    lists.push(if has(letters, b'f') {
        PatternList::Lines(patterns)
    } else {
        PatternList::Text(patterns)
    })?;
    Ok(QueryText {
        kind: if has(letters, b'E') {
            Kind::Extended
        } else {
            Kind::Fixed
        },
        lists,
        fold: has(letters, b'i'),
        whole: false,
        word: false,
        invert: has(letters, b'v'),
        with_parts: has(letters, b'o'),
        zero: false,
    })
}

/// Files `f`, `g` and `h`, and a directory `d` that can't be listed.
fn tree_of(rt: &impl Abort, alloc: Global) -> MemTree {
    let mut tree = MemTree::new(alloc);
    for path in ["f", "g", "h"] {
        let node = Node::new(FileKind::Regular);
        tree.add(path, node).expect(rt, "memory");
    }
    let node = Node::new(FileKind::Directory);
    tree.add("d", node).expect(rt, "memory");
    tree
}

/// The file, and behind it, unless it is alone, names that give none, and a second file.
fn operands_of(rt: &impl Abort, alloc: Global, is_alone: bool) -> Vec<String> {
    words_of(rt, alloc, if is_alone { "f" } else { "f g d h" })
}

/// The file, listed in front of names that give none and the file `h`, a line of `b`, unless it is alone.
fn list<'t, A: Allocator + Copy>(
    rt: &impl Abort,
    alloc: Global,
    heap: A,
    tree: &'t MemTree,
    case: Case<'_>,
) -> MemFiles<'t, A>
    ensures { (result.walk.asked.items ≡ []) × (result.done ≡ false) }
{
    let operands = operands_of(rt, alloc, case.is_alone);
    let mut files = OperandFiles::new(alloc, tree, store_of(rt, alloc, heap, case));
    let scope = Scope::all(alloc, true);
    let listed = files.list(alloc, tree, &operands, scope, true, String::new(alloc));
    listed.expect(rt, "memory");
    files
}

/// The bytes of the file and of `h`, which are in memory of `heap` where they are to be in memory already.
fn store_of<A: Allocator + Copy>(
    rt: &impl Abort,
    alloc: Global,
    heap: A,
    case: Case<'_>,
) -> MemStore<A> {
    let mut store = MemStore::new(alloc);
    store.add("f", case.file, case.ending).expect(rt, "memory");
    store.add("h", b"b\n", Ending::Ends).expect(rt, "memory");
    store.set_read_limit(case.read_limit);
    if case.is_buffered {
        store.buffer(heap);
    }
    store
}

/// What a run answers, with the memory that `heap` gives. A refused text counts as a refused run.
fn answer<R: Threads + Wait + Clock + Sync, A: Allocator + Copy + Send + Sync>(
    rt: &R,
    heap: A,
    case: Case<'_>,
    files: &mut MemFiles<'_, A>,
    out: &mut MemSink,
    faults: &mut MemSink,
) -> Result<u8, SearchFault>
    requires { (files.old.walk.asked.items ≡ []) × (files.old.done ≡ false) }
{
    let text = text_of(heap, case.letters, case.pattern)?;
    let setup = Setup {
        format: case.format,
        workers: case.workers,
        block: case.block,
        line: 100,
        round: 2,
        always_spread: true,
        line_buffered: false,
        silent: false,
    };
    run(rt, heap, text, setup, files, out, faults, &FreeGate)
}

/// What a run answered, wrote and told.
struct Outcome {
    answer: Result<u8, SearchFault>,
    out: MemSink,
    faults: MemSink,
}

impl Drop for Outcome {
    fn drop(self) {
        let Outcome {
            answer: _,
            out: _,
            faults: _,
        } = self;
    }
}

/// What a run does, with the memory that `heap` gives.
fn run_case<R: Abort + Threads + Wait + Clock + Sync, A: Allocator + Copy + Send + Sync>(
    rt: &R,
    alloc: Global,
    heap: A,
    case: Case<'_>,
) -> Outcome {
    let tree = tree_of(rt, alloc);
    let mut files = list(rt, alloc, heap, &tree, case);
    let mut out = MemSink::new(alloc, case.room).expect(rt, "memory");
    out.set_write_limit(case.write_limit);
    let mut faults = MemSink::new(alloc, 100).expect(rt, "memory");
    let answer = answer(rt, heap, case, &mut files, &mut out, &mut faults);
    Outcome {
        answer,
        out,
        faults,
    }
}

/// What is varied in the runs of a row.
#[derive(Clone, Copy)]
enum Varied {
    /// The size of blocks and of reads, and the number of threads.
    Blocks,
    /// How many bytes the output takes, in all and in a write.
    Writes,
    /// The size of blocks and of reads, and the number of threads, where reading fails behind the file.
    Reads,
}

/// A search, and what comes of it whatever is varied.
#[derive(Clone, Copy)]
struct Row<'a> {
    varied: Varied,
    format: Format,
    pattern: &'a [u8],
    file: &'a [u8],
    status: u8,
    output: &'a [u8],
    ghost some_limit: { HasRoom format },
}

/// A case, and what comes of it.
#[derive(Clone, Copy)]
struct Expected<'a> {
    case: Case<'a>,
    answer: Result<u8, SearchFault>,
    output: &'a [u8],
    told: &'static str,
}

impl Expected<'_> {
    fn is(&self, found: &Outcome) -> bool {
        found.answer == self.answer
            && found.out.bytes() == self.output
            && found.faults.bytes() == self.told.as_bytes()
    }
}

fn push<'a>(rt: &impl Abort, cases: &mut Vec<Expected<'a>>, case: Expected<'a>) {
    cases.push(case).expect(rt, "memory");
}

/// A write of a case fails behind these bytes.
fn failing<'a>(case: Case<'a>, output: &'a [u8]) -> Expected<'a> {
    Expected {
        case,
        answer: Err(SearchFault::Run(RunFault::Sink)),
        output,
        told: "",
    }
}

impl<'a> Row<'a> {
    fn case(self) -> Case<'a> {
        Case::new(self.format).with(self.pattern, self.file)
    }

    /// All is written in a case, and this is told.
    fn expected(self, case: Case<'a>, told: &'static str) -> Expected<'a> {
        Expected {
            case,
            answer: Ok(self.status),
            output: self.output,
            told,
        }
    }

    /// Blocks and reads of some sizes, by one thread, and blocks by three, also of a file that is in memory already.
    fn push_blocks(self, rt: &impl Abort, cases: &mut Vec<Expected<'a>>) {
        for block in 1..=64u32 {
            for read_limit in [1, 2, 5, 100] {
                let case = self.case().cut(block, read_limit);
                push(rt, cases, self.expected(case, ""));
            }
            let case = self.case().cut(block, 100);
            for case in [case.spread(2), case.buffered(), case.buffered().spread(2)] {
                push(rt, cases, self.expected(case, ""));
            }
        }
    }

    /// An output that takes less fails once it is full, one that takes no byte fails at once, and one that takes a byte
    /// at a time goes through.
    fn push_writes(self, rt: &impl Abort, cases: &mut Vec<Expected<'a>>) {
        for block in 1..=10u32 {
            for limit in 0..self.output.len() {
                let case = self.case().cut(block, 100).into_room(limit, usize::MAX);
                push(rt, cases, failing(case, &self.output[..limit]));
            }
            let case = self.case().cut(block, 100).spread(2);
            let slow = case.into_room(self.output.len(), 1);
            push(rt, cases, self.expected(slow, ""));
            let stalled = case.into_room(self.output.len(), 0);
            push(rt, cases, failing(stalled, b""));
        }
    }

    /// Reading fails behind the file, in blocks and reads of some sizes, by one thread and by three, also where its
    /// bytes are in memory already.
    fn push_reads(self, rt: &impl Abort, cases: &mut Vec<Expected<'a>>) {
        for block in 1..=10u32 {
            for (read_limit, workers) in [(1, 0), (2, 0), (1, 2), (2, 2)] {
                let case = self.case().broken().cut(block, read_limit).spread(workers);
                for case in [case, case.buffered()] {
                    push(rt, cases, self.expected(case, "pargrep: f: read failed\n"));
                }
            }
        }
    }

    fn cases(self, rt: &impl Abort, alloc: Global) -> Vec<Expected<'a>> {
        let mut cases = Vec::new(alloc);
        match self.varied {
            Varied::Blocks => self.push_blocks(rt, &mut cases),
            Varied::Writes => self.push_writes(rt, &mut cases),
            Varied::Reads => self.push_reads(rt, &mut cases),
        }
        cases
    }
}

/// All cases end as expected.
fn assert_all<R: Abort + Threads + Wait + Clock + Sync>(
    rt: &R,
    alloc: Global,
    cases: &[Expected<'_>],
) {
    for (number, expected) in cases.iter().enumerate() {
        let found = run_case(rt, alloc, alloc, expected.case);
        assert!(rt; expected.is(&found), "case {number}");
    }
}

/// What is varied, a pattern, the letters of a format, a file, the status, and behind a colon the output. In files and
/// output `/` stands for a newline.
const RUNS: &str = "\
blocks b ------ abc/xyz/b 0:abc/b/
blocks q ------ abc/xyz/b 1:
blocks b ------  1:
blocks  ------  1:
blocks  ------ // 0://
blocks  ------ abc/xyz/b 0:abc/xyz/b/
blocks yz ------ abc/xyz 0:xyz/
blocks ab ------ a/b/ 1:
blocks b Hn---- abc/xyz/b 0:f:1:abc/f:3:b/
blocks  Hn---- // 0:f:1:/f:2:/
blocks q Hn---- abc/xyz/b 1:
blocks b H-c--- abc/xyz/b 0:f:2/
blocks q H-c--- abc/xyz/b 1:f:0/
blocks  H-c---  1:f:0/
writes b ------ abc/xyz/b 0:abc/b/
writes b Hn---- abc/xyz/b 0:f:1:abc/f:3:b/
writes b H-c--- abc/xyz/b 0:f:2/
reads b ------  2:
reads b ------ a 2:
reads b ------ ab 2:ab/
reads b ------ abc/ 2:abc/
reads b ------ abc/xyz/ 2:abc/
reads b ------ abc/xyz/b 2:abc/b/
reads b H-c---  2:f:0/
reads b H-c--- ab 2:f:1/
reads b H-c--- abc/xyz/ 2:f:1/
reads b H-c--- abc/xyz/b 2:f:2/";

fn varied_of(rt: &impl Abort, word: &str) -> Varied {
    match word {
        "blocks" => Varied::Blocks,
        "writes" => Varied::Writes,
        "reads" => Varied::Reads,
        _ => panic!(rt; "what is varied"),
    }
}

/// A row of `RUNS`.
#[derive(Drop)]
struct Parsed<'t> {
    varied: Varied,
    format: Format,
    pattern: &'t str,
    file: String,
    status: u8,
    output: String,
    ghost some_limit: { HasRoom format },
}

impl<'t> Parsed<'t> {
    fn of(rt: &impl Abort, alloc: Global, text: &'t str) -> Parsed<'t> {
        let (varied, rest) = cut(rt, text, " ");
        let (pattern, rest) = cut(rt, rest, " ");
        let (letters, rest) = cut(rt, rest, " ");
        let (file, answer) = cut(rt, rest, " ");
        let (status, output) = cut(rt, answer, ":");
        Parsed {
            varied: varied_of(rt, varied),
            format: format_of(rt, letters),
            pattern,
            file: with_controls(rt, alloc, file),
            status: status.parse().expect(rt, "a status"),
            output: with_controls(rt, alloc, output),
        }
    }

    fn row(&self) -> Row<'_> {
        Row {
            varied: self.varied,
            format: self.format,
            pattern: self.pattern.as_bytes(),
            file: self.file.as_bytes(),
            status: self.status,
            output: self.output.as_bytes(),
        }
    }
}

/// Rows with numbers and a line of context on both sides, in two groups: what is written, and what of it where the file
/// can be read to each of its bytes alone.
const GROUPS: &str = "\
writes x -n--11 a/b/x/c/d/e/x/ 0:2-b/3:x/4-c/--/6-e/7:x/
reads x -n--11  2:
reads x -n--11 a 2:
reads x -n--11 a/ 2:
reads x -n--11 a/b 2:
reads x -n--11 a/b/ 2:
reads x -n--11 a/b/x 2:2-b/3:x/
reads x -n--11 a/b/x/ 2:2-b/3:x/
reads x -n--11 a/b/x/c 2:2-b/3:x/4-c/
reads x -n--11 a/b/x/c/ 2:2-b/3:x/4-c/
reads x -n--11 a/b/x/c/d 2:2-b/3:x/4-c/
reads x -n--11 a/b/x/c/d/ 2:2-b/3:x/4-c/
reads x -n--11 a/b/x/c/d/e 2:2-b/3:x/4-c/
reads x -n--11 a/b/x/c/d/e/ 2:2-b/3:x/4-c/
reads x -n--11 a/b/x/c/d/e/x 2:2-b/3:x/4-c/--/6-e/7:x/
reads x -n--11 a/b/x/c/d/e/x/ 2:2-b/3:x/4-c/--/6-e/7:x/";

/// All cases of a row end as it says.
fn assert_row<R: Abort + Threads + Wait + Clock + Sync>(rt: &R, alloc: Global, text: &str) {
    let parsed = Parsed::of(rt, alloc, text);
    let cases = parsed.row().cases(rt, alloc);
    assert_all(rt, alloc, &cases);
}

#[test]
fn runs_end_as_rows_say(rt: HostRuntime) {
    for text in RUNS.lines() {
        assert_row(&rt, rt.alloc(), text);
    }
}

#[test]
fn groups_end_as_rows_say(rt: HostRuntime) {
    for text in GROUPS.lines() {
        assert_row(&rt, rt.alloc(), text);
    }
}

/// Patterns and outputs for a file of bytes that are no text.
const BINARY: [(&'static [u8], &'static [u8]); 2] = [
    (b"\0", b"a\0\xff\n\0\n\xff\0\n"),
    (b"\xff\x80", b"\xff\x80\n"),
];

#[test]
fn any_byte_is_searched_for(rt: HostRuntime) {
    for (pattern, output) in BINARY {
        let row = Row {
            varied: Varied::Blocks,
            format: PLAIN,
            pattern,
            file: b"a\0\xff\n\0\n\xff\x80\n\xff\0",
            status: 0,
            output,
        };
        assert_all(&rt, rt.alloc(), &row.cases(&rt, rt.alloc()));
    }
}

/// What is told of the names behind the file.
const TOLD: &str = "pargrep: g: cannot open\npargrep: d: cannot list\n";

/// Whether a run for which memory wants has written and told beginnings, where a request was refused, and any other one
/// all of it.
fn is_refused_rightly(found: &Outcome, heap: &Refusing, whole: Expected<'_>) -> bool {
    if found.answer != Err(SearchFault::Run(RunFault::OutOfMemory)) {
        return whole.is(found);
    }
    heap.has_refused()
        && whole.output.starts_with(found.out.bytes())
        && whole.told.as_bytes().starts_with(found.faults.bytes())
}

/// Each request for memory of a run is refused in turn. The answer is how many bytes were written where the last one
/// is.
fn assert_refusals<R: Abort + Threads + Wait + Clock + Sync>(
    rt: &R,
    alloc: Global,
    whole: Expected<'_>,
) -> usize {
    let mut longest = 0;
    for passes in 0..1000u64 {
        let heap = Refusing::new(alloc, passes);
        let found = run_case(rt, alloc, &heap, whole.case);
        assert!(rt; is_refused_rightly(&found, &heap, whole), "at {passes}");
        if !heap.has_refused() {
            return longest;
        }
        longest = found.out.bytes().len();
    }
    panic!(rt; "more than 1000 requests")
}

/// The letters of what is asked for, a text of patterns, the letters of a format, how much of the output for `FILE` and
/// the second file is written at least before the last request for memory is made; and the output. `/` stands for a
/// newline.
const REFUSED: &str = "\
F b ------ 4 abc/b/b/
F b Hn---- 8 f:1:abc/f:3:b/h:1:b/
F b H-c--- 0 f:2/h:1/
F b -n--11 6 1:abc/2-xyz/3:b/--/1:b/
F abc/q/b ------ 4 abc/b/b/
Ff b/q/ -n---- 6 1:abc/3:b/1:b/
Fi B ------ 4 abc/b/b/
Ei ^A|Z ------ 4 abc/xyz/
Ev b ------ 4 xyz/
Eo [a-c]+ -n---- 6 1:abc/3:b/1:b/
Eov b ------ 0 ";

/// Each request for memory of a run that ends as a row says is refused in turn, by one thread and by three, of which
/// each may make the one that is refused, and where files are in memory already.
fn assert_refused<R: Abort + Threads + Wait + Clock + Sync>(
    rt: &R,
    alloc: Global,
    row: &str,
    case: Case<'_>,
    answer: &str,
) {
    let (early, output) = cut(rt, answer, " ");
    let early: usize = early.parse().expect(rt, "a number");
    let output = with_controls(rt, alloc, output);
    let whole = Expected {
        case,
        answer: Ok(2),
        output: output.as_bytes(),
        told: TOLD,
    };
    let written = assert_refusals(rt, alloc, whole);
    assert!(rt; early <= written, "{row}");
    for case in [case.spread(2), case.buffered(), case.buffered().spread(2)] {
        assert_refusals(rt, alloc, Expected { case, ..whole });
    }
}

/// Each request for memory of a run is refused in turn, as a row of `REFUSED` says.
fn assert_refused_row<R: Abort + Threads + Wait + Clock + Sync>(rt: &R, alloc: Global, row: &str) {
    let (letters, rest) = cut(rt, row, " ");
    let (patterns, rest) = cut(rt, rest, " ");
    let (format, answer) = cut(rt, rest, " ");
    assert!(rt;
        letters
            .as_bytes()
            .iter()
            .all(|letter| LETTERS.contains(letter))
    );
    let patterns = with_controls(rt, alloc, patterns);
    let case = Case::new(format_of(rt, format)).asking(letters, patterns.as_bytes());
    assert_refused(rt, alloc, row, case.cut(1, 3).among_others(), answer);
}

#[test]
fn each_request_may_be_refused(rt: HostRuntime) {
    for row in REFUSED.lines() {
        assert_refused_row(&rt, rt.alloc(), row);
    }
}

/// What is wrong with the second of two patterns, in which an escape lacks its byte.
const FAULT: SearchFault = SearchFault::Query(QueryFault::Syntax(ListFault {
    pattern: 2,
    fault: SyntaxFault {
        kind: FaultKind::TrailingBackslash,
        at: 3,
    },
}));

#[test]
fn a_fault_is_told_for_want_of_no_memory(rt: HostRuntime) {
    let case = Case::new(PLAIN)
        .asking("E", b"(a|b)+\na|b\\")
        .among_others();
    let whole = Expected {
        case,
        answer: Err(FAULT),
        output: b"",
        told: "",
    };
    assert_eq!(rt; assert_refusals(&rt, rt.alloc(), whole), 0);
}

/// The search for `b` in a file of which a line may be too long.
fn ends_with<'a>(
    file: &'a [u8],
    workers: u32,
    answer: Result<u8, SearchFault>,
    output: &'a [u8],
) -> Expected<'a>
    requires { workers ≤ 64 }
{
    Expected {
        case: Case::new(PLAIN).with(b"b", file).spread(workers),
        answer,
        output,
        told: "",
    }
}

#[test]
fn long_lines_end_a_run_behind_its_rows(rt: HostRuntime) {
    let mut file = [b'a'; 103];
    file[0] = b'b';
    file[1] = b'\n';
    let too_long = Err(SearchFault::Run(RunFault::TooLong));
    let cases = [
        ends_with(&file[3..], 0, Ok(1), b""),
        ends_with(&file[2..], 0, too_long, b""),
        ends_with(&file, 0, too_long, b"b\n"),
        ends_with(&file, 2, too_long, b"b\n"),
    ];
    assert_all(&rt, rt.alloc(), &cases);
}
