//! Runs whose rounds are searched by threads: who searches when.
ghost use Rattle.std.specs.Prelude.{◌≡◌, ◌≤◌, [], false};
ghost use Rattle.pg_files.specs.Given.{nothing_given};

use crate::fixtures::{Counting, Meeting, PATIENCE, text};
use pg_base::{MemSink, Sink, WriteError};
use pg_files::{Ending, Files, MemFiles, MemStore, OperandFiles};
use pg_rows::{Format, Mode, Separator};
use pg_search::{FreeGate, Gate, SearchFault, Setup, run};
use pg_walk::{FileKind, MemTree, Node, Scope};
use std::alloc::Global;
use std::process::Abort;
use std::sync::Wait;
use std::sync::atomic::{AtomicU64, Ordering};
use std::thread;
use std::thread::Threads;
use std::time::Clock;

/// A row for each selected line, searched by so many threads in rounds of so many blocks, each of one line.
pub(crate) fn setup(workers: u32, round: u32) -> Setup
    requires { (workers ≤ 64) × (1 ≤ round) × (round ≤ 1024) }
{
    Setup {
        format: Format {
            names: false,
            null: false,
            tabs: false,
            separator: Some(Separator::hyphens()),
            numbers: false,
            offsets: false,
            mode: Mode::Rows,
            parts: false,
            colored: false,
            limit: None,
            before: None,
            after: None,
        },
        workers,
        block: 1,
        line: 100,
        round,
        always_spread: true,
        line_buffered: false,
        silent: false,
    }
}

/// A tree of one file `f`.
pub(crate) fn tree_of(rt: &impl Abort, alloc: Global) -> MemTree {
    let mut tree = MemTree::new(alloc);
    let node = Node::new(FileKind::Regular);
    tree.add("f", node).expect(rt, "memory");
    tree
}

/// Its path.
pub(crate) fn operand(rt: &impl Abort, alloc: Global) -> String {
    String::from_str(alloc, "f").expect(rt, "memory")
}

/// A file of these bytes, given in one read.
fn file_of<'t>(rt: &impl Abort, alloc: Global, tree: &'t MemTree, bytes: &[u8]) -> MemFiles<'t>
    ensures { (result.walk.asked.items ≡ []) × (result.done ≡ false) }
{
    let operands = [operand(rt, alloc)];
    let mut store = MemStore::new(alloc);
    store.add("f", bytes, Ending::Ends).expect(rt, "memory");
    let mut files = OperandFiles::new(alloc, tree, store);
    let scope = Scope::all(alloc, true);
    let listed = files.list(alloc, tree, &operands, scope, true, String::new(alloc));
    listed.expect(rt, "memory");
    files
}

/// A sink that takes at most 100 bytes.
pub(crate) fn sink(rt: &impl Abort, alloc: Global) -> MemSink {
    MemSink::new(alloc, 100).expect(rt, "memory")
}

/// What a run answered and told.
pub(crate) struct Outcome {
    pub(crate) status: Result<u8, SearchFault>,
    pub(crate) told: MemSink,
}

impl Drop for Outcome {
    fn drop(self) {
        let Outcome { status: _, told: _ } = self;
    }
}

/// What a run for the letter x does beside what it writes.
pub(crate) fn run_over<
    R: Abort + Threads + Wait + Clock + Sync,
    F: Files<Alloc = Global>,
    W: Sink,
    G: Gate + Sync,
>(rt: &R, alloc: Global, setup: Setup, files: &mut F, out: &mut W, gate: &G) -> Outcome
    requires { F.past files.old ≡ nothing_given }
{
    let text = text(alloc).expect(rt, "memory");
    let mut told = sink(rt, alloc);
    let status = run(rt, alloc, text, setup, files, out, &mut told, gate);
    Outcome { status, told }
}

/// Whether a run for the letter x over a file writes this and tells nothing.
fn writes<R: Abort + Threads + Wait + Clock + Sync, G: Gate + Sync>(
    rt: &R,
    alloc: Global,
    setup: Setup,
    file: &[u8],
    output: &[u8],
    gate: &G,
) -> bool {
    let tree = tree_of(rt, alloc);
    let mut files = file_of(rt, alloc, &tree, file);
    let mut out = sink(rt, alloc);
    let found = run_over(rt, alloc, setup, &mut files, &mut out, gate);
    found.status == Ok(0) && out.bytes() == output && found.told.bytes().is_empty()
}

#[test]
fn two_blocks_of_a_run_are_searched_at_once(rt: HostRuntime) {
    let file: &[u8] = b"x1\nx2\n";
    for workers in [2u32, 64] {
        let gate = Meeting::of(2);
        assert!(rt; writes(&rt, rt.alloc(), setup(workers, 2), file, file, &gate));
        assert_eq!(rt; gate.outcome(), (2, 0), "met, and waited in vain");
    }
}

/// A file of seven lines, and its rows.
const FILE: &[u8] = b"x\na\nx\n\nb\nx\nc";

const ROWS: &[u8] = b"x\nx\nx\n";

/// Another one, and its rows with numbers and a line of context on both sides, as `grep -n -C 1 x` has them.
const GROUPS: &[u8] = b"a\nb\nx\nc\nd\ne\nx\n";

const GROUP_ROWS: &[u8] = b"2-b\n3:x\n4-c\n--\n6-e\n7:x\n";

/// The same work for rows with numbers and a line of context on both sides.
fn in_groups(setup: Setup) -> Setup {
    let mut setup = setup;
    setup.format.numbers = true;
    setup.format.before = Some(1);
    setup.format.after = Some(1);
    setup
}

/// Both files have their rows by so many workers in rounds of so many lines.
fn assert_both<R: Abort + Threads + Wait + Clock + Sync>(
    rt: &R,
    alloc: Global,
    workers: u32,
    round: u32,
)
    requires { (workers ≤ 64) × (1 ≤ round) × (round ≤ 1024) }
{
    let setup = setup(workers, round);
    let right = writes(rt, alloc, setup, FILE, ROWS, &FreeGate)
        && writes(rt, alloc, in_groups(setup), GROUPS, GROUP_ROWS, &FreeGate);
    assert!(rt; right, "{workers} workers, rounds of {round}");
}

#[test]
fn any_number_of_workers_will_do(rt: HostRuntime) {
    for workers in [0u32, 1, 2, 64] {
        for round in [1u32, 2, 3] {
            assert_both(&rt, rt.alloc(), workers, round);
        }
    }
}

/// A block of each round has the number 0, and so on: seven blocks in rounds of three.
fn assert_numbers(rt: &impl Abort, gate: &Counting) {
    for (number, count) in [3u64, 2, 2, 0].iter().enumerate() {
        assert!(rt; gate.has_called(number, *count));
    }
}

#[test]
fn numbers_of_blocks_begin_anew_in_each_round(rt: HostRuntime) {
    let gate = Counting::new();
    assert!(rt; writes(&rt, rt.alloc(), setup(4, 3), FILE, ROWS, &gate));
    assert_numbers(&rt, &gate);
    let gate = Counting::new();
    let setup = in_groups(setup(4, 3));
    assert!(rt; writes(&rt, rt.alloc(), setup, GROUPS, GROUP_ROWS, &gate));
    assert_numbers(&rt, &gate);
}

/// A sink over memory that tells others how many bytes it took.
pub(crate) struct Watched<'n> {
    pub(crate) inner: MemSink,
    pub(crate) taken: &'n AtomicU64,
}

impl Drop for Watched<'_> {
    fn drop(self) {
        let Watched { inner: _, taken: _ } = self;
    }
}

impl<'n> Sink for Watched<'n> {
    ghost use Rattle.pg_base.specs.Sink.{Writes, Flushes};

    ghost stream = { λ s. s.inner.stream };

    fn write(&mut self, text: &[u8]) -> Result<usize, WriteError>
        ensures { Writes text.now self.old.inner.stream self.new.inner.stream result }
    {
        let count = self.inner.write(text)?;
        self.taken.fetch_add(count as u64, Ordering::SeqCst);
        Ok(count)
    }

    fn flush(&mut self) -> Result<(), WriteError>
        ensures { Flushes self.old.inner.stream self.new.inner.stream result }
    {
        self.inner.flush()
    }
}

/// Who searches the second block of a round waits until three bytes were written, or gives up.
struct AfterWriting<'n> {
    taken: &'n AtomicU64,
    given_up: AtomicU64,
}

impl Drop for AfterWriting<'_> {
    fn drop(self) {
        let AfterWriting {
            taken: _,
            given_up: _,
        } = self;
    }
}

impl<'n> Gate for AfterWriting<'n> {
    fn before(&self, number: u32) {
        if number != 1 {
            return;
        }
        for _ in 0..PATIENCE {
            if self.taken.load(Ordering::SeqCst) >= 3 {
                return;
            }
            thread::yield_now();
        }
        self.given_up.fetch_add(1, Ordering::SeqCst);
    }

    fn after(&self, _number: u32) {}
}

/// Whether a run writes its rows into a sink that tells the gate how many bytes it took.
fn writes_watched<R: Abort + Threads + Wait + Clock + Sync>(
    rt: &R,
    alloc: Global,
    gate: &AfterWriting<'_>,
) -> bool {
    let tree = tree_of(rt, alloc);
    let mut files = file_of(rt, alloc, &tree, b"x1\nx2\n");
    let mut out = Watched {
        inner: sink(rt, alloc),
        taken: gate.taken,
    };
    let found = run_over(rt, alloc, setup(2, 2), &mut files, &mut out, gate);
    found.status == Ok(0) && out.inner.bytes() == b"x1\nx2\n".as_slice()
}

#[test]
fn rows_are_written_while_others_search(rt: HostRuntime) {
    let taken = AtomicU64::new(0);
    let gate = AfterWriting {
        taken: &taken,
        given_up: AtomicU64::new(0),
    };
    assert!(rt; writes_watched(&rt, rt.alloc(), &gate));
    assert_eq!(rt; gate.given_up.load(Ordering::SeqCst), 0);
}
