//! Runs that read a file on while threads search what was read of it.
ghost use Rattle.std.specs.Prelude.{◌≡◌, [], false};

use crate::fixtures::PATIENCE;
use crate::runs::{Outcome, operand, run_over, setup, sink, tree_of};
use pg_base::MemSink;
use pg_files::{Ending, MemStore, OpenFault, OperandFiles, ReadFault, Store};
use pg_search::{FreeGate, Gate, RunFault, SearchFault, Setup};
use pg_walk::{MemTree, Scope};
use std::alloc::Global;
use std::process::Abort;
use std::sync::Wait;
use std::sync::atomic::{AtomicU64, Ordering};
use std::thread;
use std::thread::Threads;
use std::time::Clock;

/// Files in memory that tell others how often they were read.
struct Counted<'n> {
    inner: MemStore,
    may_wait: bool,
    reads: &'n AtomicU64,
}

impl Drop for Counted<'_> {
    fn drop(self) {
        let Counted {
            inner: _,
            may_wait: _,
            reads: _,
        } = self;
    }
}

impl<'n> Store for Counted<'n> {
    type Alloc = Global;

    ghost past = { λ s. s.inner.past };

    fn open(&mut self, path: &str, spares_output: bool) -> Result<(), OpenFault> {
        self.inner.open(path, spares_output)
    }

    fn may_wait(&self) -> bool {
        self.may_wait
    }

    fn read(&mut self, into: &mut [u8]) -> Result<usize, ReadFault> {
        self.reads.fetch_add(1, Ordering::SeqCst);
        self.inner.read(into)
    }

    fn take_buffered(&mut self, most: usize) -> Option<Vec<u8>> {
        self.inner.take_buffered(most)
    }
}

/// The file of a store.
fn file_of<'n, 't>(
    rt: &impl Abort,
    alloc: Global,
    tree: &'t MemTree,
    store: Counted<'n>,
) -> OperandFiles<'t, MemTree, Counted<'n>>
    ensures { (result.walk.asked.items ≡ []) × (result.done ≡ false) }
{
    let operands = [operand(rt, alloc)];
    let mut files = OperandFiles::new(alloc, tree, store);
    let scope = Scope::all(alloc, true);
    let listed = files.list(alloc, tree, &operands, scope, true, String::new(alloc));
    listed.expect(rt, "memory");
    files
}

/// The file of a case, of which a read gives six bytes.
fn store_of<'n>(rt: &impl Abort, alloc: Global, case: &Case, reads: &'n AtomicU64) -> Counted<'n> {
    let mut inner = MemStore::new(alloc);
    inner.add("f", case.file, case.ending).expect(rt, "memory");
    inner.set_read_limit(6);
    Counted {
        inner,
        may_wait: case.may_wait,
        reads,
    }
}

/// Who searches waits until a file was read so often, or gives up. It counts those who gave up.
struct AfterReading<'n> {
    reads: &'n AtomicU64,
    least: u64,
    patience: u32,
    given_up: AtomicU64,
}

impl Drop for AfterReading<'_> {
    fn drop(self) {
        let AfterReading {
            reads: _,
            least: _,
            patience: _,
            given_up: _,
        } = self;
    }
}

impl<'n> Gate for AfterReading<'n> {
    fn before(&self, _number: u32) {
        for _ in 0..self.patience {
            if self.reads.load(Ordering::SeqCst) >= self.least {
                return;
            }
            thread::yield_now();
        }
        self.given_up.fetch_add(1, Ordering::SeqCst);
    }

    fn after(&self, _number: u32) {}
}

/// A file, the least size of its blocks, how long a search waits for its second read, and what a run over it does.
#[derive(Clone, Copy)]
struct Case {
    file: &'static [u8],
    block: u8,
    ending: Ending,
    may_wait: bool,
    patience: u32,
    status: Result<u8, SearchFault>,
    output: &'static [u8],
    told: &'static [u8],
    given_up: u64,
}

/// Three files that are read on while they are searched, of which the next read gives the rest, or fails, or meets a
/// line that is too long; the last two come behind the rows. And two whose reading may wait, which aren't read on: what
/// came is searched before, also where it fills no block.
const CASES: [Case; 5] = [
    Case {
        file: b"x1\nx2\nx3\nx4\nx5",
        block: 1,
        ending: Ending::Ends,
        may_wait: false,
        patience: PATIENCE,
        status: Ok(0),
        output: b"x1\nx2\nx3\nx4\nx5\n",
        told: b"",
        given_up: 0,
    },
    Case {
        file: b"x1\nx2\n",
        block: 1,
        ending: Ending::Fails,
        may_wait: false,
        patience: PATIENCE,
        status: Ok(2),
        output: b"x1\nx2\n",
        told: b"pargrep: f: read failed\n",
        given_up: 0,
    },
    Case {
        file: b"x1\nx2\nxxxxxx",
        block: 1,
        ending: Ending::Ends,
        may_wait: false,
        patience: PATIENCE,
        status: Err(SearchFault::Run(RunFault::TooLong)),
        output: b"x1\nx2\n",
        told: b"",
        given_up: 0,
    },
    Case {
        file: b"x1\nx2\n",
        block: 1,
        ending: Ending::Ends,
        may_wait: true,
        patience: 1_000,
        status: Ok(0),
        output: b"x1\nx2\n",
        told: b"",
        given_up: 2,
    },
    Case {
        file: b"x1\nx2\nx3",
        block: 100,
        ending: Ending::Ends,
        may_wait: true,
        patience: 1_000,
        status: Ok(0),
        output: b"x1\nx2\nx3\n",
        told: b"",
        given_up: 1,
    },
];

/// Whether a run for the letter x does what is expected, in rounds of two lines, with lines of at most four bytes.
fn reads_on<R: Abort + Threads + Wait + Clock + Sync>(rt: &R, alloc: Global, case: &Case) -> bool {
    let reads = AtomicU64::new(0);
    let gate = AfterReading {
        reads: &reads,
        least: 2,
        patience: case.patience,
        given_up: AtomicU64::new(0),
    };
    let tree = tree_of(rt, alloc);
    let store = store_of(rt, alloc, case, &reads);
    let mut files = file_of(rt, alloc, &tree, store);
    let mut out = sink(rt, alloc);
    let found = run_over(rt, alloc, setup_of(case), &mut files, &mut out, &gate);
    is_of(case, &found, &out) && gate.given_up.load(Ordering::SeqCst) == case.given_up
}

/// Rounds of two lines, each a block of the case's size, with lines of at most four bytes.
fn setup_of(case: &Case) -> Setup {
    let mut setup = setup(2, 2);
    setup.line = 4;
    setup.block = u32::from(case.block.max(1));
    setup
}

/// Whether a run answers, writes and tells what is expected.
fn is_of(case: &Case, found: &Outcome, out: &MemSink) -> bool {
    found.status == case.status && out.bytes() == case.output && found.told.bytes() == case.told
}

/// How often the first file is read by a run that shows its lines, where it is in memory already or not.
fn reads_of<R: Abort + Threads + Wait + Clock + Sync>(
    rt: &R,
    alloc: Global,
    is_buffered: bool,
) -> u64 {
    let reads = AtomicU64::new(0);
    let tree = tree_of(rt, alloc);
    let mut store = store_of(rt, alloc, &CASES[0], &reads);
    if is_buffered {
        store.inner.buffer(alloc);
    }
    let mut files = file_of(rt, alloc, &tree, store);
    let mut out = sink(rt, alloc);
    let found = run_over(rt, alloc, setup(0, 1), &mut files, &mut out, &FreeGate);
    assert!(rt; is_of(&CASES[0], &found, &out));
    reads.load(Ordering::SeqCst)
}

/// Of 14 bytes three reads give some, and one more finds their end.
#[test]
fn a_file_in_memory_is_taken_at_once(rt: HostRuntime) {
    assert!(rt; reads_of(&rt, rt.alloc(), false) == 4);
    assert!(rt; reads_of(&rt, rt.alloc(), true) == 1);
}

#[test]
fn a_file_is_read_on_while_it_is_searched(rt: HostRuntime) {
    for (number, case) in CASES.iter().enumerate() {
        assert!(rt; reads_on(&rt, rt.alloc(), case), "case {number}");
    }
}
