//! Runs over files without lines: how many wait for their rows.
ghost use Rattle.std.specs.Prelude.{◌≡◌, [], false};

use crate::runs::{Watched, operand, run_over, setup, tree_of};
use pg_base::MemSink;
use pg_files::{Ending, MemStore, OpenFault, OperandFiles, ReadFault, Store};
use pg_rows::Mode;
use pg_search::{FreeGate, Setup};
use pg_walk::{FileKind, MemTree, Node, Scope};
use std::alloc::Global;
use std::process::Abort;
use std::sync::Wait;
use std::sync::atomic::{AtomicU64, Ordering};
use std::thread::Threads;
use std::time::Clock;

/// So many files without a line stand behind one with a line.
const EMPTY: u64 = 2_000;

/// Files in memory that tell others the most files that were open before one was opened and had no row yet. A row has
/// two bytes.
struct Awaited<'n> {
    inner: MemStore,
    opened: u64,
    taken: &'n AtomicU64,
    most: &'n AtomicU64,
}

impl Drop for Awaited<'_> {
    fn drop(self) {
        let Awaited {
            inner: _,
            opened: _,
            taken: _,
            most: _,
        } = self;
    }
}

impl<'n> Store for Awaited<'n> {
    type Alloc = Global;

    ghost past = { λ s. s.inner.past };

    fn open(&mut self, path: &str, spares_output: bool) -> Result<(), OpenFault> {
        let written = self.taken.load(Ordering::SeqCst) / 2;
        self.most
            .fetch_max(self.opened.saturating_sub(written), Ordering::SeqCst);
        self.opened = self.opened.saturating_add(1);
        self.inner.open(path, spares_output)
    }

    fn may_wait(&self) -> bool {
        self.inner.may_wait()
    }

    fn read(&mut self, into: &mut [u8]) -> Result<usize, ReadFault> {
        self.inner.read(into)
    }

    fn take_buffered(&mut self, most: usize) -> Option<Vec<u8>> {
        self.inner.take_buffered(most)
    }
}

/// A tree of the files `f` and `x`.
fn both(rt: &impl Abort, alloc: Global) -> MemTree {
    let mut tree = tree_of(rt, alloc);
    let node = Node::new(FileKind::Regular);
    tree.add("x", node).expect(rt, "memory");
    tree
}

/// The path `x`, and then the path `f` time and again.
fn paths(rt: &impl Abort, alloc: Global) -> Vec<String> {
    let mut paths = Vec::new(alloc);
    let first = String::from_str(alloc, "x").expect(rt, "memory");
    paths.push(first).expect(rt, "memory");
    for _ in 0..EMPTY {
        paths.push(operand(rt, alloc)).expect(rt, "memory");
    }
    paths
}

/// The bytes of both files, of which `x` alone has a line.
fn store_of<'n>(
    rt: &impl Abort,
    alloc: Global,
    taken: &'n AtomicU64,
    most: &'n AtomicU64,
) -> Awaited<'n> {
    let mut inner = MemStore::new(alloc);
    inner.add("x", b"x\n", Ending::Ends).expect(rt, "memory");
    inner.add("f", b"", Ending::Ends).expect(rt, "memory");
    Awaited {
        inner,
        opened: 0,
        taken,
        most,
    }
}

/// The files at these paths.
fn files_of<'n, 't>(
    rt: &impl Abort,
    alloc: Global,
    tree: &'t MemTree,
    taken: &'n AtomicU64,
    most: &'n AtomicU64,
) -> OperandFiles<'t, MemTree, Awaited<'n>>
    ensures { (result.walk.asked.items ≡ []) × (result.done ≡ false) }
{
    let paths = paths(rt, alloc);
    let store = store_of(rt, alloc, taken, most);
    let mut files = OperandFiles::new(alloc, tree, store);
    let scope = Scope::all(alloc, false);
    let listed = files.list(alloc, tree, &paths, scope, false, String::new(alloc));
    listed.expect(rt, "memory");
    files
}

/// Rounds of two blocks by at most two threads, whose lines are counted.
fn counting(workers: u8) -> Setup {
    let mut setup = setup(u32::from(workers.min(2)), 2);
    setup.format.mode = Mode::Count;
    setup
}

/// A sink that takes a row for each file.
fn room_for_all<'n>(rt: &impl Abort, alloc: Global, taken: &'n AtomicU64) -> Watched<'n> {
    Watched {
        inner: MemSink::new(alloc, 5_000).expect(rt, "memory"),
        taken,
    }
}

/// The most files that waited for their rows, where a run by so many threads counts lines in rounds of two blocks.
fn most_waiting<R: Abort + Threads + Wait + Clock + Sync>(
    rt: &R,
    alloc: Global,
    workers: u8,
) -> u64 {
    let taken = AtomicU64::new(0);
    let most = AtomicU64::new(0);
    let tree = both(rt, alloc);
    let mut files = files_of(rt, alloc, &tree, &taken, &most);
    let mut out = room_for_all(rt, alloc, &taken);
    let found = run_over(
        rt,
        alloc,
        counting(workers),
        &mut files,
        &mut out,
        &FreeGate,
    );
    let are_written = taken.load(Ordering::SeqCst) == 2 * EMPTY + 2;
    assert!(rt; found.status == Ok(0) && are_written, "a row for each file");
    most.load(Ordering::SeqCst)
}

#[test]
fn files_without_lines_wait_for_nothing(rt: HostRuntime) {
    assert_eq!(rt; most_waiting(&rt, rt.alloc(), 0), 0);
}

#[test]
fn few_files_without_lines_wait_for_a_round(rt: HostRuntime) {
    let most = most_waiting(&rt, rt.alloc(), 2);
    assert!(rt; 1_000 < most && most < 1_100, "{most} files");
}
