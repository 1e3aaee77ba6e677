//! The system's tree, over directories that a test makes, and over a runtime that stands in for the system.
use crate::memory::{is_walked_as, show_walk, texts};
use crate::rows::halves;
use pg_walk::{DiskTree, FileTree, LookFault, Scope};
use refusing::Refusing;
use std::alloc::{AllocError, Allocator, Global};
use std::fs::{File, Metadata, OpenOptions};
use std::io::{ErrorKind, Read};
use std::rt::Files;
use std::{fs, io, process, thread};

/// The stack of the thread that walks, in bytes.
const SMALL_STACK: usize = 0x10_0000;

/// Makes a new directory, which is the test's own, and directories below it down to a level that is too deep, and one
/// level more. Answers the path of the first.
fn make_deep(rt: &HostRuntime) -> String {
    let number = process::id(rt.process());
    let mut root = String::new(rt.alloc());
    let _ = write!(root, "/tmp/pg_walk-{number}");
    let mut deepest = String::new(rt.alloc());
    let _ = deepest.push_str(root.as_str());
    for _ in 0..258u32 {
        let _ = deepest.push_str("/e");
    }
    let _ = fs::create_dir_all(rt, deepest);
    root
}

/// Walks over an operand in the tree of a runtime, with all that is below it, and shows the items.
fn show_below<R: Files + Drop>(
    alloc: Global,
    rt: R,
    operand: &str,
    out: &mut String,
) -> Result<(), AllocError> {
    let scope = Scope::all(alloc, true);
    show_walk(
        alloc,
        &DiskTree::new(rt),
        &texts(alloc, operand),
        scope,
        out,
    )
}

/// The items of such a walk, or nothing where memory wants.
fn walked<R: Files + Drop>(alloc: Global, rt: R, operand: &str) -> String {
    let mut out = String::new(alloc);
    let walked = show_below(alloc, rt, operand, &mut out);
    if walked.is_err() {
        out.clear();
    }
    out
}

/// Whether a walk over the root tells alone of the directory 257 levels below it.
fn is_walked_deep(got: &str, root: &str) -> bool {
    match got.trim_start().strip_prefix(root) {
        Some(below) => below.len() == 522 && below.ends_with("/e:TooDeep"),
        None => false,
    }
}

#[test]
fn a_small_stack_holds_all_levels(rt: HostRuntime) {
    let alloc = rt.alloc();
    let root = make_deep(&rt);
    let operand = root.clone().expect(&rt, "memory");
    let thread = thread::Builder::new()
        .stack_size(SMALL_STACK)
        .spawn(&rt, move || walked(alloc, rt, operand.as_str()));
    let got = thread.expect(&rt, "a thread").join(&rt);
    fs::remove_dir_all(&rt, root.as_str()).expect(&rt, "a directory");
    assert!(rt; is_walked_deep(got.as_str(), root.as_str()));
}

/// Whether a device has no entries, and a directory is one by two paths and isn't one below it.
fn tells_files_apart<T: FileTree>(alloc: Global, tree: &T) -> bool {
    let listed = tree.entries(alloc, "/dev/null");
    let root = tree.identity("/");
    matches!(listed, Err(LookFault::Failed))
        && root.is_ok()
        && root == tree.identity("/dev/..")
        && root != tree.identity("/dev")
}

#[test]
fn devices_and_directories(rt: HostRuntime) {
    assert!(rt; tells_files_apart(rt.alloc(), &DiskTree::new(&rt)));
}

/// A runtime that stands in for the system, with a directory `d/`.
#[derive(Clone, Copy)]
struct StandIn {
    /// What the directory reads as: the names of its entries, each ended by a NUL, which `|` stands for.
    names: &'static str,
    /// A byte that stands for each `?` in them.
    unknown: u8,
    /// Whether the read behind these names fails.
    fails: bool,
}

/// The directory while it is read: one read gives all names.
#[derive(Drop)]
struct OpenDirectory {
    directory: StandIn,
    reads: u8,
}

impl Read for OpenDirectory {
    fn read(&mut self, buffer: &mut [u8]) -> io::Result<usize> {
        let reads = self.reads;
        self.reads = reads.saturating_add(1);
        if reads > 0 {
            if self.directory.fails {
                return Err(io::Error::from(ErrorKind::Other));
            }
            return Ok(0);
        }
        let names = self.directory.names.as_bytes();
        let count = names.len().min(buffer.len());
        for at in 0..count {
            buffer[at] = match names[at] {
                b'?' => self.directory.unknown,
                b'|' => 0,
                byte => byte,
            };
        }
        Ok(count)
    }
}

fn unsupported<T>() -> io::Result<T> {
    Err(io::Error::from(ErrorKind::Unsupported))
}

impl Files for StandIn {
    type File = File;

    type Dir = OpenDirectory;

    fn open_file(&self, _how: &OpenOptions, _path: &str) -> io::Result<File> {
        unsupported()
    }

    fn open_dir(&self, path: &str) -> io::Result<OpenDirectory> {
        match path {
            "d/" => Ok(OpenDirectory {
                directory: *self,
                reads: 0,
            }),
            "full/" => Err(io::Error::from(ErrorKind::OutOfMemory)),
            _ => Err(io::Error::from(ErrorKind::PermissionDenied)),
        }
    }

    fn metadata(&self, path: &str) -> io::Result<Metadata> {
        self.symlink_metadata(path)
    }

    fn symlink_metadata(&self, path: &str) -> io::Result<Metadata> {
        match path {
            "full" => Err(io::Error::from(ErrorKind::OutOfMemory)),
            "d" | "locked" => Ok(Metadata::of_dir()),
            _ => Ok(Metadata::of_file(0)),
        }
    }

    fn copy(&self, _from: &str, _to: &str) -> io::Result<u64> {
        unsupported()
    }

    fn rename(&self, _from: &str, _to: &str) -> io::Result<()> {
        unsupported()
    }

    fn remove_file(&self, _path: &str) -> io::Result<()> {
        unsupported()
    }

    fn create_dir(&self, _path: &str) -> io::Result<()> {
        unsupported()
    }

    fn remove_dir(&self, _path: &str) -> io::Result<()> {
        unsupported()
    }

    fn remove_dir_all<A: Allocator>(&self, _alloc: A, _path: &str) -> io::Result<()> {
        unsupported()
    }
}

/// What a directory reads as, the byte for `?`, whether its end can't be read, an operand, and what a walk over it
/// gives.
const NAMES: &str = ".|..| 255 false d =>
b|.|..|a| 255 false d => d/a d/b
b|?|...|a| 255 false d => d:BadName d/... d/a d/b
b|?b| 195 false d => d:BadName d/b
b|?| 97 false d => d/a d/b
b|?| 255 true d => d:CannotList
b|?|a| 255 false locked => locked:CannotList
b|?|a| 255 false full => out of memory";

/// Whether a walk over a directory gives what a row wants. A row that can't be read has no answer.
fn holds(alloc: Global, row: &'static str, out: &mut String) -> bool {
    let (asked, want) = halves(row);
    let (names, rest) = asked.split_once(' ').unwrap_or_default();
    let (unknown, rest) = rest.split_once(' ').unwrap_or_default();
    let (fails, operand) = rest.split_once(' ').unwrap_or_default();
    let (Ok(unknown), "true" | "false") = (unknown.parse(), fails) else {
        return false;
    };
    let directory = StandIn {
        names,
        unknown,
        fails: fails == "true",
    };
    let walked = show_below(alloc, directory, operand, out);
    is_walked_as(walked, out, want)
}

#[test]
fn names_that_are_not_utf8(rt: HostRuntime) {
    for row in NAMES.lines() {
        let mut out = String::new(rt.alloc());
        let is_right = holds(rt.alloc(), row, &mut out);
        assert!(rt; is_right, "{out} of {row}");
    }
}

/// A directory with the names `a`, `b` and one that isn't UTF-8.
const SOME: StandIn = StandIn {
    names: "b|?|a|",
    unknown: 255,
    fails: false,
};

/// Whether a listing of that directory has its names, or wants memory where a request is refused.
pub(crate) fn is_listed(heap: &Refusing) -> bool {
    match DiskTree::new(SOME).entries(heap, "d") {
        Ok(listing) => !heap.has_refused() && listing.nameless && listing.names.len() == 2,
        Err(fault) => heap.has_refused() && fault == LookFault::OutOfMemory,
    }
}
