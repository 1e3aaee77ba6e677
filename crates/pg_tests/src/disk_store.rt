//! The system's files.
ghost use Rattle.std.specs.Prelude.{◌≡◌, true};
ghost use Rattle.pg_files.specs.Given.{is_reading};

use crate::formats::cut;
use pg_files::{DiskStore, Store};
use std::process::Abort;

/// How many bytes a read is to give, or `None` where it is to fail.
fn wanted_of(rt: &impl Abort, word: &str) -> Option<usize> {
    match word {
        "fault" => None,
        count => Some(count.parse().expect(rt, "a number or fault")),
    }
}

/// Whether a read into 16 bytes gives so many, or fails where none is wanted.
fn reads<S: Store>(store: &mut S, wanted: Option<usize>) -> bool
    requires { is_reading (S.past store.old) ≡ true }
{
    let mut buffer = [0u8; 16];
    store.read(&mut buffer).ok() == wanted
}

/// Whether a path is one that can be opened.
fn is_to_open(rt: &impl Abort, word: &str) -> bool {
    match word {
        "opens" => true,
        "misses" => false,
        _ => panic!(rt; "opens or misses"),
    }
}

/// Whether a path can be opened, and a read is then as a row says, or can't be.
fn is_right<S: Store>(rt: &impl Abort, store: &mut S, row: &str) -> bool {
    let (path, rest) = cut(rt, row, " ");
    let (opened, wanted) = cut(rt, rest, " ");
    match store.open(path, true) {
        Ok(()) => is_to_open(rt, opened) && reads(store, wanted_of(rt, wanted)),
        Err(_) => !is_to_open(rt, opened),
    }
}

/// Paths, whether each can be opened, and what a read gives then.
const PATHS: &str = "/dev/null opens 0
/ opens fault
/dev/zero opens 16
/dev/null/below misses -";

/// Paths are as the rows say.
fn assert_paths<S: Store>(rt: &impl Abort, store: &mut S) {
    for row in PATHS.lines() {
        assert!(rt; is_right(rt, store, row), "{row}");
    }
}

#[test]
fn real_files(rt: HostRuntime) {
    assert_paths(&rt, &mut DiskStore::new(&rt));
}
