//! Each request for memory is refused in turn.
use crate::{board, cutter, disk, lines, machine, memory, strings, tray};
use refusing::Refusing;
use std::alloc::Global;
use std::sync::Wait;
use std::thread::Threads;

/// What is tried on memory that is refused, and how many requests for memory it makes at least.
const TRIALS: &str = "board 1
tray 1
tray of threads 1
room 2
lines 2
listing 4
walk 21
tree in memory 4
machine 14
strings 7
search 38";

/// Whether a trial goes through without a refusal, or else gives what is right then. None does of another name.
fn holds<R: Threads + Wait + Sync>(rt: &R, alloc: Global, heap: &Refusing, trial: &str) -> bool {
    match trial {
        "board" => board::is_drawn(heap),
        "tray" => tray::is_handed_out(rt, heap),
        "tray of threads" => tray::is_delivered(rt, alloc, heap),
        "room" => cutter::is_filled(heap),
        "lines" => cutter::is_lined(heap),
        "listing" => disk::is_listed(heap),
        "walk" => memory::is_walked(alloc, heap),
        "tree in memory" => memory::is_added(heap),
        "machine" => machine::is_selected(heap),
        "strings" => strings::are_prepared(heap),
        "search" => lines::are_found(alloc, heap),
        _ => false,
    }
}

/// How many requests a trial makes, at most 999, where it holds with each of them refused in turn; or else which it
/// was with whose refusal it doesn't hold.
fn requests_of<R: Threads + Wait + Sync>(rt: &R, alloc: Global, trial: &str) -> Result<u64, u64> {
    for passes in 0..1000u64 {
        let heap = Refusing::new(alloc, passes);
        if !holds(rt, alloc, &heap, trial) {
            return Err(passes);
        }
        if !heap.has_refused() {
            return Ok(passes);
        }
    }
    Err(1000)
}

#[test]
fn each_request_may_be_refused(rt: HostRuntime) {
    for row in TRIALS.lines() {
        let (trial, least) = row.rsplit_once(' ').unwrap_or_default();
        let requests = requests_of(&rt, rt.alloc(), trial);
        let least = least.parse().unwrap_or(u64::MAX);
        let is_right = matches!(requests, Ok(made) if least <= made);
        assert!(rt; is_right, "{trial}: {requests:?}");
    }
}
