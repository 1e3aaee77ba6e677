//! Rounds of blocks.
ghost use Rattle.std.specs.Prelude.{◌≡◌, ◌<◌, ◌≤◌, All, vec_len, IfOk};
ghost use Rattle.pg_match.specs.Machines.{Fits};
ghost use Rattle.pg_run.specs.Searches.{HasShortLines};

use crate::fixtures::{Counting, Counts, Holding, Meeting, Stepping, blocks, query, scratches};
use pg_base::MemSink;
use pg_blocks::Block;
use pg_lines::{Query, Scratch};
use pg_reader::{NothingToRead, Reader};
use pg_round::{RoundFault, search_round};
use pg_search::{FreeGate, Gate, GatedQuery};
use refusing::Refusing;
use std::alloc::{AllocError, Allocator, Global};
use std::sync::atomic::Ordering;
use std::sync::{Arc, Wait};
use std::thread::Threads;
use std::time::Clock;

/// What a round searches, and by which scratches.
struct Round<A: Allocator> {
    query: Query<A>,
    blocks: Vec<Arc<Block<A>, A>, A>,
    scratches: Vec<Scratch<A>, A>,
}

impl<A: Allocator> Drop for Round<A> {
    fn drop(self) {
        let Round {
            query: _,
            blocks: _,
            scratches: _,
        } = self;
    }
}

/// A round of so many blocks, by so many scratches.
fn round_of<A: Allocator + Copy>(
    alloc: A,
    blocks_count: u32,
    scratches_count: u32,
) -> Result<Round<A>, AllocError>
    ensures counts { IfOk result (λ r. (vec_len r.blocks ≡ blocks_count) × (vec_len r.scratches ≡ scratches_count)) }
    ensures short { IfOk result (λ r. All (HasShortLines r.query.text) r.blocks.items) }
    ensures fits { IfOk result (λ r. All (λ s. Fits s r.query.machine) r.scratches.items) }
{
    let query = query(alloc)?;
    let blocks = blocks(alloc, &query, blocks_count)?;
    let scratches = scratches(alloc, &query, scratches_count)?;
    Ok(Round {
        query,
        blocks,
        scratches,
    })
}

/// How often the result of each block came, and how many scratches are there after the round.
fn search_beside<
    R: Threads + Wait + Clock + Sync,
    A: Allocator + Copy + Send + Sync,
    D: Reader<F>,
    F,
    G: Gate + Sync,
>(
    rt: &R,
    alloc: A,
    blocks_count: u32,
    scratches_count: u32,
    reader: &mut D,
    from: &mut F,
    gate: &G,
) -> Result<([u32; 8], usize), RoundFault>
    requires few { (0 < scratches_count) × (scratches_count ≤ 65) × (blocks_count ≤ 8) }
    requires reader { D.ready reader.old from.old }
{
    let mut round = round_of(alloc, blocks_count, scratches_count)?;
    let mut counts = Counts { found: [0; 8] };
    let mut sink = MemSink::new(alloc, 100)?;
    let query = GatedQuery {
        alloc,
        query: &round.query,
        gate,
    };
    search_round(
        rt,
        alloc,
        &query,
        round.blocks.as_slice(),
        64,
        &mut round.scratches,
        &mut counts,
        &mut sink,
        reader,
        from,
    )?;
    Ok((counts.found, round.scratches.len()))
}

/// Searches a round of so many blocks, where there is nothing to read.
fn search_some<R: Threads + Wait + Clock + Sync, A: Allocator + Copy + Send + Sync, G: Gate + Sync>(
    rt: &R,
    alloc: A,
    blocks_count: u32,
    scratches_count: u32,
    gate: &G,
) -> Result<([u32; 8], usize), RoundFault>
    requires { (0 < scratches_count) × (scratches_count ≤ 65) × (blocks_count ≤ 8) }
{
    search_beside(
        rt,
        alloc,
        blocks_count,
        scratches_count,
        &mut NothingToRead,
        &mut (),
        gate,
    )
}

#[test]
fn each_block_is_searched_once(rt: HostRuntime) {
    for count in [1u32, 2, 4, 65] {
        let gate = Counting::new();
        let found = search_some(&rt, rt.alloc(), 7, count, &gate);
        assert!(rt; found == Ok(([1, 1, 1, 1, 1, 1, 1, 0], count as usize)));
        for number in 0..7usize {
            assert!(rt; gate.has_called(number, 1));
        }
    }
}

#[test]
fn a_round_may_be_short(rt: HostRuntime) {
    let found = search_some(&rt, rt.alloc(), 0, 3, &FreeGate);
    assert!(rt; found == Ok(([0; 8], 3)));
    let found = search_some(&rt, rt.alloc(), 1, 3, &FreeGate);
    assert!(rt; found == Ok(([1, 0, 0, 0, 0, 0, 0, 0], 3)));
    let found = search_some(&rt, rt.alloc(), 3, 65, &FreeGate);
    assert!(rt; found == Ok(([1, 1, 1, 0, 0, 0, 0, 0], 65)));
}

#[test]
fn two_search_at_once(rt: HostRuntime) {
    let gate = Meeting::of(2);
    let found = search_some(&rt, rt.alloc(), 2, 3, &gate);
    assert!(rt; found == Ok(([1, 1, 0, 0, 0, 0, 0, 0], 3)));
    assert_eq!(rt; gate.outcome(), (2, 0), "met, and waited in vain");
}

#[test]
fn all_workers_search_at_once(rt: HostRuntime) {
    let gate = Meeting::of(7);
    let found = search_some(&rt, rt.alloc(), 7, 8, &gate);
    assert!(rt; found == Ok(([1, 1, 1, 1, 1, 1, 1, 0], 8)));
    assert_eq!(rt; gate.outcome(), (7, 0), "met, and waited in vain");
}

/// What four blocks and a reader came to, where the reader had 100 steps to make.
#[derive(Clone, Copy)]
struct Beside {
    /// Each block was searched once.
    is_once: bool,
    /// So many steps were left.
    left: u32,
    /// So many were made.
    made: u32,
    /// So often the reader was asked for one.
    asked: u32,
    /// So often a wait was given up.
    given_up: u64,
}

/// Searches four blocks beside a reader that has 100 steps to make, of which so many are waited for.
fn step_beside<R: Threads + Wait + Clock + Sync>(
    rt: &R,
    alloc: Global,
    wanted: u64,
    scratches_count: u32,
) -> Beside
    requires { (0 < scratches_count) × (scratches_count ≤ 65) }
{
    let gate = Holding::new(wanted);
    let mut reader = Stepping {
        gate: &gate,
        left: 100,
        asked: 0,
    };
    let mut made = 0u32;
    let found = search_beside(rt, alloc, 4, scratches_count, &mut reader, &mut made, &gate);
    Beside {
        is_once: found == Ok(([1, 1, 1, 1, 0, 0, 0, 0], scratches_count as usize)),
        left: reader.left,
        made,
        asked: reader.asked,
        given_up: gate.given_up.load(Ordering::SeqCst),
    }
}

#[test]
fn steps_are_made_where_workers_search(rt: HostRuntime) {
    let found = step_beside(&rt, rt.alloc(), 100, 3);
    assert!(rt; found.is_once && found.left == 0 && found.made == 100);
    assert!(rt; found.given_up == 0);
}

#[test]
fn without_workers_no_step_is_asked_for(rt: HostRuntime) {
    let found = step_beside(&rt, rt.alloc(), 0, 1);
    assert!(rt; found.is_once && found.left == 100 && found.asked == 0);
}

#[test]
fn each_request_may_be_refused(rt: HostRuntime) {
    for passes in 0..1000u64 {
        let heap = Refusing::new(rt.alloc(), passes);
        let found = search_some(&rt, &heap, 4, 3, &FreeGate);
        let is_whole = found == Ok(([1, 1, 1, 1, 0, 0, 0, 0], 3));
        if !heap.has_refused() {
            assert!(rt; is_whole, "nothing was refused");
            return;
        }
        assert!(rt;
            is_whole || found == Err(RoundFault::OutOfMemory),
            "at {passes}"
        );
    }
    panic!(rt; "more than 1000 requests")
}
