//! Memory that is refused while a file is cut and searched.
use crate::fixtures::{SPARED, query_of, search, text_of};
use pg_blocks::{Block, CutFault, Cutter};
use pg_lines::{Kind, Query, QueryFault};
use refusing::Refusing;
use std::alloc::{AllocError, Allocator, Global};
use std::process::Abort;
use std::test::Fail;

const FILE: &[u8] = b"a\nbc\n\nd\nefg\nh";

/// The blocks of the file that have at least two bytes, but for the last one.
const BLOCKS: [&[u8]; 4] = [b"a\n", b"bc\n", b"\nd\n", b"efg\n"];

/// Feeds a piece, and again where a request for memory is refused, which happens once. Answers whether it succeeds.
fn feed_at_last<A: Allocator + Copy>(cutter: &mut Cutter<A>, piece: &[u8]) -> bool {
    match cutter.feed(piece) {
        Ok(()) => true,
        Err(CutFault::OutOfMemory) => cutter.feed(piece).is_ok(),
        Err(_) => false,
    }
}

/// Whether a block is there, has a number and bytes, and is of file 3.
fn is_block<A: Allocator>(block: Option<Block<A>>, number: u64, bytes: &[u8]) -> bool {
    match block {
        Some(block) => {
            block.file == 3 && block.number == number && block.bytes.as_slice() == bytes
        }
        None => false,
    }
}

/// Whether the cutter has the blocks of the file, which was fed to it.
fn has_blocks<A: Allocator + Copy>(cutter: Cutter<A>) -> bool {
    let mut cutter = cutter;
    let mut right = true;
    for (number, bytes) in BLOCKS.iter().enumerate() {
        right &= is_block(cutter.take(), number as u64, bytes);
    }
    right &= cutter.take().is_none();
    right && is_block(cutter.finish(), 4, b"h")
}

/// Whether the file, fed at once, has its blocks, at a second call where a request for memory is refused.
fn is_fed(heap: &Refusing) -> bool {
    let mut cutter = Cutter::new(heap, 3, 2, 100, b'\n');
    match cutter.feed(FILE) {
        Ok(()) => !heap.has_refused() && has_blocks(cutter),
        Err(CutFault::OutOfMemory) => {
            heap.has_refused() && cutter.feed(FILE).is_ok() && has_blocks(cutter)
        }
        Err(_) => false,
    }
}

#[test]
fn refused_feed_changes_nothing(rt: HostRuntime) {
    for passes in 0..100u64 {
        let heap = Refusing::new(rt.alloc(), passes);
        assert!(rt; is_fed(&heap), "at {passes}");
        if !heap.has_refused() {
            assert!(rt; passes > 4, "a request for each block");
            return;
        }
    }
    panic!(rt; "more than 100 requests")
}

/// Whether the file, fed in two pieces, has its blocks.
fn is_fed_in_pieces(heap: &Refusing, piece: &[u8], later: &[u8]) -> bool {
    let mut cutter = Cutter::new(heap, 3, 2, 100, b'\n');
    feed_at_last(&mut cutter, piece) && feed_at_last(&mut cutter, later) && has_blocks(cutter)
}

/// Refuses each request for memory of a file in two pieces in turn.
fn refuse_pieces(rt: &impl Abort, alloc: Global, piece: &[u8], later: &[u8]) {
    for passes in 0..100u64 {
        let heap = Refusing::new(alloc, passes);
        assert!(rt; is_fed_in_pieces(&heap, piece, later));
        if !heap.has_refused() {
            assert!(rt; passes > 4, "a request for each block");
            return;
        }
    }
    panic!(rt; "more than 100 requests")
}

#[test]
fn refused_feed_of_a_piece_changes_nothing(rt: HostRuntime) {
    for at in 0..=FILE.len() {
        let (piece, later) = FILE.split_at(at);
        refuse_pieces(&rt, rt.alloc(), piece, later);
    }
}

/// Compiles a text, for which eight requests are made before, and answers whether the query has it.
fn compile_once<A: Allocator + Copy>(alloc: A) -> Result<bool, QueryFault> {
    let same = text_of(alloc, Kind::Extended, b"ab|c")?;
    let query = Query::compile(alloc, text_of(alloc, Kind::Extended, b"ab|c")?)?;
    Ok(*query.text() == same)
}

#[test]
fn refused_compilation(rt: HostRuntime) {
    for passes in 0..100u64 {
        let heap = Refusing::new(rt.alloc(), passes);
        let compiled = compile_once(&heap);
        if !heap.has_refused() {
            assert!(rt; compiled == Ok(true));
            assert!(rt; passes > 8, "some of the compilation were refused");
            return;
        }
        assert!(rt; compiled == Err(QueryFault::OutOfMemory), "at {passes}");
    }
    panic!(rt; "more than 100 requests")
}

/// Makes a query and searches six runs of lines, and answers how many were found.
fn search_once<A: Allocator + Copy>(alloc: A) -> Result<usize, AllocError> {
    let query = query_of(alloc, b"b")?;
    let found = search(alloc, &query, 0, 0, b"b\na\nb\na\nb\na\nb\na\nb\na\nb\n")?;
    Ok(found.runs().len())
}

/// How many requests for memory the query of `search_once` makes.
fn requests_of_query(alloc: Global) -> Result<u64, AllocError> {
    let heap = Refusing::new(alloc, 1000);
    let _query = query_of(&heap, b"b")?;
    Ok(heap.requests())
}

#[test]
fn refused_search(rt: HostRuntime) -> Result<(), Fail> {
    let before = requests_of_query(rt.alloc())?;
    let mut spared: u64 = 0;
    for passes in 0..100u64 {
        let heap = Refusing::new(rt.alloc(), passes);
        let found = search_once(&heap);
        if !heap.has_refused() {
            assert!(rt; found == Ok(6) && spared == SPARED);
            // Two requests for the block and more for the runs.
            assert!(rt; passes > before.wrapping_add(3));
            return Ok(());
        }
        if found.is_ok() {
            assert!(rt; found == Ok(6), "at {passes}");
            spared = spared.wrapping_add(1);
        }
    }
    panic!(rt; "more than 100 requests")
}
