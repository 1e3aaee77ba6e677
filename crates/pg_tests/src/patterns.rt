//! Parsing while memory is refused.
use pg_syntax::{
    FaultKind, Kind, ListFault, PatternList, SyntaxFault, fixed, parse_bre, parse_ere, parse_list,
};
use refusing::Refusing;
use std::alloc::{Allocator, Global};
use std::process::Abort;

/// Parses a text as each kind of pattern.
fn parse_kinds<A: Allocator + Copy>(alloc: A, text: &[u8]) -> Result<(), SyntaxFault> {
    let _ = parse_bre(alloc, text, false)?;
    let _ = parse_ere(alloc, text, true)?;
    let _ = fixed(alloc, text, false)?;
    Ok(())
}

/// Parses a list of patterns: a text, and a file of it.
fn parse_lists<A: Allocator + Copy>(alloc: A, text: &[u8]) -> Result<usize, ListFault> {
    let mut lists = Vec::new(alloc);
    lists.push(PatternList::Text(Vec::from_slice(alloc, text)?))?;
    lists.push(PatternList::Lines(Vec::from_slice(alloc, text)?))?;
    let trees = parse_list(alloc, Kind::Extended, lists.as_slice(), false)?;
    Ok(trees.len())
}

/// Parses a text as each kind, and a list of patterns, on one allocator.
fn parse_all<A: Allocator + Copy>(alloc: A, text: &[u8]) -> Result<usize, ListFault> {
    match parse_kinds(alloc, text) {
        Ok(()) => parse_lists(alloc, text),
        Err(fault) => Err(ListFault { pattern: 0, fault }),
    }
}

/// What is answered where memory wants.
const NO_MEMORY: ListFault = ListFault {
    pattern: 0,
    fault: SyntaxFault {
        kind: FaultKind::OutOfMemory,
        at: 0,
    },
};

/// Whether parsing a text goes through without a refusal, or else wants memory.
fn is_right(heap: &Refusing, text: &[u8]) -> bool {
    match parse_all(heap, text) {
        Ok(_) => !heap.has_refused(),
        Err(fault) => heap.has_refused() && fault == NO_MEMORY,
    }
}

/// Refuses each request for memory of parsing a text in turn.
fn refuse_each(rt: &impl Abort, alloc: Global, text: &[u8]) {
    for passes in 0..200u64 {
        let heap = Refusing::new(alloc, passes);
        assert!(rt; is_right(&heap, text), "at {passes}");
        if !heap.has_refused() {
            return;
        }
    }
    panic!(rt; "more than 200 requests")
}

#[test]
fn memory_may_be_refused(rt: HostRuntime) {
    let texts: [&'static [u8]; 3] = [b"a|b", b"(a|bc*)+\n^[a-z]$", b"\\(^a$\\)"];
    for text in texts {
        refuse_each(&rt, rt.alloc(), text);
    }
}
