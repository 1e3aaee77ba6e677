//! Requests for memory that are refused.
use refusing::Refusing;
use std::alloc::{AllocError, Allocator, Global};
use std::thread;
use std::thread::Threads;

/// Pushes until a push is refused, at most 1,000 times. It returns how many were pushed.
fn fill<A: Allocator>(bytes: &mut Vec<u8, A>) -> usize {
    for _ in 0..1000u32 {
        if bytes.push(b'a').is_err() {
            break;
        }
    }
    bytes.len()
}

/// Whether a list has to grow where its second request is refused, and a push behind that goes through.
fn is_refused_once(alloc: Global) -> bool {
    let heap = Refusing::new(alloc, 1);
    let mut bytes = Vec::new(&heap);
    let pushed = fill(&mut bytes);
    let is_full = pushed > 0 && pushed == bytes.capacity() && heap.requests() == 2;
    is_full && heap.has_refused() && bytes.push(b'b').is_ok() && heap.requests() == 3
}

/// Whether pushes are refused for good behind the first request.
fn is_refused_for_good(alloc: Global) -> bool {
    let heap = Refusing::lasting(alloc, 1);
    let mut bytes = Vec::new(&heap);
    let pushed = fill(&mut bytes);
    pushed > 0 && fill(&mut bytes) == pushed && heap.requests() == 3 && heap.has_refused()
}

#[test]
fn pushes_are_refused_once_or_for_good(rt: HostRuntime) {
    assert!(rt; is_refused_once(rt.alloc()) && is_refused_for_good(rt.alloc()));
}

/// Makes two boxes.
fn make_two<A: Allocator + Copy>(alloc: A) -> Result<(), AllocError> {
    let _one = Box::new(alloc, 1u8)?;
    let _other = Box::new(alloc, 2u64)?;
    Ok(())
}

/// Whether two threads, each of which makes two boxes, make them all.
fn make_four<R: Threads, A: Allocator + Copy + Send + Sync>(rt: &R, alloc: A) -> bool {
    let (one, other) = thread::join(rt, move || make_two(alloc), move || make_two(alloc));
    one.is_ok() && other.is_ok()
}

/// How many requests two threads made of which one or more were refused.
fn requests_refused<R: Threads>(rt: &R, heap: &Refusing) -> Option<u64> {
    let is_refused = !make_four(rt, heap) && heap.has_refused();
    is_refused.then_some(heap.requests())
}

#[test]
fn requests_of_two_threads_are_counted(rt: HostRuntime) {
    let last = Refusing::new(rt.alloc(), 3);
    assert!(rt; requests_refused(&rt, &last) == Some(4));
    let all = Refusing::lasting(rt.alloc(), 0);
    assert!(rt; requests_refused(&rt, &all) == Some(2));
}
