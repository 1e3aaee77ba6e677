//! Trays that threads put into, and one takes from.
ghost use Rattle.std.specs.Prelude.{◌≡◌};

use pg_board::{PutPass, TakePass, Tray, TrayRest};
use refusing::Refusing;
use std::alloc::{AllocError, Allocator, Global};
use std::sync::{Arc, Wait};
use std::thread;
use std::thread::Threads;

/// Whether values are put into a tray; what is taken: one at once, then nothing, then one of four others; and what is
/// left: these, and then nothing.
fn taken_and_left<R: Wait>(
    rt: &R,
    alloc: Global,
) -> Result<(bool, [Option<u32>; 3], [Option<u32>; 4]), AllocError> {
    let (tray, mut passes, mut take) = Tray::open(alloc, 3)?;
    let is_put = tray.put(rt, &mut passes[0], 7u32).is_ok();
    let first = tray.take(rt, &mut take);
    let none = tray.take(rt, &mut take);
    let are_put = tray.put(rt, &mut passes[0], 10).is_ok()
        & tray.put(rt, &mut passes[2], 30).is_ok()
        & tray.put(rt, &mut passes[0], 11).is_ok()
        & tray.put(rt, &mut passes[1], 20).is_ok();
    let taken = tray.take(rt, &mut take);
    passes.reverse();
    let mut left = tray.close(passes, take);
    let last = [left.next(rt), left.next(rt), left.next(rt), left.next(rt)];
    Ok((is_put & are_put, [first, none, taken], last))
}

#[test]
fn what_is_put_is_taken_or_left(rt: HostRuntime) {
    let (are_put, taken, left) = taken_and_left(&rt, rt.alloc()).expect(&rt, "memory");
    let are_left = left == [Some(30), Some(11), Some(20), None];
    assert!(rt; are_put && taken == [Some(7), None, Some(10)] && are_left);
}

/// What a worker found, as its first, second and so on.
#[derive(Clone, Copy)]
struct Found {
    worker: u32,
    number: u32,
}

/// Puts 100 values. One that comes back is put once more.
fn put_hundred<A: Allocator>(
    rt: &impl Wait,
    tray: &Tray<Found, A>,
    mut pass: PutPass<Found, A>,
    worker: u32,
) -> PutPass<Found, A>
    requires { pass.tray ≡ tray.now }
    ensures { result.tray ≡ tray.now }
{
    for number in 0..100u32 {
        if let Err(found) = tray.put(rt, &mut pass, Found { worker, number }) {
            let _again = tray.put(rt, &mut pass, found);
        }
    }
    pass
}

/// Two threads put 100 values each.
fn two_put<R: Threads + Wait + Sync, A: Allocator + Copy + Send + Sync>(
    rt: &R,
    tray: &Tray<Found, A>,
    one: PutPass<Found, A>,
    other: PutPass<Found, A>,
) -> (PutPass<Found, A>, PutPass<Found, A>)
    requires { (one.tray ≡ tray.now) × (other.tray ≡ tray.now) }
    ensures { (result.0.tray ≡ tray.now) × (result.1.tray ≡ tray.now) }
{
    thread::join(
        rt,
        || put_hundred(rt, tray, one, 1),
        || put_hundred(rt, tray, other, 0),
    )
}

/// Takes 50 values, unless they take too long to come.
fn take_fifty<A: Allocator>(
    rt: &impl Wait,
    tray: &Tray<Found, A>,
    mut take: TakePass<Found, A>,
    mut taken: Vec<Found>,
) -> (TakePass<Found, A>, Vec<Found>)
    requires { take.tray ≡ tray.now }
    ensures { (result.0.tray ≡ tray.now) × (result.0.workers ≡ take.workers) }
{
    for _ in 0..1_000_000u32 {
        if taken.len() == taken.capacity() {
            break;
        }
        match tray.take(rt, &mut take) {
            Some(found) => taken.push_reserved(found),
            None => thread::yield_now(),
        }
    }
    (take, taken)
}

/// Adds what is left of a tray.
fn add_left<A: Allocator>(
    rt: &impl Wait,
    left: TrayRest<Found, A>,
    mut all: Vec<Found>,
) -> Result<Vec<Found>, AllocError> {
    let mut left = left;
    for _ in 0..200u32 {
        let Some(found) = left.next(rt) else {
            break;
        };
        all.push(found)?;
    }
    Ok(all)
}

/// Two threads put and one takes, where `taken` has room. Answers what was taken, and then what was left.
fn deliver<R: Threads + Wait + Sync, A: Allocator + Copy + Send + Sync>(
    rt: &R,
    taken: Vec<Found>,
    alloc: A,
) -> Result<Vec<Found>, AllocError> {
    let (tray, mut passes, take) = Tray::open(alloc, 2)?;
    let (Some(one), Some(other)) = (passes.pop(), passes.pop()) else {
        unreachable!()
    };
    let shared = &tray;
    let ((one, other), (take, all)) = thread::join(
        rt,
        || -> (PutPass<Found, A>, PutPass<Found, A>)
            requires { (one.tray ≡ shared.now) × (other.tray ≡ shared.now) }
            ensures { (result.0.tray ≡ shared.entry.now) × (result.1.tray ≡ shared.entry.now) }
        { two_put(rt, shared, one, other) },
        || take_fifty(rt, shared, take, taken),
    );
    passes.push_reserved(one);
    passes.push_reserved(other);
    add_left(rt, tray.close(passes, take), all)
}

/// Whether these are the 200 values, each once, and each worker's in its order.
fn is_all(found: &[Found]) -> bool {
    let mut next = [0u32; 2];
    for Found { worker, number } in found {
        match next.get_mut(*worker as usize) {
            Some(n) if *n == *number => *n = n.wrapping_add(1),
            _ => return false,
        }
    }
    next == [100, 100]
}

/// Whether the 200 values come from a tray on a heap that may refuse a request.
pub(crate) fn is_delivered<R: Threads + Wait + Sync>(
    rt: &R,
    alloc: Global,
    heap: &Refusing,
) -> bool {
    let Ok(room) = Vec::with_capacity(alloc, 50) else {
        return false;
    };
    match deliver(rt, room, heap) {
        Ok(all) => is_all(all.as_slice()),
        Err(AllocError) => heap.has_refused(),
    }
}

/// Puts 100 numbers, each once more where it comes back. Answers how many came back as they were.
fn put_numbers<R: Wait, A: Allocator>(
    rt: &R,
    tray: &Tray<u32, A>,
    pass: &mut PutPass<u32, A>,
) -> u32
    requires { pass.old.tray ≡ tray.now }
    ensures { pass.new.tray ≡ tray.now }
{
    let mut refused = 0u32;
    for number in 0..100u32 {
        if tray.put(rt, pass, number) == Err(number) {
            refused = refused.wrapping_add(1);
            let _again = tray.put(rt, pass, number);
        }
    }
    refused
}

/// Whether the numbers from 1 to 99 are left, in their order, and nothing else.
fn is_rest<R: Wait, A: Allocator>(rt: &R, left: TrayRest<u32, A>) -> bool {
    let mut left = left;
    for number in 1..100u32 {
        if left.next(rt) != Some(number) {
            return false;
        }
    }
    left.next(rt) == None
}

/// Puts 100 numbers into a tray, takes one, and closes it. Answers whether a number came back where a request was
/// refused, the first one was taken, the others were left, and only putting made requests. `alloc` is the heap.
fn put_into_tray<R: Wait, A: Allocator + Copy>(
    rt: &R,
    alloc: A,
    heap: &Refusing,
) -> Result<bool, AllocError> {
    let (tray, mut passes, mut take) = Tray::open(alloc, 2)?;
    let refused = put_numbers(rt, &tray, &mut passes[1]);
    let made = heap.requests();
    let taken = tray.take(rt, &mut take);
    let is_rest = is_rest(rt, tray.close(passes, take));
    let is_counted = refused == u32::from(heap.has_refused()) && heap.requests() == made;
    Ok(is_rest && is_counted && taken == Some(0))
}

/// Whether that is so on a heap that may refuse a request.
pub(crate) fn is_handed_out<R: Wait>(rt: &R, heap: &Refusing) -> bool {
    match put_into_tray(rt, heap, heap) {
        Ok(is_right) => is_right,
        Err(AllocError) => heap.has_refused(),
    }
}

/// Whether a value is shared while it lies in a tray, which is closed at last, or just dropped. One that isn't put is
/// dropped, and not shared.
fn is_shared_in_tray<R: Wait>(
    rt: &R,
    alloc: Global,
    shared: &mut Arc<u32>,
    closes: bool,
) -> Result<bool, AllocError> {
    let value = Arc::try_clone(shared)?;
    let (tray, mut passes, take) = Tray::open(alloc, 1)?;
    drop(tray.put(rt, &mut passes[0], value));
    let is_shared = Arc::get_mut(shared).is_none();
    if closes {
        drop(tray.close(passes, take));
    }
    Ok(is_shared)
}

/// Whether a value is shared while it lies in a tray, and no longer.
fn is_dropped<R: Wait>(rt: &R, alloc: Global, closes: bool) -> Result<bool, AllocError> {
    let mut shared = Arc::new(alloc, 5u32)?;
    let is_shared = is_shared_in_tray(rt, alloc, &mut shared, closes)?;
    Ok(is_shared && Arc::get_mut(&mut shared).is_some())
}

#[test]
fn values_that_are_left_are_dropped(rt: HostRuntime) {
    let are_dropped = is_dropped(&rt, rt.alloc(), true) == Ok(true)
        && is_dropped(&rt, rt.alloc(), false) == Ok(true);
    assert!(rt; are_dropped);
}
