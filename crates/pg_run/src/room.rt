//! Room for threads.

use std::alloc::Allocator;

/// What a thread may take of the address space: its stack, and the first part of a heap of its own.
const THREAD_ROOM: usize = 75_497_472;

/// Whether the address space has room for so many more threads, 72 MiB for each. The memory isn't touched, and is given
/// back at once.
pub fn has_room_for<A: Allocator>(alloc: A, threads: u32) -> bool {
    let room = (threads as usize).saturating_mul(THREAD_ROOM);
    Vec::<u8, A>::with_capacity(alloc, room).is_ok()
}
