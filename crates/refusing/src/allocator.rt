//! The allocator.
ghost use Rattle.std.specs.Prelude.{◌≡◌, false, true};

use crate::schedule::Schedule;
use std::alloc::{AllocError, Allocator, Global};
use std::sync::atomic::{AtomicU64, Ordering};

/// An allocator that passes requests on to another one, and refuses the one that comes after a given number of others.
///
/// Each call that asks for a block is one request: `allocate`, and `grow` and `shrink`, which ask for a new block,
/// copy and give the old one back. So no block grows in place, and each growth can be refused. A request that the
/// other allocator cannot meet counts too. Giving a block back is no request.
///
/// It is lent to the code under test: a `&Refusing` is an allocator and `Copy`, and a `&Refusing<Global>` is `Send` and
/// `Sync`. All threads share one count. Which thread makes the request that is refused depends on how they run, so a
/// test asserts what holds whichever it was.
#[derive(Drop)]
pub struct Refusing<B: Allocator = Global> {
    inner: B,
    requests: Requests,
}

impl<B: Allocator> Refusing<B> {
    /// Refuses the request that comes after `passes` others, once: later ones pass again. So the code that was
    /// refused can be tried again.
    pub fn new(inner: B, passes: u64) -> Refusing<B>
        ensures inner { result.inner ≡ inner }
        ensures schedule { result.requests.schedule ≡ record { passes = passes; is_lasting = false } }
    {
        let schedule = Schedule {
            passes,
            is_lasting: false,
        };
        Refusing {
            inner,
            requests: Requests::new(schedule),
        }
    }

    /// Refuses the request that comes after `passes` others, and all later ones, as when memory has run out for good.
    pub fn lasting(inner: B, passes: u64) -> Refusing<B>
        ensures inner { result.inner ≡ inner }
        ensures schedule { result.requests.schedule ≡ record { passes = passes; is_lasting = true } }
    {
        let schedule = Schedule {
            passes,
            is_lasting: true,
        };
        Refusing {
            inner,
            requests: Requests::new(schedule),
        }
    }

    /// How many requests were made, by all threads, refused ones included.
    pub fn requests(&self) -> u64 {
        self.requests.made.load(Ordering::SeqCst)
    }

    /// Whether a request was refused, of any thread.
    pub fn has_refused(&self) -> bool {
        let made = self.requests.made.load(Ordering::SeqCst);
        self.requests.schedule.has_refused(made)
    }
}

unsafe impl<B: Allocator> Allocator for Refusing<B> {
    ghost dealloc_token = { λ heap ty ptr. B.dealloc_token heap.inner ty ptr };

    fn allocate(&self, size: usize, align: usize) -> Result<*mut u8, AllocError> {
        if self.requests.refuses_next() {
            return Err(AllocError);
        }
        self.inner.allocate(size, align)
    }

    unsafe fn deallocate(&self, ptr: *mut u8, size: usize, align: usize) {
        self.inner.deallocate(ptr, size, align);
    }
}

/// The requests so far, and which are refused.
#[derive(Drop)]
struct Requests {
    schedule: Schedule,
    made: AtomicU64,
}

impl Requests {
    fn new(schedule: Schedule) -> Requests
        ensures { result.schedule ≡ schedule }
    {
        Requests {
            schedule,
            made: AtomicU64::new(0),
        }
    }

    /// Counts a request, and says whether it is refused. No two requests have one number. The count wraps after
    /// 2^64 requests.
    fn refuses_next(&self) -> bool {
        let number = self.made.fetch_add(1, Ordering::SeqCst);
        self.schedule.refuses(number)
    }
}
