//! Allocators for tests, which pass requests for memory on and refuse one of them.
//!
//! Code that can run out of memory has a path for each request that it makes. A test reaches them all by refusing
//! the first request, then the second, and so on, until a run ends before its refusal comes.
//! [`Refusing`] serves one thread or several.
//!
//! ```
//! use refusing::Refusing;
//! use std::alloc::{AllocError, Allocator};
//! use std::test::Fail;
//!
//! #[derive(Drop)]
//! struct Pair<A: Allocator + Copy> {
//!     letters: Vec<u8, A>,
//!     numbers: Vec<u64, A>,
//! }
//!
//! fn make_pair<A: Allocator + Copy>(alloc: A) -> Result<Pair<A>, AllocError> {
//!     let mut pair = Pair {
//!         letters: Vec::new(alloc),
//!         numbers: Vec::new(alloc),
//!     };
//!     pair.letters.push(b'a')?;
//!     pair.numbers.push(1)?;
//!     Ok(pair)
//! }
//!
//! fn each_request_may_be_refused(rt: HostRuntime) -> Result<(), Fail> {
//!     for passes in 0..100u64 {
//!         let heap = Refusing::new(rt.alloc(), passes);
//!         let made = make_pair(&heap);
//!         if !heap.has_refused() {
//!             assert_eq!(rt; made?.letters.as_slice(), b"a".as_slice());
//!             return Ok(());
//!         }
//!         assert!(rt; made.is_err(), "at {passes}");
//!     }
//!     panic!(rt; "more than 100 requests")
//! }
//! ```
//!
//! The loop asks `has_refused` and not only whether the call failed: code may do without the memory that it was
//! refused, as `shrink_to_fit` does, and a call that hides a refusal still returns `Ok`.
#![tactic(auto)]

mod allocator;
mod schedule;

pub use allocator::Refusing;
