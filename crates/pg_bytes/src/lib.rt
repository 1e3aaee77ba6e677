//! Sets of bytes, the character classes of the C locale (XBD 7.3.1), and the definition of the lines of some bytes.
//!
//! A set takes 32 bytes and is copied. No call here takes memory or fails, and each takes constant
//! time but `class`, whose time is linear in the length of the name.
#![tactic(auto)]

mod byte_set;
mod classes;

pub use byte_set::ByteSet;
pub use classes::class;
