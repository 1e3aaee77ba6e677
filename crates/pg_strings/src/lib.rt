//! The first place at which one of many strings stands.
//!
//! Each string of three bytes or more is known by a key of its first bytes, at most eight. Where bytes have no string's
//! key, none stands. Where they have one, the strings of a chain are compared, as far as a budget allows. Where many
//! strings begin alike, they are looked for by all their bytes, one length after another. Which strings of one and two
//! bytes stand at a place is told by tables.
#![tactic(auto)]

mod budget;
mod build;
mod chains;
mod compare;
mod find;
mod find_whole;
mod key;
mod longest;
mod outcome;
mod set;
mod short;
mod whole;

pub use budget::{Budget, Rate};
pub use outcome::Outcome;
pub use set::StringSet;
