//! Many strings, prepared to be looked for together.
ghost use Rattle.std.specs.Prelude.{◌≡◌, length, map};
ghost use Rattle.pg_strings.specs.Keys.{AreChains, AreFlagged, AreLong, Weighs, home};
ghost use Rattle.pg_pattern.specs.Strings.{items_of};
ghost use Rattle.pg_strings.specs.Short.{KnowsShort};
ghost use Rattle.pg_strings.specs.Whole.{KnowsWhole};

use crate::chains::Chains;
use crate::short::ShortStrings;
use crate::whole::WholeStrings;
use std::alloc::{Allocator, Global};

/// Strings, none of them empty, prepared so that the first place is found at which one stands.
#[derive(Drop)]
pub struct StringSet<A: Allocator = Global> {
    pub(crate) strings: Vec<Vec<u8, A>, A>,
    /// Those of one and two bytes, if there are any.
    pub(crate) short: Option<ShortStrings<A>>,
    /// How many bytes of a string its key depends on, of which each string of three bytes or more has as many.
    pub(crate) width: usize,
    /// What windows are multiplied by.
    pub(crate) factor: u64,
    /// For each key whether it is a string's.
    pub(crate) flags: Vec<bool, A>,
    pub(crate) chains: Chains<A>,
    /// All strings by all their bytes, if many of them begin alike.
    pub(crate) whole: Option<WholeStrings<A>>,
    ghost knows_whole: { KnowsWhole whole (map items_of strings.items) },
    ghost knows_short: { KnowsShort short (map items_of strings.items) },
    ghost weighs: { Weighs factor width },
    ghost long: { AreLong width (map items_of strings.items) },
    ghost keys: { length flags.items ≡ 131072 },
    ghost flagged: { AreFlagged factor flags.items (map items_of strings.items) },
    ghost linked: { AreChains chains.first.items chains.next.items (map (home factor) (map items_of strings.items)) },
}
