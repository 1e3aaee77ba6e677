//! How a set is made of its strings.
ghost use Rattle.std.specs.Prelude.{◌≡◌, ◌≤◌, length, map, IfOk};
ghost use Rattle.std.specs.List.{All};
ghost use Rattle.pg_strings.specs.Keys.{AreLong};
ghost use Rattle.pg_pattern.specs.Strings.{items_of};
ghost use Rattle.pg_strings.specs.Outcomes.{strings_of};
ghost use Rattle.pg_strings.specs.Whole.{KnowsWhole};

use crate::chains::{CHAINS, Chains};
use crate::key::{SHARE, factor_of, last_key_at, no_flags};
use crate::set::StringSet;
use crate::short::ShortStrings;
use crate::whole::{WholeStrings, has_long_chain};
use std::alloc::{AllocError, Allocator};

/// The length of the shortest string of three bytes or more, at most 8.
fn width_of<A: Allocator>(strings: &[Vec<u8, A>]) -> usize
    requires { All (λ string. 1 ≤ length string.items) strings.now }
    ensures range { (1 ≤ result) × (result ≤ 8) }
    ensures long { AreLong result (map items_of strings.now) }
{
    let mut width = 8;
    for string in strings {
        if string.len() >= 3 {
            width = width.min(string.len());
        }
    }
    width
}

/// Tables of the strings by all their bytes, if some chain by their first bytes has many of them.
fn whole_of<A: Allocator + Copy>(
    alloc: A,
    strings: &[Vec<u8, A>],
    counts: Vec<u32, A>,
) -> Result<Option<WholeStrings<A>>, AllocError>
    ensures { IfOk result (λ whole. KnowsWhole whole (map items_of strings.now)) }
{
    if !has_long_chain(counts.as_slice()) {
        return Ok(None);
    }
    let whole = WholeStrings::new(alloc, strings, counts)?;
    Ok(Some(whole))
}

impl<A: Allocator> StringSet<A> {
    /// Prepares strings, in linear time; where many begin alike, each length is compared with all others too. A refused
    /// request for memory is the only error.
    pub fn new(alloc: A, strings: Vec<Vec<u8, A>, A>) -> Result<StringSet<A>, AllocError>
    where
        A: Copy,
        requires { All (λ string. 1 ≤ length string.items) strings.items }
        ensures { IfOk result (λ set. strings_of set ≡ map items_of strings.items) }
    {
        let width = width_of(strings.as_slice());
        let factor = factor_of(width);
        let mut flags = no_flags(alloc)?;
        let mut chains = Chains::new(alloc)?;
        let mut counts = vec![in alloc; 0u32; CHAINS]?;
        for place in 0..strings.len() {
            let key = last_key_at(factor, &strings[place], 0);
            flags[key] = true;
            counts[key / SHARE] = counts[key / SHARE].saturating_add(1);
            chains.push(key / SHARE)?;
        }
        let short = ShortStrings::new(alloc, strings.as_slice())?;
        let whole = whole_of(alloc, strings.as_slice(), counts)?;
        Ok(StringSet {
            strings,
            short,
            width,
            factor,
            flags,
            chains,
            whole,
        })
    }
}
