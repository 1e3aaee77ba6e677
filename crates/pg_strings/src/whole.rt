//! Strings that are known by all their bytes, for lists of which many begin alike.
ghost use Rattle.std.specs.Prelude.{◌≡◌, ◌+◌, ◌<◌, ◌≤◌, ◌++◌, ◌∷◌, [], List, ℕ, length, map, IfOk, IfSome, OnOk};
ghost use Rattle.pg_pattern.specs.Strings.{items_of};
ghost use Rattle.std.specs.List.{All};
ghost use Rattle.pg_strings.specs.Whole.{HasChainsOf, IsFlaggedAt, IsPrefixHash, IsWholeOf, KeepsFlags};
ghost use Rattle.pg_strings.specs.Whole.{flag_by, home_by, hash_behind};

use crate::chains::Chains;
use crate::compare::{STRIDE, fits};
use crate::key::{MIX, key_of, no_flags};
use pg_pattern::Bounds;
use std::alloc::{AllocError, Allocator, Global};

/// A chain of more strings than these is long.
const LONG_CHAIN: u32 = 32;

/// A hash of the bytes of a text, behind others that have this one.
fn hash_behind(before: u64, text: &[u8]) -> u64
    ensures { result ≡ hash_behind before text.now }
{
    let mut hash = before;
    for byte in text {
        hash = hash.wrapping_mul(MIX).wrapping_add(*byte as u64);
    }
    hash
}

/// A hash of all bytes of a text.
pub(crate) fn hash_of(text: &[u8]) -> u64
    ensures { result ≡ hash_behind 0 text.now }
{
    hash_behind(0, text)
}

/// The chain of the strings that have a hash.
pub(crate) fn chain_of(hash: u64) -> usize
    ensures few { result < 8192 }
    ensures value { result ≡ home_by hash }
{
    (hash.wrapping_mul(MIX) / 0x0008_0000_0000_0000) as usize
}

/// The flag of the beginnings of strings that have a hash.
pub(crate) fn flag_of(hash: u64) -> usize
    ensures few { result < 131072 }
    ensures value { result ≡ flag_by hash }
{
    key_of(MIX, hash)
}

/// The hash of so many bytes from a place on. That of more bytes follows from it.
#[derive(Clone, Copy)]
pub(crate) struct PrefixHash {
    pub len: usize,
    pub hash: u64,
}

impl PrefixHash {
    /// That of no byte.
    pub fn empty() -> PrefixHash
        ensures { (bytes : List ℕ) (place : ℕ) → place ≤ length bytes → IsPrefixHash bytes place result }
    {
        PrefixHash { len: 0, hash: 0 }
    }

    /// What it costs to look for a string of this length, if one may stand there and end where a match may.
    #[inline(always)]
    pub fn cost(&self, bounds: Bounds, len: usize, bytes: &[u8], place: usize) -> usize
        requires { place ≤ length bytes.now }
        ensures { result ≤ 1 + len }
    {
        if fits(bounds, len, bytes, place) {
            1 + len.saturating_sub(self.len) / STRIDE
        } else {
            0
        }
    }

    /// Goes on to so many bytes from the place on. Only where these are fewer than before all are read again.
    #[inline(always)]
    pub fn reach(&mut self, len: usize, bytes: &[u8], place: usize)
        requires there { place + len ≤ length bytes.now }
        requires prefix { IsPrefixHash bytes.now place self.old }
        ensures len { self.new.len ≡ len }
        ensures prefix { IsPrefixHash bytes.now place self.new }
    {
        if len < self.len {
            self.hash = hash_of(&bytes[place..place + len]);
        } else {
            self.hash = hash_behind(self.hash, &bytes[place + self.len..place + len]);
        }
        self.len = len;
    }
}

/// Tables of strings by all their bytes. Of strings that begin alike those of one length are told apart at once, where
/// a key of the first bytes is the same for all.
#[derive(Drop)]
pub(crate) struct WholeStrings<A: Allocator = Global> {
    /// The lengths of the strings, each once, the least first.
    pub lengths: Vec<usize, A>,
    /// Chains of strings that may have the same bytes.
    pub chains: Chains<A>,
    /// For each chain by first bytes how many strings it has.
    pub counts: Vec<u32, A>,
    /// For each hash of a string's beginning that has one of the lengths, and isn't all of it, a flag that is set.
    /// Where bytes have none no string is longer.
    pub flags: Vec<bool, A>,
}

/// Whether some chain has so many strings that they are to be known by all their bytes.
pub(crate) fn has_long_chain(counts: &[u32]) -> bool {
    counts.iter().any(|count| *count > LONG_CHAIN)
}

/// Sets the flags of a string's beginnings that have one of these lengths.
fn flag_beginnings<A: Allocator>(flags: &mut Vec<bool, A>, lengths: &[usize], string: &[u8])
    requires { length flags.old.items ≡ 131072 }
    ensures all { length flags.new.items ≡ 131072 }
    ensures own { IsFlaggedAt lengths.now flags.new.items string.now }
    ensures kept { KeepsFlags flags.old.items flags.new.items }
{
    let mut prefix = PrefixHash::empty();
    for at in 0..lengths.len() {
        let len = lengths[at];
        if len < string.len() {
            prefix.reach(len, string, 0);
            flags[flag_of(prefix.hash)] = true;
        }
    }
}

/// The flags of all strings' beginnings that have one of these lengths.
fn flags_of<A: Allocator + Copy>(
    alloc: A,
    lengths: &[usize],
    strings: &[Vec<u8, A>],
) -> Result<Vec<bool, A>, AllocError>
    ensures all { IfOk result (λ flags. length flags.items ≡ 131072) }
    ensures flagged { IfOk result (λ flags. All (IsFlaggedAt lengths.now flags.items) (map items_of strings.now)) }
{
    let mut flags = no_flags(alloc)?;
    for place in 0..strings.len() {
        flag_beginnings(&mut flags, lengths, &strings[place]);
    }
    Ok(flags)
}

impl<A: Allocator> WholeStrings<A> {
    /// Adds the next string.
    fn push(&mut self, string: &[u8]) -> Result<(), AllocError>
        requires { length self.old.chains.first.items ≡ 8192 }
        ensures { OnOk result ((strings : List (List ℕ))
            → HasChainsOf self.old strings → HasChainsOf self.new (strings ++ string.now ∷ [])) }
    {
        let len = string.len();
        if !self.lengths.contains(&len) {
            self.lengths.push(len)?;
        }
        self.chains.push(chain_of(hash_of(string)))?;
        Ok(())
    }

    /// The tables of some strings, of which the chains by first bytes have so many each. Beside the strings' bytes it
    /// takes the time of comparing each string's length with all lengths.
    pub fn new(
        alloc: A,
        strings: &[Vec<u8, A>],
        counts: Vec<u32, A>,
    ) -> Result<WholeStrings<A>, AllocError>
    where
        A: Copy,
        ensures { IfOk result (λ whole. IsWholeOf whole (map items_of strings.now)) }
    {
        let mut whole = WholeStrings {
            lengths: Vec::new(alloc),
            chains: Chains::new(alloc)?,
            counts,
            flags: Vec::new(alloc),
        };
        for place in 0..strings.len() {
            whole.push(&strings[place])?;
        }
        whole.lengths.sort_unstable();
        whole.flags = flags_of(alloc, whole.lengths.as_slice(), strings)?;
        Ok(whole)
    }

    /// Whether a chain by first bytes is long, and has more strings than there are lengths: to look for a length takes
    /// about as long as to compare a string.
    pub fn is_long(&self, chain: usize) -> bool {
        match self.counts.get(chain) {
            Some(count) => *count > LONG_CHAIN && *count as usize > self.lengths.len(),
            None => false,
        }
    }
}
