//! The search for strings by all their bytes, where many begin alike.
ghost use Rattle.std.specs.Prelude.{◌≡◌, ◌+◌, ◌<◌, ◌≤◌, ◌↔◌, ℕ, List, length, slice_index};
ghost use Rattle.std.specs.Prelude.{IfSome, IsTrue, Contains};
ghost use Rattle.pg_pattern.specs.Bounds.{MayBegin};
ghost use Rattle.pg_strings.specs.Sets.{SomeHit, StandsSo, work};
ghost use Rattle.pg_strings.specs.Outcomes.{strings_of, IsLongestAt, IsLook};
ghost use Rattle.pg_strings.specs.Whole.{IsPrefixHash, IsWholeOf, NoneLonger, hash_behind};

use crate::budget::Budget;
use crate::compare::{fits, is_text};
use crate::longest::unless_zero;
use crate::outcome::Look;
use crate::set::StringSet;
use crate::whole::{PrefixHash, WholeStrings, chain_of, flag_of};
use pg_pattern::Bounds;
use std::alloc::Allocator;

impl<A: Allocator> StringSet<A> {
    /// The tables by all bytes, if a chain by first bytes has many strings.
    pub(crate) fn whole_for(&self, chain: usize) -> Option<&WholeStrings<A>>
        ensures { IfSome result (λ whole. IsWholeOf whole.now (strings_of self.now)) }
    {
        match &self.whole {
            Some(whole) if whole.is_long(chain) => Some(whole),
            _ => None,
        }
    }

    /// Whether a text, which has this hash, is one of the strings.
    pub(crate) fn has_whole(&self, whole: &WholeStrings<A>, hash: u64, text: &[u8]) -> bool
        requires whole { IsWholeOf whole.now (strings_of self.now) }
        requires hash { hash ≡ hash_behind 0 text.now }
        ensures { IsTrue result ↔ Contains (strings_of self.now) text.now }
    {
        let mut link = whole.chains.first[chain_of(hash)];
        while link > 0 {
            if is_text(&self.strings[link - 1], text) {
                return true;
            }
            link = whole.chains.next[link - 1];
        }
        false
    }

    /// Whether a string of this length stands at a place and ends where a match may. The hash is that of some bytes
    /// from the place on; it goes on to so many where these are looked for.
    #[inline(always)]
    fn stands_whole(
        &self,
        whole: &WholeStrings<A>,
        len: usize,
        bounds: Bounds,
        bytes: &[u8],
        place: usize,
        prefix: &mut PrefixHash,
    ) -> bool
        requires whole { IsWholeOf whole.now (strings_of self.now) }
        requires place { place ≤ length bytes.now }
        requires prefix { IsPrefixHash bytes.now place prefix.old }
        ensures stands { IsTrue result ↔ StandsSo (strings_of self.now) bounds bytes.now place len }
        ensures prefix { IsPrefixHash bytes.now place prefix.new }
    {
        if !fits(bounds, len, bytes, place) {
            return false;
        }
        prefix.reach(len, bytes, place);
        self.has_whole(whole, prefix.hash, &bytes[place..place + len])
    }

    /// Whether none of the strings that stand at a place is longer than the length at this place of the lengths, as is
    /// known where so many bytes were looked for. Of the greatest length it isn't asked.
    #[inline(always)]
    fn is_last(&self, whole: &WholeStrings<A>, at: usize, prefix: &PrefixHash) -> bool
        requires whole { IsWholeOf whole.now (strings_of self.now) }
        requires at { at < length whole.now.lengths.items }
        ensures { IsTrue result → (bytes : List ℕ) (place : ℕ) → IsPrefixHash bytes place prefix.now
            → NoneLonger (strings_of self.now) bytes place (slice_index whole.now.lengths.items at) }
    {
        if at + 1 == whole.lengths.len() {
            return false;
        }
        whole.lengths[at] == prefix.len && !whole.flags[flag_of(prefix.hash)]
    }

    /// Whether some string stands at a place, where a match may begin, and ends where one may.
    pub(crate) fn look_whole(
        &self,
        whole: &WholeStrings<A>,
        bounds: Bounds,
        bytes: &[u8],
        place: usize,
        budget: &mut Budget,
    ) -> Look
        requires whole { IsWholeOf whole.now (strings_of self.now) }
        requires place { place ≤ length bytes.now }
        requires begins { MayBegin bounds bytes.now place }
        ensures look { IsLook (SomeHit (strings_of self.now) bounds bytes.now place) budget.new.left result }
        ensures less { budget.new.left ≤ budget.old.left }
        ensures cost { budget.old.left ≤ budget.new.left + work (strings_of self.now) }
    {
        let mut prefix = PrefixHash::empty();
        for at in 0..whole.lengths.len() {
            let len = whole.lengths[at];
            if budget.left == 0 {
                return Look::GaveUp;
            }
            budget.spend(prefix.cost(bounds, len, bytes, place));
            if self.stands_whole(whole, len, bounds, bytes, place, &mut prefix) {
                return Look::Stands;
            }
            if self.is_last(whole, at, &prefix) {
                return Look::NoneStands;
            }
        }
        Look::NoneStands
    }

    /// The length of the longest string that stands at a place and ends where a match may, if any does.
    pub(crate) fn longest_whole(
        &self,
        whole: &WholeStrings<A>,
        bounds: Bounds,
        bytes: &[u8],
        place: usize,
    ) -> Option<usize>
        requires whole { IsWholeOf whole.now (strings_of self.now) }
        requires place { place ≤ length bytes.now }
        ensures { IsLongestAt (strings_of self.now) bounds bytes.now place result }
    {
        let mut prefix = PrefixHash::empty();
        let mut longest = 0;
        for at in 0..whole.lengths.len() {
            let len = whole.lengths[at];
            if self.stands_whole(whole, len, bounds, bytes, place, &mut prefix) {
                longest = len.max(longest);
            }
            if self.is_last(whole, at, &prefix) {
                return unless_zero(longest);
            }
        }
        unless_zero(longest)
    }
}
