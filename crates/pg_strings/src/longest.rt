//! The longest string that stands at a place and ends where a match may.
ghost use Rattle.std.specs.Prelude.{◌≡◌, ◌<◌, ◌≤◌, ◌↔◌, length, IsTrue, MatchOption, Contains};
ghost use Rattle.pg_strings.specs.Sets.{StandsAs};
ghost use Rattle.pg_strings.specs.Outcomes.{strings_of, IsLongestAt};
ghost use Rattle.pg_strings.specs.Short.{IsLongestShort};

use crate::compare::stands;
use crate::key::{SHARE, last_key_at};
use crate::set::StringSet;
use crate::whole::hash_of;
use pg_pattern::Bounds;
use std::alloc::Allocator;

/// The length of a string that stands at a place and ends where a match may, if it is greater than another length; else
/// that one.
#[inline(always)]
fn longer(longest: usize, string: &[u8], bounds: Bounds, bytes: &[u8], place: usize) -> usize
    requires { place ≤ length bytes.now }
    ensures low { longest ≤ result }
    ensures own { StandsAs bounds bytes.now place string.now → length string.now ≤ result }
    ensures stands { longest < result → StandsAs bounds bytes.now place string.now × (length string.now ≡ result) }
{
    if string.len() > longest && stands(string, bounds, bytes, place) {
        string.len()
    } else {
        longest
    }
}

/// A length, unless it is 0.
pub(crate) fn unless_zero(len: usize) -> Option<usize>
    ensures { MatchOption result (len ≡ 0) (λ n. (0 < n) × (n ≡ len)) }
{
    if len > 0 { Some(len) } else { None }
}

impl<A: Allocator> StringSet<A> {
    /// The length of the longest string of one or two bytes that stands at a place and ends where a match may, or 0
    /// where none does.
    #[inline(always)]
    pub(crate) fn short_at(&self, bounds: Bounds, bytes: &[u8], place: usize) -> usize
        requires { place ≤ length bytes.now }
        ensures { IsLongestShort (strings_of self.now) bounds bytes.now place result }
    {
        match &self.short {
            Some(short) => short.longest_at(bounds, bytes, place),
            None => 0,
        }
    }

    /// The length of the longest string that stands at a place and ends where a match may, if any does. The place is at
    /// most the number of bytes. Each string is compared at most once.
    #[inline(always)]
    pub fn longest_at(&self, bounds: Bounds, bytes: &[u8], place: usize) -> Option<usize>
        requires { place ≤ length bytes.now }
        ensures { IsLongestAt (strings_of self.now) bounds bytes.now place result }
    {
        let key = last_key_at(self.factor, bytes, place);
        if let Some(whole) = self.whole_for(key / SHARE) {
            return self.longest_whole(whole, bounds, bytes, place);
        }
        let mut longest = self.short_at(bounds, bytes, place);
        let mut link = self.chains.first[key / SHARE];
        while link > 0 {
            longest = longer(longest, &self.strings[link - 1], bounds, bytes, place);
            link = self.chains.next[link - 1];
        }
        unless_zero(longest)
    }

    /// Whether a whole line is one of the strings.
    pub fn contains(&self, line: &[u8]) -> bool
        ensures { IsTrue result ↔ Contains (strings_of self.now) line.now }
    {
        let key = last_key_at(self.factor, line, 0);
        if let Some(whole) = self.whole_for(key / SHARE) {
            return self.has_whole(whole, hash_of(line), line);
        }
        self.longest_at(Bounds::Whole, line, 0).is_some()
    }
}
