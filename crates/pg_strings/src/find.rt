//! The search for the first place at which a string stands.
ghost use Rattle.std.specs.Prelude.{◌≡◌, ◌+◌, ◌≤◌, length, false};
ghost use Rattle.memchr.specs.Find.{Nowhere};
ghost use Rattle.pg_pattern.specs.Bounds.{MayBegin};
ghost use Rattle.pg_strings.specs.Sets.{SomeHit, SomeStands, work};
ghost use Rattle.pg_strings.specs.Outcomes.{strings_of, IsOutcome, IsWithinBudget, IsLook};
ghost use Rattle.pg_strings.specs.Short.{AreTables, SomeLongStands};

use crate::budget::Budget;
use crate::compare::stands_within;
use crate::key::{SHARE, key_at, last_key_at};
use crate::outcome::{Look, Outcome};
use crate::set::StringSet;
use crate::short::ShortStrings;
use pg_pattern::Bounds;
use std::alloc::Allocator;

/// The first place at or behind one at which a match may begin, or where the bytes end.
#[inline(always)]
fn next_begin(bounds: Bounds, bytes: &[u8], from: usize) -> usize
    requires { from ≤ length bytes.now }
    ensures low { from ≤ result }
    ensures high { result ≤ length bytes.now }
    ensures none { Nowhere (MayBegin bounds bytes.now) from result }
{
    let mut place = from;
    while place < bytes.len() && !bounds.may_begin(bytes, place) {
        place += 1;
    }
    place
}

impl<A: Allocator> StringSet<A> {
    /// The first place at or behind `from`, which is at most the number of bytes, at which some string stands, as far
    /// as the budget goes.
    ///
    /// Looking at one place compares each string at most once. Where the budget is used up, the search gives up.
    #[inline(never)]
    pub fn find(&self, bytes: &[u8], from: usize, budget: &mut Budget) -> Outcome
        requires { from ≤ length bytes.now }
        ensures outcome { IsOutcome (SomeStands (strings_of self.now) bytes.now) from (length bytes.now) result }
        ensures budget { IsWithinBudget (work (strings_of self.now)) from (length bytes.now) budget.old.left
            budget.new.left result }
    {
        self.find_hit(Bounds::Any, bytes, from, budget)
    }

    /// The first place of a line, at or behind `from`, at which some string stands that begins and ends where a match
    /// may, as far as the budget goes. Otherwise as [`StringSet::find`].
    // Each caller has a search of its own, so that one for any match asks nothing of the bytes around a string.
    #[inline(always)]
    pub fn find_hit(
        &self,
        bounds: Bounds,
        bytes: &[u8],
        from: usize,
        budget: &mut Budget,
    ) -> Outcome
        requires { from ≤ length bytes.now }
        ensures outcome { IsOutcome (SomeHit (strings_of self.now) bounds bytes.now) from (length bytes.now) result }
        ensures budget { IsWithinBudget (work (strings_of self.now)) from (length bytes.now) budget.old.left
            budget.new.left result }
    {
        let mut place = from;
        while place < bytes.len() {
            let next = self.skip(bytes, place);
            budget.earn(next - place);
            if next >= bytes.len() {
                return Outcome::NotFound;
            }
            match self.look_at(bounds, bytes, next, budget) {
                Look::Stands => return Outcome::Found(next),
                Look::NoneStands => {}
                Look::GaveUp => return Outcome::GaveUp(next),
            }
            place = next_begin(bounds, bytes, next + 1);
            budget.earn(place - next);
        }
        Outcome::NotFound
    }

    /// Whether some string stands at a place that begins and ends where a match may.
    #[inline(always)]
    fn look_at(&self, bounds: Bounds, bytes: &[u8], place: usize, budget: &mut Budget) -> Look
        requires { place ≤ length bytes.now }
        ensures look { IsLook (SomeHit (strings_of self.now) bounds bytes.now place) budget.new.left result }
        ensures less { budget.new.left ≤ budget.old.left }
        ensures cost { budget.old.left ≤ budget.new.left + work (strings_of self.now) }
    {
        if !bounds.may_begin(bytes, place) {
            return Look::NoneStands;
        }
        if self.short_at(bounds, bytes, place) > 0 {
            return Look::Stands;
        }
        let key = last_key_at(self.factor, bytes, place);
        if let Some(whole) = self.whole_for(key / SHARE) {
            return self.look_whole(whole, bounds, bytes, place, budget);
        }
        let mut link = self.chains.first[key / SHARE];
        while link > 0 {
            if budget.left == 0 {
                return Look::GaveUp;
            }
            if stands_within(&self.strings[link - 1], bounds, bytes, place, budget) {
                return Look::Stands;
            }
            link = self.chains.next[link - 1];
        }
        Look::NoneStands
    }

    /// Whether some string of three bytes or more may stand at a place.
    #[inline(always)]
    fn is_flagged(&self, bytes: &[u8], place: usize) -> bool
        requires { place + 8 ≤ length bytes.now }
        ensures { result ≡ false → ¬ SomeLongStands (strings_of self.now) bytes.now place }
    {
        self.flags[key_at(self.factor, bytes, place)]
    }

    /// Whether some string may stand at a place, where some strings are short.
    #[inline(always)]
    fn may_stand(&self, short: &ShortStrings<A>, bytes: &[u8], place: usize) -> bool
        requires tables { AreTables short.now.singles.items short.now.pairs.items (strings_of self.now) }
        requires place { place + 8 ≤ length bytes.now }
        ensures { result ≡ false → ¬ SomeStands (strings_of self.now) bytes.now place }
    {
        self.is_flagged(bytes, place) | short.stands_at(bytes, place)
    }

    /// The first place at or behind one at which some string may stand.
    #[inline(always)]
    fn skip(&self, bytes: &[u8], from: usize) -> usize
        requires { from ≤ length bytes.now }
        ensures low { from ≤ result }
        ensures high { result ≤ length bytes.now }
        ensures none { Nowhere (SomeStands (strings_of self.now) bytes.now) from result }
    {
        match &self.short {
            Some(short) => self.skip_all(short, bytes, from),
            None => self.skip_long(bytes, from),
        }
    }

    /// The first place at or behind one at which some string may stand, where some strings are short.
    #[inline(never)]
    fn skip_all(&self, short: &ShortStrings<A>, bytes: &[u8], from: usize) -> usize
        requires tables { AreTables short.now.singles.items short.now.pairs.items (strings_of self.now) }
        requires from { from ≤ length bytes.now }
        ensures low { from ≤ result }
        ensures high { result ≤ length bytes.now }
        ensures none { Nowhere (SomeStands (strings_of self.now) bytes.now) from result }
    {
        let mut place = from;
        while bytes.len() - place >= 11 {
            let one = self.may_stand(short, bytes, place);
            let two = self.may_stand(short, bytes, place + 1);
            let three = self.may_stand(short, bytes, place + 2);
            let four = self.may_stand(short, bytes, place + 3);
            if one | two | three | four {
                break;
            }
            place += 4;
        }
        while bytes.len() - place >= 8 && !self.may_stand(short, bytes, place) {
            place += 1;
        }
        place
    }

    /// The first place at or behind one at which some string of three bytes or more may stand.
    #[inline(never)]
    fn skip_long(&self, bytes: &[u8], from: usize) -> usize
        requires { from ≤ length bytes.now }
        ensures low { from ≤ result }
        ensures high { result ≤ length bytes.now }
        ensures none { Nowhere (SomeLongStands (strings_of self.now) bytes.now) from result }
    {
        let mut place = from;
        while bytes.len() - place >= 11 {
            let one = self.is_flagged(bytes, place);
            let two = self.is_flagged(bytes, place + 1);
            let three = self.is_flagged(bytes, place + 2);
            let four = self.is_flagged(bytes, place + 3);
            if one | two | three | four {
                break;
            }
            place += 4;
        }
        while bytes.len() - place >= 8 && !self.is_flagged(bytes, place) {
            place += 1;
        }
        place
    }
}
