//! The strings of one and two bytes, which have tables of their own.
ghost use Rattle.std.specs.Prelude.{◌≡◌, ℕ, ◌+◌, ◌*◌, ◌<◌, ◌≤◌, ◌++◌, ◌∷◌, [], List, false, true, length, map, IfOk};
ghost use Rattle.pg_pattern.specs.Strings.{items_of};
ghost use Rattle.pg_strings.specs.Short.{AreLonger, AreTables, IsLongestShort, KnowsShort};

use crate::compare::fits;
use crate::key::window;
use pg_pattern::Bounds;
use std::alloc::{AllocError, Allocator, Global};

/// How many bytes there are.
const SINGLES: usize = 256;

/// How many pairs of bytes there are.
const PAIRS: usize = 65_536;

/// The strings of one and two bytes among others. A key of so few bytes would fit too many places, so tables of all
/// bytes and of all pairs of bytes tell which of them stand at a place.
#[derive(Drop)]
pub(crate) struct ShortStrings<A: Allocator = Global> {
    /// For each byte whether it is a string.
    pub singles: Vec<bool, A>,
    /// For each two bytes whether they are a string.
    pub pairs: Vec<bool, A>,
}

/// Where two bytes stand in a table of pairs.
#[inline(always)]
fn pair_of(first: u8, second: u8) -> usize
    ensures few { result < 65536 }
    ensures value { result ≡ first + 256 * second }
{
    first as usize + 256 * second as usize
}

/// Whether no string has one or two bytes.
fn all_longer<A: Allocator>(strings: &[Vec<u8, A>]) -> bool
    ensures { result ≡ true → AreLonger (map items_of strings.now) }
{
    for string in strings {
        if string.len() < 3 {
            return false;
        }
    }
    true
}

impl<A: Allocator> ShortStrings<A> {
    /// Tables without a string.
    fn empty(alloc: A) -> Result<ShortStrings<A>, AllocError>
    where
        A: Copy,
        ensures { IfOk result (λ short. AreTables short.singles.items short.pairs.items []) }
    {
        let singles = vec![in alloc; false; SINGLES]?;
        let pairs = vec![in alloc; false; PAIRS]?;
        Ok(ShortStrings { singles, pairs })
    }

    /// Puts a string into the table of its length, if it has one or two bytes.
    fn learn(&mut self, string: &[u8])
        requires singles { length self.old.singles.items ≡ 256 }
        requires pairs { length self.old.pairs.items ≡ 65536 }
        ensures { (strings : List (List ℕ)) → AreTables self.old.singles.items self.old.pairs.items strings
            → AreTables self.new.singles.items self.new.pairs.items (strings ++ string.now ∷ []) }
    {
        match string {
            [byte] => self.singles[*byte as usize] = true,
            [first, second] => self.pairs[pair_of(*first, *second)] = true,
            _ => {}
        }
    }

    /// The tables of those strings that have one or two bytes, if there are any. It takes linear time, and a refused
    /// request for memory is the only error.
    pub fn new(alloc: A, strings: &[Vec<u8, A>]) -> Result<Option<ShortStrings<A>>, AllocError>
    where
        A: Copy,
        ensures { IfOk result (λ short. KnowsShort short (map items_of strings.now)) }
    {
        if all_longer(strings) {
            return Ok(None);
        }
        let mut short = ShortStrings::empty(alloc)?;
        for place in 0..strings.len() {
            short.learn(&strings[place]);
        }
        Ok(Some(short))
    }

    /// Whether one of them stands at a place, from which on there are eight bytes or more.
    #[inline(always)]
    pub fn stands_at(&self, bytes: &[u8], place: usize) -> bool
        requires place { place + 8 ≤ length bytes.now }
        requires singles { length self.now.singles.items ≡ 256 }
        requires pairs { length self.now.pairs.items ≡ 65536 }
        ensures { (strings : List (List ℕ)) → AreTables self.now.singles.items self.now.pairs.items strings
            → result ≡ false → IsLongestShort strings Bounds.Any bytes.now place 0 }
    {
        let window = window(bytes, place);
        self.singles[(window % 256) as usize] | self.pairs[(window % 65_536) as usize]
    }

    /// The length of the longest of them that stands at a place and ends where a match may, or 0 where none does.
    #[inline(always)]
    pub fn longest_at(&self, bounds: Bounds, bytes: &[u8], place: usize) -> usize
        requires place { place ≤ length bytes.now }
        requires singles { length self.now.singles.items ≡ 256 }
        requires pairs { length self.now.pairs.items ≡ 65536 }
        ensures { (strings : List (List ℕ)) → AreTables self.now.singles.items self.now.pairs.items strings
            → IsLongestShort strings bounds bytes.now place result }
    {
        if fits(bounds, 2, bytes, place) && self.pairs[pair_of(bytes[place], bytes[place + 1])] {
            return 2;
        }
        if fits(bounds, 1, bytes, place) && self.singles[bytes[place] as usize] {
            return 1;
        }
        0
    }
}
