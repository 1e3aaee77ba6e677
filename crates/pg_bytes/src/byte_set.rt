//! Sets of bytes.
ghost use Rattle.std.specs.Prelude.{◌≡◌, ◌-◌, ◌^◌, ◌≤◌, min};
ghost use Rattle.pg_bytes.specs.Sets.{all, empty, one, with, between, below, union, complement, closed};

/// In the word of the bytes 64 to 127, the bits of the upper case letters. Those of the lower case
/// letters stand 32 bits higher.
const UPPER_CASE: u64 = 0x07FF_FFFE;

/// A set of bytes.
///
/// Contracts see it as a set of numbers below 256.
#[derive(Clone, Copy, Debug, PartialEq, Eq)]
pub struct ByteSet {
    words: [u64; 4],
}

impl ByteSet {
    ghost use Rattle.pg_bytes.specs.ByteSets.{bytes};

    /// The set without a member.
    pub fn empty() -> ByteSet
        ensures { bytes result ≡ empty }
    {
        ByteSet { words: [0; 4] }
    }

    /// All bytes.
    pub fn all() -> ByteSet
        ensures { bytes result ≡ all }
    {
        ByteSet::empty().complement()
    }

    /// The set of one byte.
    pub fn one(byte: u8) -> ByteSet
        ensures { bytes result ≡ one byte }
    {
        let mut set = ByteSet::empty();
        set.insert(byte);
        set
    }

    /// Whether a byte is in the set.
    pub fn contains(&self, byte: u8) -> bool
        ensures { result ≡ bytes self.now byte }
    {
        (self.words[usize::from(byte / 64)] >> (byte % 64)) & 1 == 1
    }

    /// Adds a byte.
    fn insert(&mut self, byte: u8)
        ensures { bytes self.new ≡ with byte (bytes self.old) }
    {
        self.words[usize::from(byte / 64)] |= 1 << (byte % 64);
    }

    /// The bytes from `first` to `last`, both included: none where `first` is above `last`.
    pub fn between(first: u8, last: u8) -> ByteSet
        ensures { bytes result ≡ between first last }
    {
        let beyond = ByteSet::below(u16::from(last) + 1).complement();
        beyond.union(ByteSet::below(u16::from(first))).complement()
    }

    /// The bytes below a bound.
    fn below(bound: u16) -> ByteSet
        requires { bound ≤ 256 }
        ensures { bytes result ≡ below bound }
    {
        ByteSet {
            words: [
                low_bits(bound),
                low_bits(bound.saturating_sub(64)),
                low_bits(bound.saturating_sub(128)),
                low_bits(bound.saturating_sub(192)),
            ],
        }
    }

    /// What is in one of the two sets.
    pub fn union(self, other: ByteSet) -> ByteSet
        ensures { bytes result ≡ union (bytes self) (bytes other) }
    {
        let [a, b, c, d] = self.words;
        let [e, f, g, h] = other.words;
        ByteSet {
            words: [a | e, b | f, c | g, d | h],
        }
    }

    /// The bytes that aren't in the set.
    pub fn complement(self) -> ByteSet
        ensures { bytes result ≡ complement (bytes self) }
    {
        let [a, b, c, d] = self.words;
        ByteSet {
            words: [!a, !b, !c, !d],
        }
    }

    /// The set and, for each ASCII letter in it, the letter in its other case (XBD 7.3.1, `toupper`
    /// and `tolower`).
    pub fn close_case(self) -> ByteSet
        ensures { bytes result ≡ closed (bytes self) }
    {
        let [a, letters, c, d] = self.words;
        let lowered = (letters & UPPER_CASE) << 32;
        let raised = (letters >> 32) & UPPER_CASE;
        ByteSet {
            words: [a, letters | lowered | raised, c, d],
        }
    }
}

/// The word with this many ones in its lowest bits, or all ones.
fn low_bits(count: u16) -> u64
    ensures { result ≡ 2 ^ min count 64 - 1 }
{
    if count < 64 {
        (1 << count) - 1
    } else {
        u64::MAX
    }
}
