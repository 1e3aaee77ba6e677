//! Rows of sets of bytes, and the texts that they are multiplied out into. Rows and texts lie backwards here.
ghost use Rattle.std.specs.Prelude.{◌≡◌, ◌<◌, ◌≤◌, ◌+◌, ◌-◌, ◌^◌, ◌++◌, ℕ, List, [], ◌∷◌, length, map, true, reverse};
ghost use Rattle.std.specs.Prelude.{MatchOption, IfOk, IfSome};
ghost use Rattle.std.specs.Prelude.{IsTrue, IsSomeAnd, OnOk, nat_eq, ◌&&◌, if◌then◌else◌};
ghost use Rattle.std.specs.List.{flat_map};
ghost use Rattle.pg_bytes.specs.ByteSets.{bytes};
ghost use Rattle.pg_literal.specs.Literals.{as_searched};
ghost use Rattle.pg_literal.specs.Rows.{byte_as_searched, row_of, IsAlone, AreChoices, AreProduct};
ghost use Rattle.pg_pattern.specs.Strings.{items_of};
ghost use Rattle.pg_literal.specs.Known.{sets_of};

use crate::cost::{FEW_TEXTS, RAREST, rarity_of};
use pg_bytes::ByteSet;
use pg_pattern::folded;
use std::alloc::{AllocError, Allocator};

/// How rows are multiplied out.
#[derive(Clone, Copy)]
pub(crate) struct Expansion {
    /// Whether case is folded.
    pub fold: bool,
    /// A row becomes at most so many texts.
    pub most: usize,
    /// A part of so many sets is wide enough: no wider one becomes several texts.
    pub plenty: usize,
    /// Whether the rows of alternatives are united to one, where they have as many sets.
    pub unites: bool,
}

/// How well a part of a row serves.
#[derive(Clone, Copy)]
pub(crate) struct Worth {
    /// How many sets it has.
    width: usize,
    /// How many texts it becomes.
    texts: usize,
    /// How rare these are: the sum of the rarities of the commonest byte of each set.
    rarity: usize,
}

impl Worth {
    /// The worth of no set.
    pub fn nothing() -> Worth {
        Worth {
            width: 0,
            texts: 1,
            rarity: 0,
        }
    }

    /// Whether another part serves better: the wider one, else the one that becomes fewer texts, else the rarer one.
    pub fn is_below(self, other: Worth) -> bool {
        if self.width != other.width {
            self.width < other.width
        } else if self.texts != other.texts {
            self.texts > other.texts
        } else {
            self.rarity < other.rarity
        }
    }
}

/// A part of a row.
#[derive(Clone, Copy)]
pub(crate) struct Window {
    pub start: usize,
    pub stop: usize,
    pub worth: Worth,
}

impl Window {
    /// How many sets it has.
    pub fn len(self) -> usize
        requires { self.start ≤ self.stop }
        ensures { result ≡ self.stop - self.start }
    {
        self.stop - self.start
    }
}

/// A byte as it is searched for: with `fold` letters are searched for in lower case.
fn as_searched(byte: u8, fold: bool) -> u8
    ensures { result ≡ byte_as_searched fold byte }
{
    if fold {
        byte.to_ascii_lowercase()
    } else {
        byte
    }
}

/// Whether a set has only bytes from a bound on.
#[inline(always)]
fn is_from(set: &ByteSet, bound: u8) -> bool
    ensures { IsTrue result → (b : ℕ) → b < bound → bytes set.now b ≡ true → ⊥ }
{
    let high = ByteSet::between(bound, u8::MAX);
    set.union(high) == high
}

/// A byte that no byte of a set is below: the first letter in lower case, the first digit, or 0.
fn low_end(set: &ByteSet) -> u8
    ensures { (b : ℕ) → b < result → bytes set.now b ≡ true → ⊥ }
{
    if is_from(set, b'a') {
        b'a'
    } else if is_from(set, b'0') {
        b'0'
    } else {
        0
    }
}

/// The least byte of a set.
fn first_byte(set: &ByteSet) -> Option<u8>
    ensures { MatchOption result ((b : ℕ) → bytes set.now b ≡ true → ⊥) (λ b. bytes set.now b ≡ true) }
{
    for byte in low_end(set)..=u8::MAX {
        if set.contains(byte) {
            return Some(byte);
        }
    }
    None
}

/// The byte that those of a set are searched for as, where the set has all that are searched for as that byte.
pub(crate) fn only_byte(set: &ByteSet, fold: bool) -> Option<u8>
    ensures { MatchOption result ((b : ℕ) → IsAlone fold (bytes set.now) b → ⊥) (IsAlone fold (bytes set.now)) }
{
    let first = first_byte(set)?;
    let byte = as_searched(first, fold);
    // Most sets are of one byte, and are told so without a look at all others.
    if *set == folded(ByteSet::one(first), fold) {
        return Some(byte);
    }
    for other in 0..=u8::MAX {
        if set.contains(other) != (as_searched(other, fold) == byte) {
            return None;
        }
    }
    Some(byte)
}

/// How many texts a set makes of one, if it has all cases of its letters, and the rarity of the commonest of its bytes.
#[derive(Clone, Copy)]
struct Weight {
    count: usize,
    rarity: usize,
}

/// No part of more sets becomes several texts, which take the square of its width to write out.
pub(crate) const WIDE: usize = 32;

/// More than any row becomes.
const TOO_MANY: usize = 257;

/// Whether a set of several bytes has one that may end a line: a text with such a byte stands in no line.
fn has_terminator(set: &ByteSet, count: usize) -> bool {
    count > 1 && (set.contains(b'\n') || set.contains(0))
}

/// The weight of a set. One without a byte that is searched for counts as if it had one.
fn weight_of(set: &ByteSet, fold: bool) -> Weight {
    if let Some(byte) = only_byte(set, false) {
        let is_searched = as_searched(byte, fold) == byte;
        return Weight {
            count: 1,
            rarity: if is_searched { rarity_of(byte) } else { RAREST },
        };
    }
    let mut count: usize = 0;
    let mut rarity: usize = RAREST;
    for byte in 0..=u8::MAX {
        if set.contains(byte) && as_searched(byte, fold) == byte {
            count = count.saturating_add(1);
            rarity = rarity.min(rarity_of(byte));
        }
    }
    if has_terminator(set, count) {
        count = TOO_MANY;
    }
    Weight {
        count: count.max(1),
        rarity,
    }
}

/// How many texts a row becomes.
fn texts_in(row: &[ByteSet], fold: bool) -> usize {
    let mut texts: usize = 1;
    for set in row {
        texts = texts.saturating_mul(weight_of(set, fold).count);
    }
    texts
}

/// The part with one more set behind it.
fn with_next(part: Window, set: &ByteSet, expansion: Expansion) -> Window
    requires { part.stop < 2 ^ 64 - 1 }
    ensures { (result.start ≡ part.start) × (result.stop ≡ part.stop + 1) }
{
    let weight = weight_of(set, expansion.fold);
    Window {
        start: part.start,
        stop: part.stop + 1,
        worth: Worth {
            width: part.worth.width.saturating_add(1),
            texts: part.worth.texts.saturating_mul(weight.count),
            rarity: part.worth.rarity.saturating_add(weight.rarity),
        },
    }
}

/// The part without its first set.
fn without_first(part: Window, set: &ByteSet, expansion: Expansion) -> Window
    requires { part.start < part.stop }
    ensures { (result.start ≡ part.start + 1) × (result.stop ≡ part.stop) }
{
    let weight = weight_of(set, expansion.fold);
    Window {
        start: part.start + 1,
        stop: part.stop,
        worth: Worth {
            width: part.worth.width.saturating_sub(1),
            texts: part.worth.texts / weight.count.max(1),
            rarity: part.worth.rarity.saturating_sub(weight.rarity),
        },
    }
}

/// What is left of a part as its first sets are left out, until it becomes as few texts as are allowed.
fn narrowed(row: &[ByteSet], part: Window, expansion: Expansion) -> Window
    requires { (part.start ≤ part.stop) × (part.stop ≤ length row.now) }
    ensures { (result.start ≤ result.stop) × (result.stop ≡ part.stop) }
{
    let mut part = part;
    while part.start < part.stop
        && (part.worth.texts > expansion.most
            || part.worth.texts > 1 && part.worth.width > expansion.plenty)
    {
        part = without_first(part, &row[part.start], expansion);
    }
    part
}

/// The part of a row that serves best, of those that become at most so many texts as are allowed; of several that serve
/// alike the last one in the row, which is the first one in a line.
pub(crate) fn widest(row: &[ByteSet], expansion: Expansion) -> Window
    ensures ordered { result.start ≤ result.stop }
    ensures within { result.stop ≤ length row.now }
{
    let mut widest = Window {
        start: 0,
        stop: 0,
        worth: Worth::nothing(),
    };
    let mut part = widest;
    for set in row {
        part = narrowed(row, with_next(part, set, expansion), expansion);
        if !part.worth.is_below(widest.worth) {
            widest = part;
        }
    }
    widest
}

/// The part of a row that serves best, or the whole row where that is wanted and becomes few enough texts. Where it
/// becomes many, and the part only a few, the part is looked for faster.
pub(crate) fn widest_or_whole(row: &[ByteSet], expansion: Expansion, is_wanted: bool) -> Window
    ensures ordered { result.start ≤ result.stop }
    ensures within { result.stop ≤ length row.now }
{
    let part = widest(row, expansion);
    let texts = texts_in(row, expansion.fold);
    let is_small = texts == 1 || texts <= expansion.most && row.len() <= WIDE;
    if is_wanted && is_small && (texts <= FEW_TEXTS || part.worth.texts > FEW_TEXTS) {
        Window {
            start: 0,
            stop: row.len(),
            worth: Worth::nothing(),
        }
    } else {
        part
    }
}

/// The one text that a row becomes, where each of its sets is searched for as one byte.
pub(crate) fn only_text<A: Allocator + Copy>(
    alloc: A,
    row: &[ByteSet],
    fold: bool,
) -> Result<Option<Vec<u8, A>>, AllocError>
    ensures product { IfOk result (λ found. IfSome found
        (λ text. AreProduct fold (row_of row.now) (reverse text.items ∷ []))) }
    ensures fixed { (text : List ℕ) → map bytes row.now ≡ sets_of fold text
        → IfOk result (λ found. IsSomeAnd found (λ only. only.items ≡ as_searched fold text)) }
{
    let mut text = Vec::new(alloc);
    for set in row {
        let Some(byte) = only_byte(set, fold) else {
            return Ok(None);
        };
        text.push(byte)?;
    }
    Ok(Some(text))
}

/// Whether a set has all cases of its letters, where case is folded.
fn has_all_cases(set: &ByteSet, fold: bool) -> bool
    ensures { IsTrue result → (c : ℕ) → bytes set.now c ≡ bytes set.now (byte_as_searched fold c) }
{
    if !fold {
        return true;
    }
    for byte in 0..=u8::MAX {
        if set.contains(byte) != set.contains(as_searched(byte, fold)) {
            return false;
        }
    }
    true
}

/// Adds a byte of a set, unless it is searched for as another one.
fn push_choice<A: Allocator>(
    set: &ByteSet,
    fold: bool,
    byte: u8,
    choices: &mut Vec<u8, A>,
) -> Result<(), AllocError>
    ensures { OnOk result (choices.new.items ≡ choices.old.items
        ++ (if bytes set.now byte && nat_eq (byte_as_searched fold byte) byte then byte ∷ [] else [])) }
{
    if set.contains(byte) && as_searched(byte, fold) == byte {
        choices.push(byte)?;
    }
    Ok(())
}

/// The bytes that those of a set are searched for as, where it has all cases of its letters.
fn choices_of<A: Allocator + Copy>(
    alloc: A,
    set: &ByteSet,
    fold: bool,
) -> Result<Option<Vec<u8, A>>, AllocError>
    ensures { IfOk result (λ found. IfSome found (λ choices. AreChoices fold (bytes set.now) choices.items)) }
{
    let mut choices = Vec::new(alloc);
    if let Some(byte) = only_byte(set, fold) {
        choices.push(byte)?;
        return Ok(Some(choices));
    }
    if !has_all_cases(set, fold) {
        return Ok(None);
    }
    for byte in 0..=u8::MAX {
        push_choice(set, fold, byte, &mut choices)?;
    }
    Ok(Some(choices))
}

/// Adds a text so often as there are choices, with one of them behind it each time.
fn push_longer<A: Allocator + Copy>(
    alloc: A,
    text: &[u8],
    choices: &[u8],
    texts: &mut Vec<Vec<u8, A>, A>,
) -> Result<(), AllocError>
    ensures { OnOk result (map items_of texts.new.items ≡ map items_of texts.old.items
        ++ map (λ b. text.now ++ b ∷ []) choices.now) }
{
    for &byte in choices {
        let mut longer = text.to_vec(alloc)?;
        longer.push(byte)?;
        texts.push(longer)?;
    }
    Ok(())
}

/// Each text with each of the choices behind it.
fn with_choices<A: Allocator + Copy>(
    alloc: A,
    texts: &[Vec<u8, A>],
    choices: &[u8],
) -> Result<Vec<Vec<u8, A>, A>, AllocError>
    ensures { IfOk result (λ longer. map items_of longer.items
        ≡ flat_map (λ text. map (λ b. text ++ b ∷ []) choices.now) (map items_of texts.now)) }
{
    let mut longer = Vec::new(alloc);
    for text in texts {
        push_longer(alloc, text, choices, &mut longer)?;
    }
    Ok(longer)
}

/// The texts that a row becomes, where each of its sets has all cases of its letters.
pub(crate) fn texts_of<A: Allocator + Copy>(
    alloc: A,
    row: &[ByteSet],
    fold: bool,
) -> Result<Option<Vec<Vec<u8, A>, A>>, AllocError>
    ensures { IfOk result (λ found. IfSome found
        (λ texts. AreProduct fold (row_of row.now) (map reverse (map items_of texts.items)))) }
{
    let mut texts = Vec::new(alloc);
    texts.push(Vec::new(alloc))?;
    for set in row {
        let Some(choices) = choices_of(alloc, set, fold)? else {
            return Ok(None);
        };
        texts = with_choices(alloc, &texts, &choices)?;
    }
    Ok(Some(texts))
}
