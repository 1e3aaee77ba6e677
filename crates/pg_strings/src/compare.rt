//! Whether a string stands at a place, and a match may end where it does.
ghost use Rattle.std.specs.Prelude.{◌≡◌, ◌+◌, ◌≤◌, ◌↔◌, length, IsTrue};
ghost use Rattle.memchr.specs.Find.{OccursAt};
ghost use Rattle.pg_pattern.specs.Bounds.{MayEnd};
ghost use Rattle.pg_strings.specs.Sets.{StandsAs};

use crate::budget::Budget;
use pg_pattern::Bounds;

/// How many bytes are compared, or hashed, for what looking at one more string, or length, costs.
pub(crate) const STRIDE: usize = 8;

/// Whether so many bytes from a place on are there, and a match may end behind them.
#[inline(always)]
pub(crate) fn fits(bounds: Bounds, len: usize, bytes: &[u8], place: usize) -> bool
    requires { place ≤ length bytes.now }
    ensures { IsTrue result ↔ (place + len ≤ length bytes.now) × MayEnd bounds bytes.now (place + len) }
{
    len <= bytes.len() - place && bounds.may_end(bytes, place + len)
}

/// Whether the last byte of a string stands where it has to, if the string stands at a place.
#[inline(always)]
fn ends_at(string: &[u8], bytes: &[u8], place: usize) -> bool
    requires { place ≤ length bytes.now }
    ensures { OccursAt bytes.now string.now place → IsTrue result }
{
    let rest = &bytes[place..];
    match string.len().checked_sub(1) {
        Some(last) => last < rest.len() && rest[last] == string[last],
        None => true,
    }
}

/// Whether a string stands at a place, by all its bytes.
#[inline(always)]
fn begins_at(string: &[u8], bytes: &[u8], place: usize) -> bool
    requires { place ≤ length bytes.now }
    ensures { IsTrue result ↔ OccursAt bytes.now string.now place }
{
    let rest = &bytes[place..];
    rest.starts_with(string)
}

/// Whether a string stands at a place and ends where a match may. Where it ends and its last byte are looked at first,
/// since strings of one chain begin alike.
#[inline(always)]
pub(crate) fn stands(string: &[u8], bounds: Bounds, bytes: &[u8], place: usize) -> bool
    requires { place ≤ length bytes.now }
    ensures { IsTrue result ↔ StandsAs bounds bytes.now place string.now }
{
    if !fits(bounds, string.len(), bytes, place) || !ends_at(string, bytes, place) {
        return false;
    }
    begins_at(string, bytes, place)
}

/// Whether a string is this text.
pub(crate) fn is_text(string: &[u8], text: &[u8]) -> bool
    ensures { IsTrue result ↔ (string.now ≡ text.now) }
{
    string == text
}

/// Whether a string stands at a place and ends where a match may, at the expense of a budget. One that wouldn't end so
/// costs nothing, since its length tells.
#[inline(always)]
pub(crate) fn stands_within(
    string: &[u8],
    bounds: Bounds,
    bytes: &[u8],
    place: usize,
    budget: &mut Budget,
) -> bool
    requires { place ≤ length bytes.now }
    ensures stands { IsTrue result ↔ StandsAs bounds bytes.now place string.now }
    ensures less { budget.new.left ≤ budget.old.left }
    ensures cost { budget.old.left ≤ budget.new.left + (1 + length string.now) }
{
    if !fits(bounds, string.len(), bytes, place) {
        return false;
    }
    if !ends_at(string, bytes, place) {
        budget.spend(1);
        return false;
    }
    budget.spend(1 + string.len() / STRIDE);
    begins_at(string, bytes, place)
}
