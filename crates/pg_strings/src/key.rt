//! Keys of the bytes at a place.
ghost use Rattle.std.specs.Prelude.{◌≡◌, ◌+◌, ◌*◌, ◌/◌, ◌%◌, ◌<◌, ◌≤◌, length, drop, slice_index, IfOk};
ghost use Rattle.std.specs.Int.{w64, from_le_bytes};
ghost use Rattle.pg_strings.specs.Keys.{key, Weighs};

use std::alloc::{AllocError, Allocator};

/// A number that mixes well: 2^64 over the golden ratio.
pub(crate) const MIX: u64 = 0x9E37_79B9_7F4A_7C15;

/// How many keys there are.
const KEYS: usize = 131_072;

/// How many keys share a chain.
pub(crate) const SHARE: usize = 16;

/// What windows are multiplied by, so that only their first bytes count.
pub(crate) fn factor_of(width: usize) -> u64
    requires { (1 ≤ width) × (width ≤ 8) }
    ensures { Weighs result width }
{
    match width {
        1 => 0x1500_0000_0000_0000,
        2 => 0x7C15_0000_0000_0000,
        3 => 0x4A7C_1500_0000_0000,
        4 => 0x7F4A_7C15_0000_0000,
        5 => 0xB97F_4A7C_1500_0000,
        6 => 0x79B9_7F4A_7C15_0000,
        7 => 0x3779_B97F_4A7C_1500,
        _ => MIX,
    }
}

/// Eight bytes as a number.
// With `inline(always)` callers that ask for its first bytes too would read the bytes one by one.
#[inline]
pub(crate) fn window(bytes: &[u8], at: usize) -> u64
    requires { at + 8 ≤ length bytes.now }
    ensures { result ≡ from_le_bytes w64 (drop at bytes.now) }
{
    u64::from_le_bytes([
        bytes[at],
        bytes[at + 1],
        bytes[at + 2],
        bytes[at + 3],
        bytes[at + 4],
        bytes[at + 5],
        bytes[at + 6],
        bytes[at + 7],
    ])
}

/// The byte at a place, or 0 behind the last one.
fn byte_or_zero(bytes: &[u8], at: usize) -> u8
    ensures { result ≡ slice_index bytes.now at }
{
    if at < bytes.len() { bytes[at] } else { 0 }
}

/// The bytes from a place on, at most eight, as a number.
fn last_window(bytes: &[u8], at: usize) -> u64
    requires { at ≤ length bytes.now }
    ensures { result ≡ from_le_bytes w64 (drop at bytes.now) }
{
    u64::from_le_bytes([
        byte_or_zero(bytes, at),
        byte_or_zero(bytes, at + 1),
        byte_or_zero(bytes, at + 2),
        byte_or_zero(bytes, at + 3),
        byte_or_zero(bytes, at + 4),
        byte_or_zero(bytes, at + 5),
        byte_or_zero(bytes, at + 6),
        byte_or_zero(bytes, at + 7),
    ])
}

/// A flag for each key, none of them set.
pub(crate) fn no_flags<A: Allocator + Copy>(alloc: A) -> Result<Vec<bool, A>, AllocError>
    ensures { IfOk result (λ flags. length flags.items ≡ 131072) }
{
    vec![in alloc; false; KEYS]
}

/// The key of a window.
#[inline(always)]
pub(crate) fn key_of(factor: u64, window: u64) -> usize
    ensures few { result < 131072 }
    ensures value { result ≡ (window * factor) % 18446744073709551616 / 140737488355328 }
{
    (window.wrapping_mul(factor) / 0x8000_0000_0000) as usize
}

/// The key of eight bytes.
#[inline(always)]
pub(crate) fn key_at(factor: u64, bytes: &[u8], at: usize) -> usize
    requires { at + 8 ≤ length bytes.now }
    ensures few { result < 131072 }
    ensures value { result ≡ key factor (drop at bytes.now) }
{
    key_of(factor, window(bytes, at))
}

/// The key of the bytes from a place on, at most eight.
pub(crate) fn last_key_at(factor: u64, bytes: &[u8], at: usize) -> usize
    requires { at ≤ length bytes.now }
    ensures few { result < 131072 }
    ensures value { result ≡ key factor (drop at bytes.now) }
{
    if at < bytes.len() && bytes.len() - at >= 8 {
        key_at(factor, bytes, at)
    } else {
        key_of(factor, last_window(bytes, at))
    }
}
