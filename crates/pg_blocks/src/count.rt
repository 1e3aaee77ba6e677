//! How often a byte stands among others.
//!
//! The count of a block's terminators is made while the block is near, so that it costs little beside the search.
ghost use Rattle.std.specs.Prelude.{◌≡◌, ◌+◌, ◌*◌, ◌≤◌, ◌==◌, length, take, drop, map, slice_range, count_by};
ghost use Rattle.std.specs.Prelude.{if◌then◌else◌};
ghost use Rattle.std.specs.Simd.Lanes.{mask_l};

use std::simd::prelude::*;

/// How many bytes a row has. They are looked at together.
const ROW: usize = 64;

/// The most rows that are counted column by column before the columns are added up: a column's count is a byte.
const MOST_ROWS: usize = 255;

/// How many bytes are looked at together where no whole row is left.
const CHUNK: usize = 16;

/// For each of the 64 bytes from a place on, one where it is the byte and zero elsewhere.
#[inline(always)]
fn hits_in_row(byte: u8, bytes: &[u8], at: usize) -> u8x64
    requires { at + 64 ≤ length bytes.now }
    ensures { result ≡ map (λ b. if b == byte then 1 else 0) (slice_range bytes.now at (at + 64)) }
{
    u8x64::from_slice(&bytes[at..])
        .simd_eq(u8x64::splat(byte))
        .select(u8x64::splat(1), u8x64::splat(0))
}

/// How often a byte stands in the first rows of some bytes.
fn count_in_rows(byte: u8, bytes: &[u8], rows: usize) -> usize
    requires few { rows ≤ 255 }
    requires within { rows * 64 ≤ length bytes.now }
    ensures { result ≡ count_by (λ b. b == byte) (take (rows * 64) bytes.now) }
{
    let mut columns = u8x64::splat(0);
    for row in 0..rows {
        columns = columns.strict_add(hits_in_row(byte, bytes, row * ROW));
    }
    columns.dot4(u8x64::splat(1)).strict_reduce_sum() as usize
}

/// A bit for each of the 16 bytes from a place on, the lowest for the first. It is set where the byte stands.
#[inline(always)]
fn hits_in_chunk(byte: u8, bytes: &[u8], at: usize) -> u64
    requires { at + 16 ≤ length bytes.now }
    ensures { result ≡ mask_l (map (λ b. b == byte) (slice_range bytes.now at (at + 16))) }
{
    u8x16::from_slice(&bytes[at..])
        .simd_eq(u8x16::splat(byte))
        .to_bitmask()
}

/// How often a byte stands among some bytes, each of which is looked at.
fn count_each(byte: u8, bytes: &[u8]) -> usize
    ensures { result ≡ count_by (λ b. b == byte) bytes.now }
{
    bytes.iter().filter(|b| **b == byte).count()
}

/// How often a byte stands among the bytes from a place on. Those behind the last whole chunk are looked at in the last
/// 16 bytes of all, where there are so many.
fn count_from(byte: u8, bytes: &[u8], from: usize) -> usize
    requires { from ≤ length bytes.now }
    ensures { result ≡ count_by (λ b. b == byte) (drop from bytes.now) }
{
    if bytes.len() < CHUNK {
        return count_each(byte, &bytes[from..]);
    }
    let mut count = 0;
    let mut at = from;
    while bytes.len() - at >= CHUNK {
        count += hits_in_chunk(byte, bytes, at).count_ones() as usize;
        at += CHUNK;
    }
    let last = bytes.len() - CHUNK;
    count + (hits_in_chunk(byte, bytes, last) >> (at - last)).count_ones() as usize
}

/// How often a byte stands among some bytes.
pub(crate) fn count_byte(byte: u8, bytes: &[u8]) -> usize
    ensures { result ≡ count_by (λ b. b == byte) bytes.now }
{
    let mut count = 0;
    let mut at = 0;
    while bytes.len() - at >= ROW {
        let rows = ((bytes.len() - at) / ROW).min(MOST_ROWS);
        count += count_in_rows(byte, &bytes[at..], rows);
        at += rows * ROW;
    }
    count + count_from(byte, bytes, at)
}
