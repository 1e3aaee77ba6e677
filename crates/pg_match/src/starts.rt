//! Where a byte leads to from the states that a run may be in before it.
ghost use Rattle.std.specs.Prelude.{◌≡◌, ℕ, ◌+◌, ◌<◌, ◌≤◌, ◌↔◌, length, slice_index, IfOk, IsTrue};
ghost use Rattle.pg_bytes.specs.ByteSets.{bytes};
ghost use Rattle.pg_match.specs.Starts.{AreStarts, AreAmong, Targeted, HasEnd};

use crate::state::{ACCEPT, State};
use pg_bytes::ByteSet;
use std::alloc::{AllocError, Allocator, Global};

/// For each byte the states that it leads to from a seed, so that a search doesn't look at the seeds that can't read
/// the byte.
pub struct Starts<A: Allocator = Global> {
    /// Those of byte 0, of byte 1 and so on, one behind the other. There are at most 256 times as many as seeds.
    pub targets: Vec<u32, A>,
    /// Where the targets of each byte begin, and where those of byte 255 end.
    pub cuts: Vec<u32, A>,
    /// Whether a match may end where it begins, inside a line.
    pub accepts: bool,
}

impl<A: Allocator> Drop for Starts<A> {
    fn drop(self) {
        let Starts {
            targets: _,
            cuts: _,
            accepts: _,
        } = self;
    }
}

impl<A: Allocator> Starts<A> {
    /// Where the targets of a byte begin and end.
    #[inline(always)]
    pub(crate) fn row(&self, byte: u8) -> (usize, usize)
        requires { length self.now.cuts.items ≡ 257 }
        ensures first { result.0 ≡ slice_index self.now.cuts.items byte }
        ensures last { result.1 ≡ slice_index self.now.cuts.items (byte + 1) }
    {
        let byte = byte as usize;
        (self.cuts[byte] as usize, self.cuts[byte + 1] as usize)
    }
}

/// Whether the state where matches end is a seed.
fn has_end(seeds: &[u32]) -> bool
    ensures { IsTrue result ↔ HasEnd seeds.now }
{
    for k in 0..seeds.len() {
        if seeds[k] == ACCEPT {
            return true;
        }
    }
    false
}

/// The bytes that the seeds read.
fn read_by(states: &[State], seeds: &[u32]) -> ByteSet
    requires inside { (k : ℕ) → k < length seeds.now → slice_index seeds.now k < length states.now }
    ensures { AreAmong states.now seeds.now (length seeds.now) (bytes result) }
{
    let mut read = ByteSet::empty();
    for k in 0..seeds.len() {
        let state = seeds[k];
        if let State::Read(set, _) = &states[state as usize] {
            read = read.union(*set);
        }
    }
    read
}

/// Adds the states that a byte leads to from the seeds.
fn add_targets<A: Allocator>(
    targets: &mut Vec<u32, A>,
    states: &[State],
    seeds: &[u32],
    byte: u8,
) -> Result<(), AllocError>
    requires inside { (k : ℕ) → k < length seeds.now → slice_index seeds.now k < length states.now }
    ensures { IfOk result
        (λ _. Targeted states.now seeds.now byte targets.old.items targets.new.items (length seeds.now)) }
{
    for k in 0..seeds.len() {
        let state = seeds[k];
        if let State::Read(set, to) = &states[state as usize] {
            if set.contains(byte) {
                targets.push(*to)?;
            }
        }
    }
    Ok(())
}

/// Adds the states that a byte leads to from the seeds, in no time where no seed reads it. In a long list of words most
/// bytes are such.
fn add_read<A: Allocator>(
    targets: &mut Vec<u32, A>,
    states: &[State],
    seeds: &[u32],
    read: &ByteSet,
    byte: u8,
) -> Result<(), AllocError>
    requires inside { (k : ℕ) → k < length seeds.now → slice_index seeds.now k < length states.now }
    requires read { AreAmong states.now seeds.now (length seeds.now) (bytes read.now) }
    ensures { IfOk result
        (λ _. Targeted states.now seeds.now byte targets.old.items targets.new.items (length seeds.now)) }
{
    if !read.contains(byte) {
        return Ok(());
    }
    add_targets(targets, states, seeds, byte)
}

/// Where each byte leads to from the seeds.
pub(crate) fn starts_of<A: Allocator + Copy>(
    alloc: A,
    states: &[State],
    seeds: &[u32],
) -> Result<Starts<A>, AllocError>
    requires inside { (k : ℕ) → k < length seeds.now → slice_index seeds.now k < length states.now }
    requires few { length seeds.now ≤ 65536 }
    ensures { IfOk result (λ s. AreStarts states.now seeds.now s.targets.items s.cuts.items s.accepts) }
{
    let mut targets = Vec::new(alloc);
    let mut cuts = vec![in alloc; 0u32; 257]?;
    let read = read_by(states, seeds);
    for byte in 0..256u32 {
        add_read(&mut targets, states, seeds, &read, byte as u8)?;
        cuts[byte as usize + 1] = targets.len() as u32;
    }
    Ok(Starts {
        targets,
        cuts,
        accepts: has_end(seeds),
    })
}
