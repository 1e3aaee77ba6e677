//! Where each file starts among all announced blocks.
ghost use Rattle.std.specs.Prelude.{◌≡◌, ◌<◌, ◌≤◌, ◌^◌, ◌++◌, ◌∷◌, [], length, slice_get, OnOk, OnErr};
ghost use Rattle.std.specs.List.{All};
ghost use Rattle.std.specs.List.Sorted.{IsNonDecreasingBy, IsPartitionPoint};
ghost use Rattle.pg_seq.specs.Starts.{start_in, BecomesIfItCan, TakesIn, Lengthens, AddsFile};

use std::alloc::{AllocError, Allocator, Global};
use std::marker::Model;

/// Files in a row, each of which starts as many blocks behind the one before it.
#[derive(Drop)]
struct Progression {
    /// Where its first file starts.
    start: u128,
    /// How far behind each file the next one starts, in blocks. For a file alone it says nothing.
    step: u64,
    /// Its first file.
    first: usize,
}

/// How many blocks were announced before each file that was opened, in the files' order.
///
/// Files in a row that have as many blocks each take one entry of 32 bytes. A new entry is begun
/// only where the last one can't go on. Any entry can go on to a second file, where that starts
/// behind the first by less than 2^64 blocks: so all together take no more than a number for each
/// file would.
#[derive(Drop)]
pub(crate) struct FileStarts<A: Allocator = Global> {
    progressions: Vec<Progression, A>,
    /// How many files there are.
    files: usize,
}

impl<A: Allocator> Model for FileStarts<A> {
    ghost use Rattle.std.specs.Prelude.{ℕ, List};
    ghost use Rattle.pg_seq.specs.Starts.{starts_by, Cover};

    ghost Value = { List ℕ };

    ghost view = { λ s. starts_by s.progressions.items s.files };

    ghost invariant = { λ s. Cover s.progressions.items s.files };
}

impl Progression {
    /// Where a file starts.
    fn start_of(&self, file: usize) -> u128
        requires { start_in self.now file < 2 ^ 128 }
        ensures { result ≡ start_in self.now file }
    {
        let count = file.saturating_sub(self.first);
        self.start + count as u128 * u128::from(self.step)
    }

    /// Takes in the file behind its last one, where it can. The second file gives the step, and later
    /// ones have to start where that says.
    fn take_in(&mut self, file: usize, start: u128) -> bool
        requires { self.old.first < file }
        ensures { BecomesIfItCan (TakesIn file start self.old) self.old self.new result }
    {
        let Some(ahead) = start.checked_sub(self.start) else {
            return false;
        };
        let count = file - self.first;
        if count > 1 {
            return ahead == count as u128 * u128::from(self.step);
        }
        let Ok(step) = u64::try_from(ahead) else {
            return false;
        };
        self.step = step;
        true
    }
}

/// How many of the progressions begin at a file or before it.
fn count_begun(progressions: &[Progression], file: usize) -> usize
    requires { IsNonDecreasingBy (λ p. p.first) progressions.now }
    ensures bound { result ≤ length progressions.now }
    ensures point { IsPartitionPoint (λ p. p.first ≤ file) (λ p. file < p.first) progressions.now result }
{
    progressions.partition_point(|p| p.first <= file)
}

/// Has the last progression take the file behind it in, where it can.
fn lengthen<A: Allocator>(progressions: &mut Vec<Progression, A>, file: usize, start: u128) -> bool
    requires { All (λ p. p.first < file) progressions.old.items }
    ensures { BecomesIfItCan (Lengthens file start progressions.old.items) progressions.old.items progressions.new.items
        result }
{
    let count = progressions.len();
    if count == 0 {
        return false;
    }
    let last = &mut progressions[count - 1];
    last.take_in(file, start)
}

/// Adds the file behind the last one: to the last progression where that can take it in, and else as
/// a progression of its own. A refused request for memory is the only error, and changes nothing.
fn append<A: Allocator>(
    progressions: &mut Vec<Progression, A>,
    file: usize,
    start: u128,
) -> Result<(), AllocError>
    requires { All (λ p. p.first < file) progressions.old.items }
    ensures ok { OnOk result (AddsFile file start progressions.old.items progressions.new.items) }
    ensures err { OnErr result (progressions.new.items ≡ progressions.old.items) }
{
    if lengthen(progressions, file, start) {
        return Ok(());
    }
    progressions.push(Progression {
        start,
        step: 0,
        first: file,
    })?;
    Ok(())
}

impl<A: Allocator> FileStarts<A> {
    /// No files.
    pub(crate) fn new(alloc: A) -> FileStarts<A>
        ensures { result ≡ [] }
    {
        FileStarts {
            progressions: Vec::new(alloc),
            files: 0,
        }
    }

    /// Where a file starts, if there is such a file.
    pub(crate) fn get(&self, file: usize) -> Option<u128>
        ensures { result ≡ slice_get self.now file }
    {
        if file >= self.files {
            return None;
        }
        let begun = count_begun(self.progressions.as_slice(), file);
        Some(self.progressions[begun - 1].start_of(file))
    }

    /// The next file starts here. A refused request for memory is the only error, and changes nothing.
    pub(crate) fn push(&mut self, start: u128) -> Result<(), AllocError>
        requires { length self.old < 2 ^ 32 }
        ensures ok { OnOk result (self.new ≡ self.old ++ start ∷ []) }
        ensures err { OnErr result (self.new ≡ self.old) }
    {
        append(&mut self.progressions, self.files, start)?;
        self.files += 1;
        Ok(())
    }
}
