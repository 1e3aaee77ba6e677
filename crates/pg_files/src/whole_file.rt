//! Files that are opened and read before their turn comes.
ghost use Rattle.std.specs.Prelude.{◌≡◌, ◌≤◌, ◌<◌, ◌++◌, [], IfNone, IfSome, drop, length, take};

use crate::disk_store::regular_id;
use pg_base::History;
use pg_walk::Identity;
use std::alloc::{Allocator, Global};
use std::fs::OpenFile;
use std::io::Read;
use std::rt::Files;
use std::{fs, mem};

/// A regular file that was opened, read to its end and closed again.
pub struct WholeFile<A: Allocator = Global> {
    /// The path that it was opened under. This takes no memory.
    pub(crate) path: History<u8>,
    /// Which file it is.
    pub(crate) id: Identity,
    /// All its bytes.
    pub(crate) bytes: Vec<u8, A>,
}

impl<A: Allocator> Drop for WholeFile<A> {
    fn drop(self) {
        let WholeFile {
            path: _,
            id: _,
            bytes: _,
        } = self;
    }
}

/// Reads a file to its end, in one read and one that finds the end, if it has at most so many bytes.
fn read_whole<A: Allocator + Copy, F: Read>(
    alloc: A,
    file: &mut F,
    most: usize,
) -> Option<Vec<u8, A>>
    ensures all { IfSome result (λ bytes. IfSome (F.remaining file.old) (λ left. left ≡ bytes.items)) }
    ensures few { IfSome result (λ bytes. length bytes.items ≤ most) }
{
    let mut bytes = Vec::new(alloc);
    bytes.resize(most.saturating_add(1), 0).ok()?;
    let count = file.read(bytes.as_mut_slice()).ok()?;
    if count > most {
        return None;
    }
    let behind = file.read(&mut bytes.as_mut_slice()[count..]).ok()?;
    if behind > 0 {
        return None;
    }
    bytes.truncate(count);
    Some(bytes)
}

impl<A: Allocator> WholeFile<A> {
    /// How many bytes it has.
    pub fn len(&self) -> usize
        ensures { result ≡ length self.now.bytes.items }
    {
        self.bytes.len()
    }

    /// Gives the next bytes, where so many were given. It gives none at the end, or where there is no room.
    pub(crate) fn read(&self, given: &mut usize, into: &mut [u8]) -> usize
        ensures consumes { drop given.old self.now.bytes.items
            ≡ take result into.new ++ drop given.new self.now.bytes.items }
        ensures end { result ≡ 0 → 0 < length into.old → drop given.new self.now.bytes.items ≡ [] }
        ensures size { (length into.new ≡ length into.old) × (result ≤ length into.old) }
    {
        let bytes = self.bytes.as_slice();
        if *given >= bytes.len() {
            return 0;
        }
        let left = &bytes[*given..];
        let count = left.len().min(into.len());
        into[..count].copy_from_slice(&left[..count]);
        *given += count;
        count
    }
}

impl<A: Allocator + Copy> WholeFile<A> {
    /// Takes all its bytes, if none were given and it has some, and at most `most`. Then it has none.
    pub(crate) fn take_bytes(&mut self, given: usize, most: usize) -> Option<Vec<u8, A>>
        ensures some { IfSome result (λ taken. (0 < length taken.items) × (length taken.items ≤ most)) }
        ensures taken { IfSome result (λ taken. drop given self.old.bytes.items ≡ taken.items) }
        ensures left { IfSome result (λ _. drop given self.new.bytes.items ≡ []) }
        ensures none { IfNone result (drop given self.new.bytes.items ≡ drop given self.old.bytes.items) }
    {
        if given > 0 || self.bytes.is_empty() || self.bytes.len() > most {
            return None;
        }
        let alloc = *self.bytes.allocator();
        Some(mem::replace(&mut self.bytes, Vec::new(alloc)))
    }

    /// The file that the system opens for a path, if it is a regular one of at most so many bytes that can be read now,
    /// and there is memory for it.
    pub fn open<R: Files>(rt: &R, alloc: A, path: &str, most: usize) -> Option<WholeFile<A>>
        ensures path { IfSome result (λ file. file.path.items ≡ path.now) }
        ensures few { IfSome result (λ file. length file.bytes.items ≤ most) }
    {
        let mut file = fs::open(rt, path).ok()?;
        let metadata = file.metadata();
        let len = metadata.as_ref().ok()?.len();
        let id = regular_id(metadata)?;
        if len > most as u64 {
            return None;
        }
        let bytes = read_whole(alloc, &mut file, len as usize)?;
        let mut opened = History::new();
        opened.extend(path.as_bytes());
        Some(WholeFile {
            path: opened,
            id,
            bytes,
        })
    }
}
