//! Files in memory, for tests.
ghost use Rattle.std.specs.Prelude.{◌≡◌, ◌≤◌, ◌+◌, ◌^◌, ◌⊎◌, ◌++◌, ◌∷◌, [], map, min, length, is_some, option_and_then};
ghost use Rattle.std.specs.Prelude.{ℕ, ◌<◌, option_map, slice_get, Some, IfNone, IfSome, OnOk, OnErr};
ghost use Rattle.pg_files.specs.Asking.{ReadGives, TakesBuffered};
ghost use Rattle.pg_files.specs.Store.{Opens};

use crate::files::ReadFault;
use crate::listed::OperandFiles;
use crate::past::StorePast;
use crate::store::{OpenFault, Store};
use pg_base::Cause;
use pg_walk::MemTree;
use std::alloc::{AllocError, Allocator, Global};

/// What happens behind the bytes of a file.
#[derive(Clone, Copy, Debug, PartialEq, Eq)]
pub enum Ending {
    /// The file ends.
    Ends,
    /// Each further read fails.
    Fails,
}

struct MemFile {
    path: String,
    bytes: Vec<u8>,
    ending: Ending,
}

impl Drop for MemFile {
    fn drop(self) {
        let MemFile {
            path: _,
            bytes: _,
            ending: _,
        } = self;
    }
}

/// Files in memory, found in a tree in memory.
pub type MemFiles<'t, A = Global> = OperandFiles<'t, MemTree, MemStore<A>>;

/// Files in memory. Standard input is the file at `-`.
pub struct MemStore<A: Allocator + Copy = Global> {
    alloc: Global,
    files: Vec<MemFile>,
    open: Option<usize>,
    at: usize,
    read_limit: usize,
    /// Where files can be taken whole, what their memory is asked of then.
    buffers: Option<A>,
    past: StorePast,
    ghost some_bytes: { 1 ≤ read_limit },
    ghost is_open: { (place : ℕ) → «open» ≡ Some place → place < length files.items },
}

impl<A: Allocator + Copy> Drop for MemStore<A> {
    fn drop(self) {
        let MemStore {
            alloc: _,
            files: _,
            open: _,
            at: _,
            read_limit: _,
            buffers: _,
            past: _,
        } = self;
    }
}

impl<A: Allocator + Copy> MemStore<A> {
    ghost use Rattle.pg_files.specs.MemStore.{stored_file, files, content_left, left_of, file_at};

    /// A store without files, in which no file can be opened. A read gives as much as it can, and no file can be taken
    /// whole.
    pub fn new(alloc: Global) -> MemStore<A>
        ensures files { files result ≡ [] }
        ensures past { result.past ≡ [] }
        ensures limit { result.read_limit ≡ usize.MAX }
    {
        MemStore {
            alloc,
            files: Vec::new(alloc),
            open: None,
            at: 0,
            read_limit: usize::MAX,
            buffers: None,
            past: StorePast::new(),
        }
    }

    /// Adds the file at a path, which can be opened from now on. Of two at a path the first counts. The open file
    /// stays as it is.
    ///
    /// # Errors
    ///
    /// `AllocError` where a request for memory was refused. No file is added then.
    pub fn add(&mut self, path: &str, bytes: &[u8], ending: Ending) -> Result<(), AllocError>
        ensures ok { OnOk result
            (files self.new ≡ files self.old ++ (path.now, record { bytes = bytes.now; ending = ending }) ∷ []) }
        ensures err { OnErr result (files self.new ≡ files self.old) }
        ensures left { content_left self.new ≡ content_left self.old }
        ensures past { self.new.past ≡ self.old.past }
        ensures limit { self.new.read_limit ≡ self.old.read_limit }
    {
        let file = MemFile {
            path: String::from_str(self.alloc, path)?,
            bytes: Vec::from_slice(self.alloc, bytes)?,
            ending,
        };
        self.files.push(file)?;
        Ok(())
    }

    /// From now on a read gives at most so many bytes, which are at least one.
    pub fn set_read_limit(&mut self, read_limit: usize)
        requires { 1 ≤ read_limit }
        ensures files { files self.new ≡ files self.old }
        ensures left { content_left self.new ≡ content_left self.old }
        ensures past { self.new.past ≡ self.old.past }
        ensures limit { self.new.read_limit ≡ read_limit }
    {
        self.read_limit = read_limit;
    }

    /// From now on what is left of a file can be taken whole, in memory of this. Where that is refused it can't.
    pub fn buffer(&mut self, alloc: A)
        ensures files { files self.new ≡ files self.old }
        ensures left { content_left self.new ≡ content_left self.old }
        ensures past { self.new.past ≡ self.old.past }
        ensures limit { self.new.read_limit ≡ self.old.read_limit }
    {
        self.buffers = Some(alloc);
    }

    /// The place of the first file at a path.
    fn place_of(&self, path: &str) -> Option<usize>
        ensures place { option_map (λ f. f.1) (option_and_then (slice_get (files self.now)) result)
            ≡ file_at (files self.now) path.now }
        ensures found { is_some result ≡ is_some (file_at (files self.now) path.now) }
    {
        for (place, file) in self.files.iter().enumerate() {
            if file.path.as_str() == path {
                return Some(place);
            }
        }
        None
    }

    /// What the file at a place has left behind its first bytes.
    fn left_of(files: &[MemFile], place: Option<usize>, at: usize) -> Option<(&[u8], Ending)>
        ensures left { option_map (λ left. record { bytes = left.0.now; ending = left.1 }) result
            ≡ left_of (map stored_file files.now) place at }
        ensures room { IfSome result (λ left. (left.0.now ≡ []) ⊎ (at + length left.0.now ≤ 2 ^ 63)) }
    {
        let file = files.get(place?)?;
        let bytes = file.bytes.as_slice();
        if at <= bytes.len() {
            Some((&bytes[at..], file.ending))
        } else {
            Some((&[], file.ending))
        }
    }
}

impl<A: Allocator + Copy> Store for MemStore<A> {
    type Alloc = A;

    ghost use Rattle.std.specs.Prelude.{None, true};
    ghost use Rattle.pg_base.specs.declared.cause.Cause.TheVariants.{CannotOpen};
    ghost use Rattle.pg_files.specs.declared.store.OpenFault.TheVariants.{Refused};
    ghost use Rattle.pg_files.specs.MemStore.{files, content_left, file_at, TakesContent, TakesAll};

    ghost past = { λ s. s.past };

    fn open(&mut self, path: &str, _spares_output: bool) -> Result<(), OpenFault>
        ensures opens { Opens _spares_output path.now self.old.past self.new.past result }
        ensures found { OnOk result (is_some (file_at (files self.old) path.now) ≡ true) }
        ensures missing { OnErr result ((file_at (files self.old) path.now ≡ None)
            × (result ≡ Err (Refused CannotOpen))) }
        ensures left { content_left self.new ≡ file_at (files self.old) path.now }
        ensures files { files self.new ≡ files self.old }
        ensures limit { self.new.read_limit ≡ self.old.read_limit }
    {
        self.at = 0;
        self.open = self.place_of(path);
        if self.open.is_none() {
            self.past.refuse(path, Cause::CannotOpen);
            return Err(OpenFault::Refused(Cause::CannotOpen));
        }
        self.past.open(path);
        Ok(())
    }

    fn may_wait(&self) -> bool {
        false
    }

    fn read(&mut self, into: &mut [u8]) -> Result<usize, ReadFault>
        ensures given { ReadGives into.new self.old.past self.new.past result }
        ensures size { length into.new ≡ length into.old }
        ensures takes { TakesContent (content_left self.old) (content_left self.new)
            (min (length into.old) self.old.read_limit) into.new result }
        ensures files { files self.new ≡ files self.old }
        ensures limit { self.new.read_limit ≡ self.old.read_limit }
    {
        let Some((rest, ending)) = Self::left_of(&self.files, self.open, self.at) else {
            self.past.end(true);
            return Err(ReadFault);
        };
        if rest.is_empty() && ending == Ending::Fails {
            self.past.end(true);
            return Err(ReadFault);
        }
        let count = rest.len().min(into.len()).min(self.read_limit);
        into[..count].copy_from_slice(&rest[..count]);
        self.at += count;
        if count == 0 {
            self.past.end(false);
        } else {
            self.past.give(&into[..count]);
        }
        Ok(count)
    }

    fn take_buffered(&mut self, most: usize) -> Option<Vec<u8, A>>
        ensures taken { TakesBuffered (option_map (λ taken. taken.items) result) self.old.past self.new.past }
        ensures few { IfSome result (λ taken. length taken.items ≤ most) }
        ensures takes { IfSome result (λ taken. TakesAll (content_left self.old) (content_left self.new) taken.items) }
        ensures none { IfNone result (content_left self.new ≡ content_left self.old) }
        ensures files { files self.new ≡ files self.old }
        ensures limit { self.new.read_limit ≡ self.old.read_limit }
    {
        let alloc = self.buffers?;
        let (rest, _) = Self::left_of(&self.files, self.open, self.at)?;
        if rest.is_empty() || rest.len() > most {
            return None;
        }
        let taken = Vec::from_slice(alloc, rest).ok()?;
        self.at += taken.len();
        self.past.give(taken.as_slice());
        Some(taken)
    }
}
