//! Files by their paths.
ghost use Rattle.std.specs.Prelude.{◌≡◌, ◌<◌, ◌≤◌, length, option_map, IfSome, List, true};
ghost use Rattle.pg_files.specs.Given.{FileOutcome, is_reading};
ghost use Rattle.pg_files.specs.Asking.{ReadGives, TakesBuffered};
ghost use Rattle.pg_files.specs.Store.{Opens};

use crate::files::ReadFault;
use pg_base::Cause;
use std::alloc::Allocator;

/// Why a path isn't opened.
#[derive(Clone, Copy, Debug, PartialEq, Eq)]
pub enum OpenFault {
    /// It gives no file.
    Refused(Cause),
    /// A request for memory was refused.
    OutOfMemory,
}

/// Files that are opened by their paths and read one at a time.
pub trait Store {
    /// What the memory of files is asked of that are in memory already.
    type Alloc: Allocator;

    /// What the files gave, by their paths.
    ghost past: { Self → List FileOutcome };

    /// Makes the file at a path, or for `-` standard input, the one that `read` reads. Where
    /// `spares_output` is true, the file that the output goes to is refused, for it would be read on as
    /// it grows.
    ///
    /// # Errors
    ///
    /// `Refused` where the path gives no file, with its cause; then none is open. `OutOfMemory` where a
    /// request for memory was refused; then nothing has changed.
    fn open(&mut self, path: &str, spares_output: bool) -> Result<(), OpenFault>
        ensures { Opens spares_output path.now (past self.old) (past self.new) result };

    /// Whether a read of the open file may wait for someone else, as that of a pipe or a terminal.
    /// Nothing rests on the answer but when rows are written.
    fn may_wait(&self) -> bool;

    /// Reads the next bytes of the open file into the front of a buffer that isn't empty. A file is open, whose end
    /// wasn't met and of which no read failed.
    ///
    /// `Ok(k)` says that these are the buffer's first k bytes. `Ok(0)` is the file's end.
    ///
    /// # Errors
    ///
    /// `ReadFault` where the read failed, also where it was interrupted.
    fn read(&mut self, into: &mut [u8]) -> Result<usize, ReadFault>
        requires some { 0 < length into.old }
        requires reading { is_reading (past self.old) ≡ true }
        ensures given { ReadGives into.new (past self.old) (past self.new) result }
        ensures size { length into.new ≡ length into.old };

    /// Takes all that is left of the open file, with its memory, if that is in memory already, and is at least one byte
    /// and at most `most`. The file's end, which wasn't met before, isn't met by that, and no read of it failed.
    fn take_buffered(&mut self, most: usize) -> Option<Vec<u8, Self::Alloc>>
        requires reading { is_reading (past self.old) ≡ true }
        ensures taken { TakesBuffered (option_map (λ taken. taken.items) result) (past self.old) (past self.new) }
        ensures few { IfSome result (λ taken. length taken.items ≤ most) };
}
