//! Files that are given one after another.
ghost use Rattle.std.specs.Prelude.{◌≡◌, ◌<◌, ◌≤◌, ℕ, false, true, List, length, option_map, IfOk, IfSome, OnErr};
ghost use Rattle.pg_files.specs.Given.{AllGiven, FilesPast, is_reading, newest_name};
ghost use Rattle.pg_files.specs.Asking.{NextGives, ReadGives, TakesBuffered};

use pg_base::Cause;
use std::alloc::{AllocError, Allocator};
use thiserror::Error;

/// A read that failed.
#[derive(Clone, Copy, Debug, PartialEq, Eq, Error)]
#[error("read failed")]
pub struct ReadFault;

/// What comes next.
#[derive(Clone, Copy, Debug, PartialEq, Eq)]
pub enum Step {
    /// A file. It is the one that is read.
    File,
    /// A name that gives no file, and why.
    Miss(Cause),
    /// There is no more.
    Done,
}

/// Files that are given one after another, and read as far as that is asked for.
pub trait Files {
    /// What the memory of files is asked of that are in memory already.
    type Alloc: Allocator;

    /// What can be asked for.
    ghost Request: { Type 0 };

    /// What is asked for, and of what. No call changes it.
    ghost list: { Self → Request };

    /// Whether these may be the names of all that a request finds, in their order.
    ghost finds: { Request → List (List ℕ) → Type 0 };

    /// What was given.
    ghost past: { Self → FilesPast };

    /// Goes on to the next file or name, also where the one before wasn't read to its end. `Done` comes once all
    /// that is found was given. It isn't called behind `Done`.
    ///
    /// # Errors
    ///
    /// `AllocError` where a request for memory was refused. Nothing more is given then.
    fn next(&mut self) -> Result<Step, AllocError>
        requires { (past self.old).done ≡ false }
        ensures ok { IfOk result (λ step. NextGives step (past self.old) (past self.new)) }
        ensures all { IfOk result (λ step. step ≡ Step.Done
            → AllGiven (finds (list self.new)) (past self.new).given) }
        ensures err { OnErr result (past self.new ≡ past self.old) }
        ensures same_list { list self.new ≡ list self.old };

    /// The name of the newest file or miss, and the empty one where nothing was given.
    fn name(&self) -> &[u8]
        ensures { result.now ≡ newest_name (past self.now).given };

    /// Whether a read of the newest file may wait for someone else, as that of a pipe or a terminal.
    /// Nothing rests on the answer but when rows are written.
    fn may_wait(&self) -> bool;

    /// Reads the next bytes of the newest file into the front of a buffer that isn't empty. The file's
    /// end wasn't met, and no read of it failed.
    ///
    /// `Ok(k)` says that these are the buffer's first k bytes. `Ok(0)` is the file's end.
    ///
    /// # Errors
    ///
    /// `ReadFault` where the read failed, also where it was interrupted.
    fn read(&mut self, into: &mut [u8]) -> Result<usize, ReadFault>
        requires room { 0 < length into.old }
        requires reading { is_reading (past self.old).given ≡ true }
        ensures given { ReadGives into.new (past self.old).given (past self.new).given result }
        ensures size { length into.new ≡ length into.old }
        ensures done { (past self.new).done ≡ (past self.old).done }
        ensures same_list { list self.new ≡ list self.old };

    /// Takes all that is left of the newest file, with its memory, if that is in memory already, and is at least one
    /// byte and at most `most`. The file's end, which wasn't met before, isn't met by that, and no read of it failed.
    fn take_buffered(&mut self, most: usize) -> Option<Vec<u8, Self::Alloc>>
        requires reading { is_reading (past self.old).given ≡ true }
        ensures taken { TakesBuffered (option_map (λ taken. taken.items) result)
            (past self.old).given (past self.new).given }
        ensures few { IfSome result (λ taken. length taken.items ≤ most) }
        ensures done { (past self.new).done ≡ (past self.old).done }
        ensures same_list { list self.new ≡ list self.old };
}
