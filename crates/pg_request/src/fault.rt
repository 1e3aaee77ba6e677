//! The faults of the program.
ghost use Rattle.std.specs.Prelude.{◌≡◌};
ghost use Rattle.pg_request.specs.declared.fault.Fault.TheVariants.{OutOfMemory};

use pg_base::Cause;
use pg_grammar::ListFault;
use pg_words::UsageFault;
use std::alloc::{AllocError, AllocFailed};

/// Why the program doesn't search all that it was asked to.
#[derive(Clone, Copy, Debug, Drop)]
pub enum Fault<'a> {
    /// An argument isn't UTF-8.
    NotText,
    /// The words of the command line ask for nothing.
    Usage(UsageFault),
    /// The file of patterns or of globs of this name couldn't be opened or read to its end, and why.
    Unreadable(&'a str, Cause),
    /// A pattern is no expression.
    Pattern(ListFault),
    /// The patterns ask for more than 65,536 states together.
    TooLarge,
    /// A request for memory was refused.
    OutOfMemory,
    /// Standard output failed.
    WriteFailed,
    /// More than 2^32 - 1 files are to be searched.
    TooManyFiles,
    /// A line of a file has more than 2^30 bytes, or the file more than 2^62.
    LineTooLong,
}

impl<'a> From<AllocError> for Fault<'a> {
    ghost from_gives = { λ _ fault. fault ≡ OutOfMemory };

    fn from(_error: AllocError) -> Fault<'a> {
        Fault::OutOfMemory
    }
}

impl<'a, T: Drop> From<AllocFailed<T>> for Fault<'a> {
    ghost from_gives = { λ _ fault. fault ≡ OutOfMemory };

    fn from(_error: AllocFailed<T>) -> Fault<'a> {
        Fault::OutOfMemory
    }
}
