//! The words of the command line, as the system gives them.
ghost use Rattle.std.specs.Prelude.{◌≡◌, ◌⊎◌, IfErr};
ghost use Rattle.pg_request.specs.declared.fault.Fault.TheVariants.{NotText, OutOfMemory};

use crate::fault::Fault;
use std::env;
use std::io::ErrorKind;
use std::rt::Env;

/// What the program is called with.
#[derive(Drop)]
pub struct Call {
    /// The words behind its name.
    pub words: Vec<String>,
    /// Whether standard output is a terminal.
    pub terminal: bool,
}

/// The words behind the program's name.
///
/// # Errors
///
/// `NotText` where a word isn't UTF-8, and `OutOfMemory`.
pub fn words_of<R: Env + AllocGlobal>(rt: &R) -> Result<Vec<String>, Fault<'static>>
    ensures { IfErr result (λ fault. (fault ≡ NotText) ⊎ (fault ≡ OutOfMemory)) }
{
    let words = match env::args(rt) {
        Ok(words) => words,
        Err(error) if error.kind() == ErrorKind::OutOfMemory => return Err(Fault::OutOfMemory),
        Err(_) => return Err(Fault::NotText),
    };
    words
        .skip(1)
        .collect(rt.alloc())
        .map_err(|_| Fault::OutOfMemory)
}
