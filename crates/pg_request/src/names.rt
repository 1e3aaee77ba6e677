//! The operands of a request, and whether rows have names.
ghost use Rattle.std.specs.Prelude.{◌≡◌, map, IfOk};
ghost use Rattle.std.specs.String.{string_bytes};
ghost use Rattle.pg_grammar.specs.Slices.{bytes_of};
ghost use Rattle.pg_request.specs.Operands.{TellsDirectory};

use pg_walk::{FileKind, FileTree, LookFault};
use std::alloc::{AllocError, Global};

/// Whether the one operand is a directory, links followed, in a tree that tells its answers; what can't be looked at is
/// none, nor is `-`. With several operands, or none, the answer is false.
///
/// # Errors
///
/// Only where a request for memory was refused.
pub fn is_directory<T: FileTree>(tree: &T, files: &[&str]) -> Result<bool, AllocError>
    ensures { IfOk result (TellsDirectory (T.tells tree.now) (T.answers tree.now) (bytes_of files.now)) }
{
    let [file] = files else {
        return Ok(false);
    };
    if *file == "-" {
        return Ok(false);
    }
    match tree.kind(file, true) {
        Ok(kind) => Ok(kind == FileKind::Directory),
        Err(LookFault::Failed) => Ok(false),
        Err(LookFault::OutOfMemory) => Err(AllocError),
    }
}

/// The operands, as a walk takes them. A refused request for memory is the only error.
pub fn operands_of(alloc: Global, files: &[&str]) -> Result<Vec<String>, AllocError>
    ensures { IfOk result (λ operands. map string_bytes operands.items ≡ bytes_of files.now) }
{
    let mut operands = Vec::with_capacity(alloc, files.len())?;
    for file in files {
        let operand = String::from_str(alloc, file)?;
        operands.push(operand)?;
    }
    Ok(operands)
}
