//! The walk over the operands of a request.
ghost use Rattle.std.specs.Prelude.{◌≡◌, [], false, map, IfOk, OnErr, OnOk};
ghost use Rattle.std.specs.String.{string_bytes};
ghost use Rattle.pg_walk.specs.Scopes.{scope_of};
ghost use Rattle.pg_request.specs.Asked.{asked_of, input_name, scope_for, spares_output};
ghost use Rattle.pg_request.specs.Operands.{TellsDirectory};
ghost use Rattle.pg_request.specs.Reading.{contents_of};

use crate::names::{is_directory, operands_of};
use crate::scope::read_scope;
use pg_files::{OperandFiles, STANDARD_INPUT, Store};
use pg_rows::Mode;
use pg_walk::FileTree;
use pg_words::Request;
use std::alloc::{AllocError, Global};

/// Has a walk over the operands of a request listed, where the files of globs have these contents, and answers whether
/// the one operand is a directory, as [`is_directory`] has it. No directory is listed yet.
///
/// # Errors
///
/// Only where a request for memory was refused. What was listed before stays so.
pub fn list_files<'t, T: FileTree, S: Store + Drop>(
    alloc: Global,
    request: &Request<'_>,
    globs: &[Vec<u8>],
    tree: &'t T,
    files: &mut OperandFiles<'t, T, S>,
) -> Result<bool, AllocError>
    ensures fresh { OnOk result
        ((files.new.walk.asked.items ≡ []) × (files.new.done ≡ false) × (files.new.broken ≡ false)) }
    ensures store { files.new.store ≡ files.old.store }
    ensures walk { OnOk result ((files.new.walk.walker.tree.now ≡ tree.now)
        × (map string_bytes files.new.walk.operands.items ≡ (asked_of request.now).files)
        × (scope_of files.new.walk.walker.scope ≡ scope_for (asked_of request.now) (contents_of globs.now))) }
    ensures spares { OnOk result (files.new.spares_output ≡ spares_output request.now.format.mode) }
    ensures named { OnOk result (string_bytes files.new.input_name ≡ input_name (asked_of request.now)) }
    ensures directory { IfOk result
        (TellsDirectory (T.tells tree.now) (T.answers tree.now) (asked_of request.now).files) }
    ensures err { OnErr result (files.new ≡ files.old) }
{
    let directory = is_directory(tree, request.files.as_slice())?;
    let operands = operands_of(alloc, request.files.as_slice())?;
    let scope = read_scope(alloc, request, globs)?;
    let spares = spares_output(request.format.mode);
    let name = String::from_str(alloc, input_name(request))?;
    files.list(alloc, tree, operands.as_slice(), scope, spares, name)?;
    Ok(directory)
}

/// What standard input is called.
fn input_name<'a>(request: &Request<'a>) -> &'a str
    ensures { result.now ≡ input_name (asked_of request.now) }
{
    request.label.unwrap_or(STANDARD_INPUT)
}

/// Whether the output grows with the lines that are read, so that it isn't searched itself.
fn spares_output(mode: Mode) -> bool
    ensures { result ≡ spares_output mode }
{
    mode.shows_rows()
}
