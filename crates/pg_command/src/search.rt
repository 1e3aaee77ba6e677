//! The search that a request asks for, over any files and streams.
ghost use Rattle.std.specs.Prelude.{◌≡◌, ◌≤◌, ◌^◌, [], IfOk, IfErr};
ghost use Rattle.pg_grammar.specs.Slices.{bytes_of};
ghost use Rattle.pg_request.specs.Asked.{asked_of, has_names, pace_of};
ghost use Rattle.pg_command.specs.Answers.{AnswersSearch, Fails, Succeeds};

use crate::fault::fault_of_search;
use pg_base::Sink;
use pg_files::{OperandFiles, Store};
use pg_report::tell_of_search;
use pg_request::{Fault, list_files, read_globs, read_patterns, read_scope, text_of};
use pg_rows::Format;
use pg_run::{Setup, has_room_for};
use pg_search::{FreeGate, run};
use pg_walk::{Prefetch, start_helper};
use pg_words::{Naming, Request};
use std::alloc::Global;
use std::sync::Wait;
use std::thread;
use std::thread::Threads;
use std::time::Clock;

/// The longest line that is searched, in bytes.
const LONGEST_LINE: u32 = 1_073_741_824;

/// More threads that look ahead were seen to gain nothing.
const MOST_HELPERS: u32 = 3;

/// A fault was told, and the status is 2.
#[derive(Clone, Copy, Debug, PartialEq, Eq)]
pub struct ToldFault;

/// Searches the files that a request names, which a walk over its operands in a tree gives and the store of `files`
/// opens, each when its turn comes. What is asked for of them goes to `out`, in the request's format; rows call a file
/// by its path, and standard input by its label or else `(standard input)`. Each name that gives no file, and each file
/// whose reading fails, has a line in `err` unless the request is silent. The answer is the status: 0 where a line was
/// selected, 1 where none was, and 2 where a name gave no file or a reading failed; but with -q 0 where a line was
/// selected. Nothing was asked of `files` yet, and no directory is listed before the patterns and the files of globs
/// are read.
///
/// # Errors
///
/// `ToldFault` where a fault ended the search, whose lines went to `err`: that of the first -f file that can't be read,
/// then that of the first file of globs, then that of the patterns, the first of them that has one, or of their size,
/// and then those that end a run; or, at any time, that a request for memory was refused. `out` got a beginning of its
/// output then.
pub fn answer<
    't,
    R: Threads + Wait + Clock + Sync,
    T: Prefetch<Helper: Send + Sync> + Send + Sync,
    S: Store<Alloc = Global> + Drop,
    W: Sink,
    E: Sink,
>(
    rt: &R,
    alloc: Global,
    request: &Request<'_>,
    tree: &'t T,
    files: &mut OperandFiles<'t, T, S>,
    out: &mut W,
    err: &mut E,
) -> Result<u8, ToldFault>
    requires { files.old.walk.asked.items ≡ [] }
    ensures answers { AnswersSearch (T.tells tree.now) (T.answers tree.now) (asked_of request.now)
        (S.past files.old.store) (S.past files.new.store) (W.stream out.old) (W.stream out.new)
        (E.stream err.old) (E.stream err.new) result }
    ensures small { IfOk result (λ status. status ≤ 2) }
{
    match search(rt, alloc, request, tree, files, out, err) {
        Ok(status) => Ok(status),
        Err(fault) => {
            tell_of_search(alloc, request.texts.as_slice(), fault, err);
            Err(ToldFault)
        }
    }
}

/// Reads the files of patterns and those of globs, and searches the files that a walk over the operands gives. Nothing
/// was asked of `files` yet.
fn search<
    'a,
    't,
    R: Threads + Wait + Clock + Sync,
    T: Prefetch<Helper: Send + Sync> + Send + Sync,
    S: Store<Alloc = Global> + Drop,
    W: Sink,
    E: Sink,
>(
    rt: &R,
    alloc: Global,
    request: &Request<'a>,
    tree: &'t T,
    files: &mut OperandFiles<'t, T, S>,
    out: &mut W,
    err: &mut E,
) -> Result<u8, Fault<'a>>
    requires { files.old.walk.asked.items ≡ [] }
    ensures success { IfOk result (Succeeds (T.tells tree.now) (T.answers tree.now) (asked_of request.now)
        (S.past files.old.store) (S.past files.new.store) (W.stream out.old) (W.stream out.new)
        (E.stream err.old) (E.stream err.new)) }
    ensures small { IfOk result (λ status. status ≤ 2) }
    ensures fault { IfErr result (Fails (T.tells tree.now) (T.answers tree.now) (asked_of request.now)
        (S.past files.old.store) (S.past files.new.store) (W.stream out.old) (W.stream out.new)
        (E.stream err.old) (E.stream err.new)) }
{
    let lists = read_patterns(alloc, request.pattern_files.as_slice(), &mut files.store)?;
    let globs = read_globs(alloc, request.filters.as_slice(), &mut files.store)?;
    let text = text_of(alloc, request, lists)?;
    let directory = list_files(alloc, request, globs.as_slice(), tree, files)?;
    prefetch(rt, alloc, request, globs.as_slice(), tree);
    let setup = setup_of(request, directory);
    match run(rt, alloc, text, setup, files, out, err, &FreeGate) {
        Ok(status) => Ok(status),
        Err(fault) => Err(fault_of_search(fault)),
    }
}

/// How many threads may look ahead in the trees that a request asks for: none where blocks are searched one at a time.
fn helpers_for<R: Threads>(rt: &R, request: &Request<'_>) -> u32 {
    if !request.recursive || request.round == 1 {
        return 0;
    }
    let others = match thread::available_parallelism(rt) {
        Ok(count) => (count.get() - 1).min(MOST_HELPERS as usize) as u32,
        Err(_) => 1,
    };
    others.min(request.workers)
}

/// Has other threads look ahead in the trees that a request asks for. Those that can't be made are done without, and so
/// are all where memory for what they are to look for is refused.
fn prefetch<R: Threads, T: Prefetch<Helper: Send + Sync> + Send + Sync>(
    rt: &R,
    alloc: Global,
    request: &Request<'_>,
    globs: &[Vec<u8>],
    tree: &T,
) {
    let helpers = helpers_for(rt, request);
    if helpers == 0 || !has_room_for(alloc, helpers) {
        return;
    }
    let Ok(scope) = read_scope(alloc, request, globs) else {
        return;
    };
    tree.expect(scope);
    for _ in 0..helpers {
        let Some(helper) = tree.helper() else {
            break;
        };
        if !start_helper(rt, helper) {
            break;
        }
    }
}

/// How files are searched, where it is known whether the one operand is a directory.
fn setup_of(request: &Request<'_>, directory: bool) -> Setup
    ensures format { result.format ≡ record request.now.format {
      names = has_names request.now.names (bytes_of request.now.files.items) request.now.recursive directory;
    } }
    ensures silent { result.silent ≡ request.now.silent }
    ensures line { result.line ≡ 2 ^ 30 }
    ensures pace { pace_of request.now ≡ record {
      workers = result.workers;
      block = result.block;
      round = result.round;
      line_buffered = result.line_buffered;
      always_spread = result.always_spread;
    } }
{
    let names = match request.names {
        Naming::Always => true,
        Naming::Never => false,
        Naming::BySeveral => request.files.len() > 1 || request.recursive && directory,
    };
    Setup {
        format: Format {
            names,
            ..request.format
        },
        workers: request.workers,
        block: request.block,
        line: LONGEST_LINE,
        round: request.round,
        always_spread: request.always_spread,
        line_buffered: request.line_buffered,
        silent: request.silent,
    }
}
