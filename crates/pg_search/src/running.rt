//! The search for a text over any files.
ghost use Rattle.std.specs.Prelude.{◌≡◌, IfErr, IfOk};
ghost use Rattle.pg_selection.specs.Search.{Search};
ghost use Rattle.pg_files.specs.Given.{nothing_given};
ghost use Rattle.pg_run.specs.Outcome.{IsSearchFor, RunFinishes};
ghost use Rattle.pg_search.specs.Outcome.{SearchBreaksOff};

use crate::fault::SearchFault;
use crate::gate::Gate;
use crate::gated::GatedQuery;
use pg_base::Sink;
use pg_files::Files;
use pg_lines::Query;
use pg_run::Setup;
use pg_selection::QueryText;
use std::alloc::Allocator;
use std::sync::{Arc, Wait};
use std::thread::Threads;
use std::time::Clock;

/// Searches files one after the other, as far as that is needed, and writes what the setup's format asks for to `out`.
/// Unless the setup is silent, `faults` gets a line for each name that gives no file and each file whose reading
/// failed, at once; the others go on. The answer is the exit status: 0 where a line was selected, 1 where none was, and
/// 2 where a name was missed or a reading failed; but with -q 0 where a line was selected. Nothing was asked of the
/// files yet, and at the end all that they list was given, or with -q a line was selected.
///
/// A file isn't read further, and with -q no further one is asked for, once nothing that stands behind
/// changes what is written. Not more of a file is held than two rounds of blocks and what one read gives.
///
/// The gate is told of each search of a block, before and after it, by whoever searches. A block that isn't searched
/// in a round is the first of its own.
///
/// # Errors
///
/// `Query` where a pattern is no expression or all ask for too many states; then nothing was asked for or written.
/// `Run` where the run broke off, by the faults of [`pg_run::run`], or `OutOfMemory` where a request for memory was
/// refused before it. Where the fault isn't `Sink`, no write failed. `out` and `faults` got beginnings of what they
/// would have got; at `TooLong` and `TooManyFiles` `out` got all of the output of the files before the one that is at
/// fault, and `faults` all lines.
pub fn run<
    R: Threads + Wait + Clock + Sync,
    A: Allocator + Copy + Send + Sync,
    F: Files<Alloc = A>,
    W: Sink,
    E: Sink,
    G: Gate + Sync,
>(
    rt: &R,
    alloc: A,
    text: QueryText<A>,
    setup: Setup,
    files: &mut F,
    out: &mut W,
    faults: &mut E,
    gate: &G,
) -> Result<u8, SearchFault>
    requires { F.past files.old ≡ nothing_given }
    ensures ok { IfOk result (λ status. (q : Search) × IsSearchFor text q
        × RunFinishes q setup (F.finds (F.list files.new)) (F.past files.new) (W.stream out.old)
        (W.stream out.new) (E.stream faults.old) (E.stream faults.new) status) }
    ensures err { IfErr result (SearchBreaksOff text setup (F.past files.new) (W.stream out.old)
        (W.stream out.new) (E.stream faults.old) (E.stream faults.new)) }
    ensures same_list { F.list files.new ≡ F.list files.old }
{
    let query = Query::compile(alloc, text)?;
    let selector = Arc::try_clone(query.selector())?;
    let gated = GatedQuery {
        alloc,
        query: &query,
        gate,
    };
    let status = pg_run::run(rt, alloc, &gated, selector, setup, files, out, faults)?;
    Ok(status)
}
