//! The run over all files.
ghost use Rattle.std.specs.Prelude.{◌≡◌, ◌-◌, ◌^◌, ◌<◌, ◌∷◌, List, [], not, false};
ghost use Rattle.std.specs.Prelude.{IfOk, MatchResult, OnOk, IfErr, OnErr};
ghost use Rattle.std.specs.Arc.{arc_value};
ghost use Rattle.pg_selection.specs.Search.{Search};
ghost use Rattle.pg_base.specs.Entries.{Left};
ghost use Rattle.pg_rows.specs.Output.{when};
ghost use Rattle.pg_base.specs.Sink.{Stream, WritesText};
ghost use Rattle.pg_files.specs.Given.{FileOutcome, NoFile, File, nothing_given};
ghost use Rattle.pg_base.specs.Causes.{fault_line};
ghost use Rattle.pg_run.specs.Outcome.{IsSearchFor, RunFinishes, BreaksOff};
ghost use Rattle.pg_run.specs.Searches.{FindsLines};
ghost use Rattle.pg_run.specs.Holding.{Aim};
ghost use Rattle.pg_run.specs.Reading.{AwaitsMore, IsInsideFile, IsBetweenFiles, HasToldAll, HasToldSome};
ghost use Rattle.pg_run.specs.Reading.{BreaksOffBehind, GaveFile, GaveOneAtMost, GivesNext, IsDone, TellsOn};
ghost use Rattle.pg_reader.specs.Reads.{OnlyReadsOn};
ghost use Rattle.pg_run.specs.declared.fault.RunFault.TheVariants.{Sink as SinkFailed};

use crate::engine::{Engine, is_endless};
use crate::fault::RunFault;
use crate::reading::read_file;
use crate::setup::Setup;
use pg_base::{Cause, Sink, WriteError, tell_cause};
use pg_files::{Files, Step};
use pg_reader::FileReader;
use pg_round::BlockSearch;
use pg_selection::Selector;
use std::alloc::{AllocError, Allocator};
use std::sync::{Arc, Wait};
use std::thread::Threads;
use std::time::Clock;

/// How many files get a number.
const MOST_FILES: u32 = u32::MAX;

/// Tells why a name gives no file, or that its reading failed, unless the run is silent.
fn tell_fault<A: Allocator + Copy, E: Sink>(
    alloc: A,
    silent: bool,
    name: &[u8],
    cause: Cause,
    faults: &mut E,
) -> Result<(), RunFault>
    ensures writes { WritesText (when (not silent) (fault_line name.now cause))
        (E.stream faults.old) (E.stream faults.new) result }
    ensures fault { IfErr result (λ fault. fault ≡ SinkFailed) }
{
    if silent {
        return Ok(());
    }
    match tell_cause(alloc, name, cause, faults) {
        Ok(()) => Ok(()),
        Err(WriteError) => Err(RunFault::Sink),
    }
}

/// Tells and notes a name that gives no file. The rows of the files before it are sent on before it is told.
fn miss<
    R: Threads + Wait + Clock + Sync,
    A: Allocator + Copy + Send + Sync,
    Q: BlockSearch<Alloc = A, Scratch: Send> + Sync,
    W: Sink,
    E: Sink,
>(
    rt: &R,
    engine: &mut Engine<'_, A, Q>,
    name: &[u8],
    cause: Cause,
    out: &mut W,
    faults: &mut E,
) -> Result<(), RunFault>
    requires { (given : List FileOutcome) × HasToldSome engine.old given (W.stream out.old) (E.stream faults.old) }
    ensures { (given : List FileOutcome) → TellsOn engine.old engine.new given (NoFile name.now cause ∷ given)
        (W.stream out.old) (W.stream out.new) (E.stream faults.old) (E.stream faults.new) result }
{
    let tells = !engine.setup.silent;
    engine.send_rows(rt, tells, out)?;
    tell_fault(engine.alloc, engine.setup.silent, name, cause, faults)?;
    engine.miss(name)?;
    Ok(())
}

/// Begins with a file that was just given. At most 2^32 - 2 files were opened before.
fn open_file<A: Allocator + Copy, Q: BlockSearch<Alloc = A>>(
    engine: &mut Engine<'_, A, Q>,
    reader: &mut FileReader<A>,
    name: &[u8],
) -> Result<(), AllocError>
    requires few { engine.old.files < 2 ^ 32 - 1 }
    requires between { (aim : Aim) × (given : List FileOutcome) × (out : Stream)
        × IsBetweenFiles engine.old aim given out }
    ensures awaits { OnOk result (AwaitsMore reader.new) }
    ensures ok { (aim : Aim) → (given : List FileOutcome) → (out : Stream) → IsBetweenFiles engine.old aim given out →
        OnOk result (IsInsideFile reader.new engine.new aim (File name.now [] Left ∷ given) out) }
{
    let cutter = engine.open(name)?;
    reader.open(cutter);
    Ok(())
}

/// Reads and searches a file that was just given, and tells where its reading failed.
fn one_file<
    R: Threads + Wait + Clock + Sync,
    A: Allocator + Copy + Send + Sync,
    Q: BlockSearch<Alloc = A, Scratch: Send> + Sync,
    F: Files<Alloc = A>,
    W: Sink,
    E: Sink,
>(
    rt: &R,
    engine: &mut Engine<'_, A, Q>,
    files: &mut F,
    reader: &mut FileReader<A>,
    out: &mut W,
    faults: &mut E,
) -> Result<(), RunFault>
    requires rests { (given : List FileOutcome) × GaveFile given (F.past files.old).given
        × HasToldSome engine.old given (W.stream out.old) (E.stream faults.old) }
    ensures reads_on { OnlyReadsOn F.past F.list files.old files.new }
    ensures outcome { (given : List FileOutcome) → GaveFile given (F.past files.old).given →
        TellsOn engine.old engine.new given (F.past files.new).given
        (W.stream out.old) (W.stream out.new) (E.stream faults.old) (E.stream faults.new) result }
{
    if engine.files >= MOST_FILES {
        return Err(engine.break_off(rt, RunFault::TooManyFiles, out));
    }
    open_file(engine, reader, files.name())?;
    let failed = read_file(rt, reader, engine, files, out)?;
    if failed {
        let silent = engine.setup.silent;
        tell_fault(
            engine.alloc,
            silent,
            files.name(),
            Cause::ReadFailed,
            faults,
        )?;
    }
    Ok(())
}

/// Takes what comes next. `false` says that there is no more.
fn take_next<
    R: Threads + Wait + Clock + Sync,
    A: Allocator + Copy + Send + Sync,
    Q: BlockSearch<Alloc = A, Scratch: Send> + Sync,
    F: Files<Alloc = A>,
    W: Sink,
    E: Sink,
>(
    rt: &R,
    engine: &mut Engine<'_, A, Q>,
    files: &mut F,
    reader: &mut FileReader<A>,
    out: &mut W,
    faults: &mut E,
) -> Result<bool, RunFault>
    requires done { (F.past files.old).done ≡ false }
    requires rests { HasToldSome engine.old (F.past files.old).given (W.stream out.old) (E.stream faults.old) }
    ensures goes { IfOk result (GivesNext (F.finds (F.list files.new)) (F.past files.old) (F.past files.new)) }
    ensures went { OnErr result (GaveOneAtMost (F.past files.old).given (F.past files.new).given) }
    ensures same_list { F.list files.new ≡ F.list files.old }
    ensures outcome { TellsOn engine.old engine.new (F.past files.old).given (F.past files.new).given
        (W.stream out.old) (W.stream out.new) (E.stream faults.old) (E.stream faults.new) result }
{
    match files.next()? {
        Step::Done => Ok(false),
        Step::Miss(cause) => {
            miss(rt, engine, files.name(), cause, out, faults)?;
            Ok(true)
        }
        Step::File => {
            one_file(rt, engine, files, reader, out, faults)?;
            Ok(true)
        }
    }
}

/// Takes all files, or with -q those up to the first one with a selected line.
fn all_files<
    R: Threads + Wait + Clock + Sync,
    A: Allocator + Copy + Send + Sync,
    Q: BlockSearch<Alloc = A, Scratch: Send> + Sync,
    F: Files<Alloc = A>,
    W: Sink,
    E: Sink,
>(
    rt: &R,
    engine: &mut Engine<'_, A, Q>,
    files: &mut F,
    reader: &mut FileReader<A>,
    out: &mut W,
    faults: &mut E,
) -> Result<(), RunFault>
    requires new { F.past files.old ≡ nothing_given }
    requires rests { HasToldSome engine.old [] (W.stream out.old) (E.stream faults.old) }
    ensures same_list { F.list files.new ≡ F.list files.old }
    ensures outcome { (aim : Aim) → HasToldAll engine.old aim [] (W.stream out.old) (E.stream faults.old) →
        MatchResult result (λ _. IsDone engine.new aim (F.finds (F.list files.new)) (F.past files.new)
        (W.stream out.new) (E.stream faults.new))
        (BreaksOffBehind aim (F.past files.new).given (W.stream out.new) (E.stream faults.new)) }
{
    for _ in rt.forever() {
        if engine.enough() {
            return Ok(());
        }
        if !take_next(rt, engine, files, reader, out, faults)? {
            return Ok(());
        }
    }
    unreachable!()
}

/// The most bytes that are taken at once of a file that is in memory already: all, but where what was read may be
/// enough no more than a block, which is searched before more is looked at.
fn most_taken(setup: &Setup) -> usize {
    if is_endless(setup.format) {
        usize::MAX
    } else {
        setup.block as usize
    }
}

/// Takes all files with a reader of their own, and answers the status.
fn search_files<
    R: Threads + Wait + Clock + Sync,
    A: Allocator + Copy + Send + Sync,
    Q: BlockSearch<Alloc = A, Scratch: Send> + Sync,
    F: Files<Alloc = A>,
    W: Sink,
    E: Sink,
>(
    rt: &R,
    engine: &mut Engine<'_, A, Q>,
    files: &mut F,
    out: &mut W,
    faults: &mut E,
) -> Result<u8, RunFault>
    requires new { F.past files.old ≡ nothing_given }
    requires rests { HasToldSome engine.old [] (W.stream out.old) (E.stream faults.old) }
    ensures same_list { F.list files.new ≡ F.list files.old }
    ensures outcome { (aim : Aim) → HasToldAll engine.old aim [] (W.stream out.old) (E.stream faults.old) →
        MatchResult result (RunFinishes aim.query aim.setup (F.finds (F.list files.new)) (F.past files.new)
        aim.out (W.stream out.new) aim.told (E.stream faults.new))
        (BreaksOffBehind aim (F.past files.new).given (W.stream out.new) (E.stream faults.new)) }
{
    let most = most_taken(&engine.setup);
    let mut reader = FileReader::new(engine.alloc, engine.setup.block, most);
    all_files(rt, engine, files, &mut reader, out, faults)?;
    let status = engine.finish(rt, out)?;
    Ok(status)
}

/// Searches files one after the other, as far as that is needed, and writes what the setup's format asks for to `out`:
/// of the lines that the selector selects, which the query finds in each block whose lines have at most 2^30 bytes.
/// Unless the setup is silent, `faults` gets a line for each name that gives no file and each file whose reading
/// failed, at once; the others go on. The answer is the exit status: 0 where a line was selected, 1 where none was, and
/// 2 where a name was missed or a reading failed; but with -q 0 where a line was selected. Nothing was asked of the
/// files yet, and at the end all that they list was given, or with -q a line was selected.
///
/// A file isn't read further, and with -q no further one is asked for, once nothing that stands behind
/// changes what is written. Not more of a file is held than two rounds of blocks and what one read gives.
///
/// # Errors
///
/// `Sink` where a write failed or took no byte, `TooLong` where a line is longer than the setup allows or a file has
/// more than 2^62 bytes, `TooManyFiles` at the 2^32nd file, and `OutOfMemory` where a request for memory was refused.
/// Where the fault isn't `Sink`, no write failed. `out` and `faults` got beginnings of what they would have got; at
/// `TooLong` and `TooManyFiles` `out` got all of the output of the files before the one that is at fault, and `faults`
/// all lines.
pub fn run<
    R: Threads + Wait + Clock + Sync,
    A: Allocator + Copy + Send + Sync,
    Q: BlockSearch<Alloc = A, Scratch: Send> + Sync,
    F: Files<Alloc = A>,
    W: Sink,
    E: Sink,
>(
    rt: &R,
    alloc: A,
    query: &Q,
    selector: Arc<Selector<A>, A>,
    setup: Setup,
    files: &mut F,
    out: &mut W,
    faults: &mut E,
) -> Result<u8, RunFault>
    requires new { F.past files.old ≡ nothing_given }
    requires finds { FindsLines (Q.seen query.now) (arc_value selector) }
    ensures outcome { (q : Search) → IsSearchFor (arc_value selector) q → MatchResult result
        (RunFinishes q setup (F.finds (F.list files.new)) (F.past files.new) (W.stream out.old) (W.stream out.new)
        (E.stream faults.old) (E.stream faults.new))
        (BreaksOff q setup (F.past files.new).given (W.stream out.old) (W.stream out.new) (E.stream faults.old)
        (E.stream faults.new)) }
    ensures same_list { F.list files.new ≡ F.list files.old }
{
    let mut engine = Engine::new(alloc, query, selector, setup)?;
    search_files(rt, &mut engine, files, out, faults)
}
