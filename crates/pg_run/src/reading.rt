//! Reads one file, as far as that is needed.
ghost use Rattle.std.specs.Prelude.{◌≡◌, List, IfOk, MatchResult, OnOk};
ghost use Rattle.pg_blocks.specs.Cutter.{IsDrained};
ghost use Rattle.pg_files.specs.Given.{FileOutcome};
ghost use Rattle.pg_base.specs.Sink.{Stream};
ghost use Rattle.pg_run.specs.Told.{AddsFailure};
ghost use Rattle.pg_run.specs.Holding.{Aim, HasRoomInRound};
ghost use Rattle.pg_run.specs.Reading.{AwaitsLast, AwaitsMore, IsAtLastBlock, IsInSomeFile, IsReadingSomeFile};
ghost use Rattle.pg_run.specs.Reading.{BreaksOffInFile, EndsFile, IsInsideFile, MayEndFile, StaysInFile};
ghost use Rattle.pg_reader.specs.Reads.{OnlyReadsOn};
ghost use Rattle.pg_reader.specs.declared.file_reader.ReadOutcome.TheVariants.{More};

use crate::engine::{Engine, is_endless};
use crate::fault::RunFault;
use pg_base::Sink;
use pg_files::Files;
use pg_reader::{FileReader, ReadOutcome};
use pg_round::BlockSearch;
use std::alloc::Allocator;
use std::sync::Wait;
use std::thread::Threads;
use std::time::Clock;

/// Makes room for a block: searches a round that is full. Where several threads do, the file is read on meanwhile,
/// unless a read of it may wait.
fn make_room<
    R: Threads + Wait + Clock + Sync,
    A: Allocator + Copy + Send + Sync,
    Q: BlockSearch<Alloc = A, Scratch: Send> + Sync,
    F: Files<Alloc = A>,
    W: Sink,
>(
    rt: &R,
    reader: &mut FileReader<A>,
    engine: &mut Engine<'_, A, Q>,
    files: &mut F,
    out: &mut W,
) -> Result<(), RunFault>
    requires in_file { IsInSomeFile reader.old engine.old (F.past files.old).given (W.stream out.old) }
    ensures reads_on { OnlyReadsOn F.past F.list files.old files.new }
    ensures room { OnOk result (HasRoomInRound engine.new) }
    ensures outcome { StaysInFile reader.old reader.new engine.old engine.new
        (F.past files.old).given (F.past files.new).given (W.stream out.old) (W.stream out.new) result }
{
    if !engine.is_full() {
        return Ok(());
    }
    let reads = if files.may_wait() {
        0
    } else {
        engine.reads_ahead()
    };
    reader.read_ahead(reads);
    engine.search_round(rt, reader, files, out)
}

/// Searches the blocks that are cut, and where each row is to be seen at once, has their rows sent on. There is room
/// for one more then.
fn search_ready<
    R: Threads + Wait + Clock + Sync,
    A: Allocator + Copy + Send + Sync,
    Q: BlockSearch<Alloc = A, Scratch: Send> + Sync,
    F: Files<Alloc = A>,
    W: Sink,
>(
    rt: &R,
    reader: &mut FileReader<A>,
    engine: &mut Engine<'_, A, Q>,
    files: &mut F,
    out: &mut W,
) -> Result<(), RunFault>
    requires in_file { IsInSomeFile reader.old engine.old (F.past files.old).given (W.stream out.old) }
    ensures reads_on { OnlyReadsOn F.past F.list files.old files.new }
    ensures taken { OnOk result (AwaitsLast reader.new engine.new) }
    ensures outcome { StaysInFile reader.old reader.new engine.old engine.new
        (F.past files.old).given (F.past files.new).given (W.stream out.old) (W.stream out.new) result }
{
    for _ in rt.forever() {
        make_room(rt, reader, engine, files, out)?;
        let Some(block) = reader.take() else {
            return Ok(());
        };
        engine.search(rt, block, out)?;
        engine.send_on(engine.setup.line_buffered, out)?;
    }
    unreachable!()
}

/// Searches the whole lines that came and are in no block yet.
fn search_lines<
    R: Threads + Wait + Clock + Sync,
    A: Allocator + Copy + Send + Sync,
    Q: BlockSearch<Alloc = A, Scratch: Send> + Sync,
    W: Sink,
>(
    rt: &R,
    reader: &mut FileReader<A>,
    engine: &mut Engine<'_, A, Q>,
    out: &mut W,
) -> Result<(), RunFault>
    requires in_file { IsReadingSomeFile reader.old engine.old (W.stream out.old) }
    ensures came { reader.new.came ≡ reader.old.came }
    ensures drained { IsDrained reader.new.cutter }
    ensures outcome { (given : List FileOutcome) → StaysInFile reader.old reader.new engine.old engine.new
        given given (W.stream out.old) (W.stream out.new) result }
{
    engine.make_room(rt, out)?;
    match reader.take_lines() {
        Some(lines) => engine.search(rt, lines, out),
        None => Ok(()),
    }
}

/// Whether what came of the open file is to be searched before the next read, though it fills no block: where that read
/// may wait, or may find a small file's end alone, and lines that came may be enough.
fn is_due<A: Allocator + Copy, Q: BlockSearch<Alloc = A>, F: Files<Alloc = A>>(
    reader: &FileReader<A>,
    engine: &Engine<'_, A, Q>,
    files: &F,
) -> bool {
    files.may_wait() || reader.has_read_once() && !is_endless(engine.setup.format)
}

/// Searches all that came, where that is due and enough wasn't read. Where the next read of the open file may wait, the
/// rows are sent on.
fn settle<
    R: Threads + Wait + Clock + Sync,
    A: Allocator + Copy + Send + Sync,
    Q: BlockSearch<Alloc = A, Scratch: Send> + Sync,
    F: Files<Alloc = A>,
    W: Sink,
>(
    rt: &R,
    reader: &mut FileReader<A>,
    engine: &mut Engine<'_, A, Q>,
    files: &F,
    out: &mut W,
) -> Result<(), RunFault>
    requires in_file { IsReadingSomeFile reader.old engine.old (W.stream out.old) }
    ensures came { reader.new.came ≡ reader.old.came }
    ensures outcome { (given : List FileOutcome) → StaysInFile reader.old reader.new engine.old engine.new
        given given (W.stream out.old) (W.stream out.new) result }
{
    if engine.enough() || !is_due(reader, engine, files) {
        return Ok(());
    }
    search_lines(rt, reader, engine, out)?;
    engine.flush_waiting(rt, out)?;
    engine.send_on(files.may_wait(), out)?;
    Ok(())
}

/// Gives the memory of the block that was searched last back to the reader, and has the engine decide how it searches
/// the next ones.
fn recycle<A: Allocator + Copy, Q: BlockSearch<Alloc = A>>(
    reader: &mut FileReader<A>,
    engine: &mut Engine<'_, A, Q>,
)
    ensures came { reader.new.came ≡ reader.old.came }
    ensures in_file { (aim : Aim) → (given : List FileOutcome) → (out : Stream) →
        IsInsideFile reader.old engine.old aim given out → IsInsideFile reader.new engine.new aim given out }
{
    reader.give_back(engine.take_spare());
    engine.choose();
}

/// Reads once, and searches the blocks that this finishes.
fn read_once<
    R: Threads + Wait + Clock + Sync,
    A: Allocator + Copy + Send + Sync,
    Q: BlockSearch<Alloc = A, Scratch: Send> + Sync,
    F: Files<Alloc = A>,
    W: Sink,
>(
    rt: &R,
    reader: &mut FileReader<A>,
    engine: &mut Engine<'_, A, Q>,
    files: &mut F,
    out: &mut W,
) -> Result<(), RunFault>
    requires more { reader.old.came ≡ More }
    requires in_file { IsInSomeFile reader.old engine.old (F.past files.old).given (W.stream out.old) }
    ensures reads_on { OnlyReadsOn F.past F.list files.old files.new }
    ensures taken { OnOk result (AwaitsLast reader.new engine.new) }
    ensures outcome { StaysInFile reader.old reader.new engine.old engine.new
        (F.past files.old).given (F.past files.new).given (W.stream out.old) (W.stream out.new) result }
{
    recycle(reader, engine);
    reader.read(files);
    search_ready(rt, reader, engine, files, out)?;
    Ok(())
}

/// Searches what is left once the file can't go on.
fn search_last<R: Clock, A: Allocator + Copy, Q: BlockSearch<Alloc = A>, W: Sink>(
    rt: &R,
    reader: &mut FileReader<A>,
    engine: &mut Engine<'_, A, Q>,
    failed: bool,
    out: &mut W,
) -> Result<(), RunFault>
    requires last { IsAtLastBlock reader.old engine.old failed (W.stream out.old) }
    ensures { (aim : Aim) → (given : List FileOutcome) →
        IsInsideFile reader.old engine.old aim given (W.stream out.old) →
        MatchResult result (λ _. MayEndFile engine.new aim failed given (W.stream out.new))
        (BreaksOffInFile aim given (W.stream out.new)) }
{
    match reader.finish() {
        Some(block) => engine.search(rt, block, out),
        None => Ok(()),
    }
}

/// Ends the open file, and answers whether a read of it failed. What it gives is written, unless blocks wait for their
/// round. It is sent on where each row is to be seen at once; and before a failed read is told all rows are, of blocks
/// that wait too.
fn end_file<
    R: Threads + Wait + Clock + Sync,
    A: Allocator + Copy + Send + Sync,
    Q: BlockSearch<Alloc = A, Scratch: Send> + Sync,
    W: Sink,
>(rt: &R, engine: &mut Engine<'_, A, Q>, failed: bool, out: &mut W) -> Result<bool, RunFault>
    requires may_end { (aim : Aim) × (given : List FileOutcome) × MayEndFile engine.old aim failed given
        (W.stream out.old) }
    ensures failed { IfOk result (λ answer. answer ≡ failed) }
    ensures outcome { (aim : Aim) → (given : List FileOutcome) →
        MayEndFile engine.old aim failed given (W.stream out.old) →
        EndsFile engine.new aim given (W.stream out.new) result }
{
    engine.end(failed);
    engine.flush_ended(rt, out)?;
    let tells = failed && !engine.setup.silent;
    engine.send_rows(rt, tells, out)?;
    engine.send_on(engine.setup.line_buffered, out)?;
    Ok(failed)
}

/// Searches what is left of a file that can't go on, ends it, and answers whether a read of it failed.
fn finish_file<
    R: Threads + Wait + Clock + Sync,
    A: Allocator + Copy + Send + Sync,
    Q: BlockSearch<Alloc = A, Scratch: Send> + Sync,
    W: Sink,
>(
    rt: &R,
    reader: &mut FileReader<A>,
    engine: &mut Engine<'_, A, Q>,
    failed: bool,
    out: &mut W,
) -> Result<bool, RunFault>
    requires last { IsAtLastBlock reader.old engine.old failed (W.stream out.old) }
    ensures failed { IfOk result (λ answer. answer ≡ failed) }
    ensures outcome { (aim : Aim) → (given : List FileOutcome) →
        IsInsideFile reader.old engine.old aim given (W.stream out.old) →
        EndsFile engine.new aim given (W.stream out.new) result }
{
    search_last(rt, reader, engine, failed, out)?;
    end_file(rt, engine, failed, out)
}

/// Reads the open file until enough was read, its end is met or a read fails, and ends it. What came is searched before
/// a read that may wait. The answer says whether a read failed.
pub(crate) fn read_file<
    R: Threads + Wait + Clock + Sync,
    A: Allocator + Copy + Send + Sync,
    Q: BlockSearch<Alloc = A, Scratch: Send> + Sync,
    F: Files<Alloc = A>,
    W: Sink,
>(
    rt: &R,
    reader: &mut FileReader<A>,
    engine: &mut Engine<'_, A, Q>,
    files: &mut F,
    out: &mut W,
) -> Result<bool, RunFault>
    requires awaits { AwaitsMore reader.old }
    requires in_file { IsInSomeFile reader.old engine.old (F.past files.old).given (W.stream out.old) }
    ensures reads_on { OnlyReadsOn F.past F.list files.old files.new }
    ensures told { IfOk result (AddsFailure (F.past files.old).given (F.past files.new).given) }
    ensures outcome { (aim : Aim) →
        IsInsideFile reader.old engine.old aim (F.past files.old).given (W.stream out.old) →
        EndsFile engine.new aim (F.past files.new).given (W.stream out.new) result }
{
    for _ in rt.forever() {
        settle(rt, reader, engine, files, out)?;
        if engine.enough() {
            return end_file(rt, engine, false, out);
        }
        read_once(rt, reader, engine, files, out)?;
        match reader.came() {
            ReadOutcome::More => {}
            ReadOutcome::End => return finish_file(rt, reader, engine, false, out),
            ReadOutcome::Failure => return finish_file(rt, reader, engine, true, out),
            ReadOutcome::Refused(fault) => {
                let fault = RunFault::from(fault);
                return Err(engine.break_off(rt, fault, out));
            }
        }
    }
    unreachable!()
}
