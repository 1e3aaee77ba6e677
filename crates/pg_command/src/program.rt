//! The command, over any files and streams.
ghost use Rattle.std.specs.Prelude.{◌≡◌, ◌≤◌, [], map, IfOk, IfErr, OnErr, IsErr};
ghost use Rattle.std.specs.String.{string_bytes};
ghost use Rattle.pg_command.specs.Command.{Commands, IsShown, RunsCommand, TellsOfWords, unwritten};
ghost use Rattle.pg_report.specs.Told.{TellsFault};

use crate::search::{ToldFault, answer};
use pg_base::{Out, Sink, write_all};
use pg_files::{OperandFiles, Store};
use pg_report::{FAULT_STATUS, report, tell_parts};
use pg_request::{Call, Fault, request_on};
use pg_walk::Prefetch;
use pg_words::{HELP, Task, VERSION, Words, WordsFault, read_words};
use std::alloc::Global;
use std::io::Write;
use std::sync::Wait;
use std::thread::Threads;
use std::time::Clock;

/// Does what the words of a call ask for, as [`read_words`] has it: a search, as [`answer`] has it, or a text about the
/// program. The call says whether standard output is a terminal, which decides --color=auto. The answer is the status.
/// Nothing was asked of `files` yet.
///
/// # Errors
///
/// `ToldFault` where a fault ended it, whose line went to `err`; the words are looked at first.
pub fn command<
    't,
    R: Threads + Wait + Clock + Sync,
    T: Prefetch<Helper: Send + Sync> + Send + Sync,
    S: Store<Alloc = Global> + Drop,
    W: Sink,
    E: Sink,
>(
    rt: &R,
    alloc: Global,
    call: &Call,
    tree: &'t T,
    files: &mut OperandFiles<'t, T, S>,
    out: &mut W,
    err: &mut E,
) -> Result<u8, ToldFault>
    requires { files.old.walk.asked.items ≡ [] }
    ensures commands { Commands (T.tells tree.now) (T.answers tree.now) call.now.terminal
        (map string_bytes call.now.words.items) (S.past files.old.store) (S.past files.new.store)
        (W.stream out.old) (W.stream out.new) (E.stream err.old) (E.stream err.new) result }
    ensures small { IfOk result (λ status. status ≤ 2) }
{
    let Ok(joined) = Words::new(alloc, call.words.as_slice()) else {
        return refuse(alloc, WordsFault::OutOfMemory, err);
    };
    match read_words(alloc, &joined) {
        Ok(Task::Search(request)) => {
            let request = request_on(request, call.terminal);
            answer(rt, alloc, &request, tree, files, out, err)
        }
        Ok(Task::Help) => show(alloc, HELP, out, err),
        Ok(Task::Version) => show(alloc, VERSION, out, err),
        Err(fault) => refuse(alloc, fault, err),
    }
}

/// Tells why the words aren't taken. The answer is always `ToldFault`.
fn refuse<E: Sink>(alloc: Global, fault: WordsFault, err: &mut E) -> Result<u8, ToldFault>
    ensures fault { IsErr result }
    ensures told { TellsOfWords fault (E.stream err.old) (E.stream err.new) }
{
    match fault {
        WordsFault::Refused(text) => {
            tell_parts(alloc, &[b"pargrep: ", text.as_bytes()], err);
        }
        WordsFault::Usage(fault) => {
            report(alloc, Fault::Usage(fault), err);
        }
        WordsFault::OutOfMemory => {
            report(alloc, Fault::OutOfMemory, err);
        }
    }
    Err(ToldFault)
}

/// Writes a text that was asked for.
fn show<W: Sink, E: Sink>(
    alloc: Global,
    text: &str,
    out: &mut W,
    err: &mut E,
) -> Result<u8, ToldFault>
    ensures { IsShown text.now (W.stream out.old) (W.stream out.new) (E.stream err.old)
        (E.stream err.new) result }
{
    if write_all(out, text.as_bytes()).is_err() {
        report(alloc, Fault::WriteFailed, err);
        return Err(ToldFault);
    }
    Ok(0)
}

/// Runs the command over the words of a call, or tells why the words couldn't be read. Nothing was asked of `files`
/// yet, none of them was opened, and `out` and `err` took nothing. The answer is the exit status of the program: that
/// of the command, or 2 where a fault was told, where there are no words, or where what standard output held back can't
/// be sent on, which is part of success.
pub fn run<
    't,
    R: Threads + Wait + Clock + Sync,
    T: Prefetch<Helper: Send + Sync> + Send + Sync,
    S: Store<Alloc = Global> + Drop,
    W: Write,
    E: Sink,
>(
    rt: &R,
    alloc: Global,
    call: Result<Call, Fault<'_>>,
    tree: &'t T,
    files: &mut OperandFiles<'t, T, S>,
    out: &mut Out<W>,
    err: &mut E,
) -> u8
    requires fresh { files.old.walk.asked.items ≡ [] }
    requires unopened { S.past files.old.store ≡ [] }
    requires unwritten { (out.old.stream ≡ unwritten) × (E.stream err.old ≡ unwritten) }
    ensures runs { IfOk call.entry (λ called. RunsCommand (T.tells tree.now) (T.answers tree.now) called.terminal
        (map string_bytes called.words.items) (S.past files.old.store) (S.past files.new.store)
        out.old.stream out.new.stream (E.stream err.old) (E.stream err.new) result) }
    ensures told { IfErr call.entry (λ fault. (result ≡ 2) × TellsFault fault (E.stream err.old)
        (E.stream err.new)) }
    ensures unused { OnErr call.entry ((files.new ≡ files.old) × (out.new ≡ out.old)) }
    ensures small { result ≤ 2 }
{
    match call {
        Ok(call) => run_call(rt, alloc, &call, tree, files, out, err),
        Err(fault) => report(alloc, fault, err),
    }
}

/// Runs the command and sends on what standard output holds back. Nothing was asked of `files` yet. The
/// answer is the exit status.
fn run_call<
    't,
    R: Threads + Wait + Clock + Sync,
    T: Prefetch<Helper: Send + Sync> + Send + Sync,
    S: Store<Alloc = Global> + Drop,
    W: Write,
    E: Sink,
>(
    rt: &R,
    alloc: Global,
    call: &Call,
    tree: &'t T,
    files: &mut OperandFiles<'t, T, S>,
    out: &mut Out<W>,
    err: &mut E,
) -> u8
    requires { files.old.walk.asked.items ≡ [] }
    ensures runs { RunsCommand (T.tells tree.now) (T.answers tree.now) call.now.terminal
        (map string_bytes call.now.words.items) (S.past files.old.store) (S.past files.new.store)
        out.old.stream out.new.stream (E.stream err.old) (E.stream err.new) result }
    ensures small { result ≤ 2 }
{
    let answer = command(rt, alloc, call, tree, files, out, err);
    let flushed = out.flush();
    match answer {
        Ok(_) if flushed.is_err() => report(alloc, Fault::WriteFailed, err),
        Ok(status) => status,
        Err(ToldFault) => FAULT_STATUS,
    }
}
