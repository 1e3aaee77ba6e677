//! The workers of a round, beside the thread that takes what they put.
ghost use Rattle.std.specs.Prelude.{◌≡◌, ◌<◌, [], All, vec_len, IfErr, IfSome, IsSome};
ghost use Rattle.pg_selection.specs.Searched.{SearchedBlock};
ghost use Rattle.pg_workers.specs.Workers.{task_of, IsReady, HasFinished, AreBack};
ghost use Rattle.pg_round.specs.Receipts.{HasReceived, TakesResults};
ghost use Rattle.pg_round.specs.declared.fault.RoundFault.TheVariants.{Sink as SinkFailed};
ghost use Rattle.pg_reader.specs.Going.{HasGoneOn};

use crate::fault::RoundFault;
use crate::receiving::take_all;
use pg_base::Sink;
use pg_blocks::Block;
use pg_board::{TakePass, Tray};
use pg_plan::Collector;
use pg_reader::Reader;
use pg_selection::BlockResult;
use pg_workers::{BlockSearch, Round, Signs, Worker, run_workers};
use std::alloc::Allocator;
use std::sync::{Arc, Wait};
use std::thread::{Threads, join_mut};
use std::time::Clock;

/// Has the workers search, and meanwhile takes what they put and has the reader go on.
pub(crate) fn stream<
    R: Threads + Wait + Clock + Sync,
    A: Allocator + Copy + Send + Sync,
    S: Collector<BlockResult<A>>,
    W: Sink,
    D: Reader<F>,
    F,
    C: Drop + Send,
    Q: BlockSearch<Alloc = A, Scratch = C> + Sync,
>(
    rt: &R,
    alloc: A,
    round: &Round<'_, Q, A>,
    tray: &Tray<BlockResult<A>, A>,
    workers: Vec<Worker<A, C>, A>,
    take: &mut TakePass<BlockResult<A>, A>,
    collector: &mut S,
    out: &mut W,
    reader: &mut D,
    from: &mut F,
) -> (Vec<Worker<A, C>, A>, Result<(), RoundFault>)
    requires ready { IsReady (task_of Q.seen round.now) }
    requires finished { All (HasFinished (task_of Q.seen round.now)) workers.items × (1 < vec_len workers) }
    requires sees { (found : SearchedBlock) → S.searched found ≡ found }
    requires take { (take.old.tray ≡ tray.now) × (take.old.taken ≡ []) }
    requires reader { D.ready reader.old from.old }
    ensures back { AreBack (task_of Q.seen round.now) workers.items result.0.items }
    ensures same { (take.new.tray ≡ tray.now) × (take.new.workers ≡ take.old.workers) }
    ensures took { TakesResults result.1 (S.stands collector.old) (HasReceived (S.stands collector.new) take.new.taken)
        (W.stream out.old) (W.stream out.new) }
    ensures fault { IfErr result.1 (λ fault. fault ≡ SinkFailed) }
    ensures read { HasGoneOn D.ready D.reaches reader.old from.old reader.new from.new }
{
    let signs = Signs::new();
    let told = &signs;
    let mut jobs = Some(workers);
    let mut taking = || -> Result<(), RoundFault>
        requires take { (take.now.tray ≡ tray.now) × (take.now.taken ≡ [])
            × ((found : SearchedBlock) → S.searched found ≡ found) }
        requires reader { D.ready reader.now from.now }
        ensures same { (take.exit.now.tray ≡ tray.entry.now)
            × (take.exit.now.workers ≡ take.entry.now.workers) }
        ensures took { TakesResults result (S.stands collector.entry.now) (HasReceived (S.stands collector.exit.now)
            take.exit.now.taken) (W.stream out.entry.now) (W.stream out.exit.now) }
        ensures fault { IfErr result (λ fault. fault ≡ SinkFailed) }
        ensures read { HasGoneOn D.ready D.reaches reader.entry.now from.entry.now reader.exit.now from.exit.now }
    { take_all(rt, tray, take, collector, out, reader, from, &signs) };
    let mut working = move || -> Vec<Worker<A, C>, A>
        requires jobs { IsSome jobs × IfSome jobs (λ workers.
            All (HasFinished (task_of Q.seen round.now)) workers.items × (1 < vec_len workers)) }
        requires ready { IsReady (task_of Q.seen round.now) }
        ensures { IfSome jobs.entry (λ workers. AreBack (task_of Q.seen round.entry.now) workers.items result.items) }
    {
        let Some(workers) = jobs.take() else {
            unreachable!()
        };
        run_workers(rt, alloc, *round, workers, told)
    };
    join_mut(rt, &mut working, &mut taking)
}
