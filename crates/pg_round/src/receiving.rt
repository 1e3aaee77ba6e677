//! What the calling thread does with the results of a round.
ghost use Rattle.std.specs.Prelude.{◌≡◌, ◌∷◌, [], IfErr};
ghost use Rattle.pg_selection.specs.Searched.{SearchedBlock};
ghost use Rattle.pg_reader.specs.Going.{HasGoneOn};
ghost use Rattle.pg_round.specs.Receipts.{HasDelivered, HasReceived, TakesResults};
ghost use Rattle.pg_round.specs.declared.fault.RoundFault.TheVariants.{Sink as SinkFailed};

use crate::fault::RoundFault;
use pg_base::Sink;
use pg_board::{TakePass, Tray, TrayRest};
use pg_plan::Collector;
use pg_reader::Reader;
use pg_selection::BlockResult;
use pg_workers::Signs;
use std::alloc::Allocator;
use std::sync::Wait;
use std::sync::atomic::Ordering;
use std::time::{Clock, Duration};
use std::{hint, thread};

/// How many looks at an empty tray follow one another at once.
const SPINS: u32 = 500;

/// How long, in microseconds, the calling thread sleeps between two later looks.
const PAUSE: u64 = 50;

/// After so many looks at an empty tray it is given up that the workers' thread begins.
const MOST_LOOKS: u32 = 5_000;

/// Waits a little before the next look at an empty tray, after so many looks.
fn pause<R: Clock>(rt: &R, looks: u32) {
    if looks < SPINS {
        hint::spin_loop();
    } else {
        thread::sleep(rt, Duration::from_micros(PAUSE));
    }
}

/// Whether nothing more is to be taken after so many looks: all workers have ended, or their thread doesn't begin.
fn is_over(signs: &Signs, ended: bool, looks: u32) -> bool {
    ended || (looks >= MOST_LOOKS && !signs.begun.load(Ordering::SeqCst))
}

/// Has the reader make a step, and pauses where it has nothing to do. Counts such looks.
fn read_on<R: Clock, D: Reader<F>, F>(rt: &R, reader: &mut D, from: &mut F, looks: u32) -> u32
    requires { D.ready reader.old from.old }
    ensures { HasGoneOn D.ready D.reaches reader.old from.old reader.new from.new }
{
    if reader.step(from) {
        return looks;
    }
    pause(rt, looks);
    looks.saturating_add(1)
}

/// Takes one result in, and writes what may be handed out.
fn receive<A: Allocator, S: Collector<BlockResult<A>>, W: Sink>(
    collector: &mut S,
    out: &mut W,
    found: BlockResult<A>,
) -> Result<(), RoundFault>
    requires sees { (found : SearchedBlock) → S.searched found ≡ found }
    ensures took { TakesResults result (S.stands collector.old) (HasReceived (S.stands collector.new) (found ∷ []))
        (W.stream out.old) (W.stream out.new) }
    ensures fault { IfErr result (λ fault. fault ≡ SinkFailed) }
{
    let _ = collector.arrive(found);
    collector.drain(out)?;
    Ok(())
}

/// Takes what lies on the tray, until all workers have ended and it is empty, or the workers' thread doesn't begin.
/// Where nothing lies there, the reader makes a step, and where it has nothing to do this pauses.
pub(crate) fn take_all<
    R: Wait + Clock,
    A: Allocator,
    S: Collector<BlockResult<A>>,
    W: Sink,
    D: Reader<F>,
    F,
>(
    rt: &R,
    tray: &Tray<BlockResult<A>, A>,
    take: &mut TakePass<BlockResult<A>, A>,
    collector: &mut S,
    out: &mut W,
    reader: &mut D,
    from: &mut F,
    signs: &Signs,
) -> Result<(), RoundFault>
    requires take { (take.old.tray ≡ tray.now) × (take.old.taken ≡ []) }
    requires sees { (found : SearchedBlock) → S.searched found ≡ found }
    requires reader { D.ready reader.old from.old }
    ensures same { (take.new.tray ≡ tray.now) × (take.new.workers ≡ take.old.workers) }
    ensures took { TakesResults result (S.stands collector.old) (HasReceived (S.stands collector.new) take.new.taken)
        (W.stream out.old) (W.stream out.new) }
    ensures fault { IfErr result (λ fault. fault ≡ SinkFailed) }
    ensures read { HasGoneOn D.ready D.reaches reader.old from.old reader.new from.new }
{
    let mut looks = 0u32;
    for _ in rt.forever() {
        let ended = signs.ended.load(Ordering::SeqCst);
        match tray.take(rt, take) {
            Some(found) => {
                receive(collector, out, found)?;
                looks = 0;
            }
            None => {
                if is_over(signs, ended, looks) {
                    return Ok(());
                }
                looks = read_on(rt, reader, from, looks);
            }
        }
    }
    unreachable!()
}

/// Takes in what was left on a tray, and writes all that may be handed out.
pub(crate) fn deliver<R: Wait, A: Allocator, S: Collector<BlockResult<A>>, W: Sink>(
    rt: &R,
    mut delivered: TrayRest<BlockResult<A>, A>,
    collector: &mut S,
    out: &mut W,
) -> Result<(), RoundFault>
    requires sees { (found : SearchedBlock) → S.searched found ≡ found }
    ensures took { TakesResults result (S.stands collector.old) (HasDelivered (S.stands collector.new) delivered.lists
        delivered.out) (W.stream out.old) (W.stream out.new) }
    ensures fault { IfErr result (λ fault. fault ≡ SinkFailed) }
{
    for _ in rt.forever() {
        match delivered.next(rt) {
            Some(found) => receive(collector, out, found)?,
            None => {
                collector.drain(out)?;
                return Ok(());
            }
        }
    }
    unreachable!()
}
