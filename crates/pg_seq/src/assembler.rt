//! How results are put in order, and what is known of it.
ghost use Rattle.std.specs.Prelude.{◌≡◌, ◌↔◌, true, false, IsTrue, IfOk, IsOk, ◌&&◌, if◌then◌else◌};
ghost use Rattle.std.specs.Arc.{arc_value};
ghost use Rattle.pg_rows.specs.Modes.{is_quiet};

use crate::ahead::Lookahead;
use crate::opening::Opening;
use crate::reorder_buffer::ReorderBuffer;
use pg_base::{Sink, WriteError};
use pg_blocks::Block;
use pg_plan::{Arrival, SinkFault};
use pg_rows::{Format, Mode, Prefix, Printer, Progress};
use pg_selection::{BlockResult, Selector};
use std::alloc::{AllocError, Allocator, Global};
use std::collections::VecDeque;
use std::sync::Arc;

/// The exit status of a run in which a name was missed or the reading of a file failed, and in which a
/// line was selected.
fn exit_status(mode: Mode, bad: bool, selected: bool) -> u8
    ensures { result ≡ (if is_quiet mode && selected then 0 else (if bad then 2 else (if selected then 0 else 1))) }
{
    if mode.is_quiet() && selected {
        return 0;
    }
    if bad {
        2
    } else if selected {
        0
    } else {
        1
    }
}

/// A sequencer, of which nothing is known but what the contracts of its methods tell. Those of `Sequencer` say what it
/// does.
pub(crate) struct Assembler<A: Allocator = Global> {
    alloc: A,
    selector: Arc<Selector<A>, A>,
    format: Format,
    /// A file of the plan is open.
    running: bool,
    /// A name was missed, or the reading of a file failed.
    bad: bool,
    buffer: ReorderBuffer<A>,
    /// The files of the plan that the printer hasn't opened yet, in their order.
    waiting: VecDeque<Opening<A>, A>,
    /// The printer has opened a file and not come to its end.
    printing: bool,
    printer: Printer<A>,
    /// A write has failed.
    failed: bool,
}

impl<A: Allocator> Drop for Assembler<A> {
    fn drop(self) {
        let Assembler {
            alloc: _,
            selector: _,
            format: _,
            running: _,
            bad: _,
            buffer: _,
            waiting: _,
            printing: _,
            printer: _,
            failed: _,
        } = self;
    }
}

impl<A: Allocator> Assembler<A> {
    ghost use Rattle.pg_rows.specs.Output.{HasRoom};
    ghost use Rattle.pg_plan.specs.Plan.{Opens, Announces, Ends, Misses};
    ghost use Rattle.pg_plan.specs.History.{Past, planned, arrived, answer, IsComplete};
    ghost use Rattle.pg_seq.specs.Standing.{IsAfter, HasPast, IsAtStart, MayPlan, PlansAtOk, PlansAtOkIfReady};
    ghost use Rattle.pg_seq.specs.Standing.{StaysAtErr, MayKeep, KeepsResult, Drains, TellsEnough, TellsStatus};
    ghost use Rattle.pg_seq.specs.Standing.{is_at_end, MayWrite, TakesOneStep, OpensNext};
    ghost use Rattle.pg_seq.specs.Ahead.{is_over, MayLookFurther, LooksOneFurther};

    /// One to which nothing happened.
    pub(crate) fn new(
        alloc: A,
        selector: Arc<Selector<A>, A>,
        format: Format,
    ) -> Result<Assembler<A>, AllocError>
    where
        A: Copy,
        requires { HasRoom format }
        ensures { IfOk result (IsAtStart (arc_value selector) format) }
    {
        let printer = Printer::new(alloc, &selector, format)?;
        Ok(Assembler {
            alloc,
            selector,
            format,
            running: false,
            bad: false,
            buffer: ReorderBuffer::new(alloc),
            waiting: VecDeque::new(alloc),
            printing: false,
            printer,
            failed: false,
        })
    }

    /// Opens a file. A refused request for memory is the only error, and changes nothing.
    pub(crate) fn open(&mut self, name: &[u8]) -> Result<(), AllocError>
    where
        A: Copy,
        requires { MayPlan self.old (Opens name.now) }
        ensures ok { PlansAtOk self.old self.new (Opens name.now) result }
        ensures err { StaysAtErr self.old self.new result }
    {
        let prefix = Prefix::new(self.alloc, name)?;
        self.waiting.reserve(1)?;
        let start = self.buffer.announced();
        self.buffer.open_file()?;
        self.waiting.push_back(Opening { start, prefix })?;
        self.running = true;
        Ok(())
    }

    /// Announces the open file's next block. A refused request for memory is the only error, and changes nothing.
    pub(crate) fn announce(&mut self, block: Arc<Block<A>, A>) -> Result<(), AllocError>
        requires { MayPlan self.old (Announces (arc_value block)) }
        ensures ok { PlansAtOkIfReady self.old self.new (Announces (arc_value block)) result }
        ensures err { StaysAtErr self.old self.new result }
    {
        self.buffer.push(block)
    }

    /// Ends the open file.
    pub(crate) fn end(&mut self, failed: bool)
        requires { MayPlan self.old (Ends failed) }
        ensures { (past : Past) → IsAfter self.old past → IsAfter self.new (planned past (Ends failed)) }
    {
        self.running = false;
        self.bad |= failed;
    }

    /// Notes a name that could not be opened or listed.
    ///
    /// Always `Ok`: nothing is kept, and no memory asked for.
    pub(crate) fn miss(&mut self, name: &[u8]) -> Result<(), AllocError>
        requires { MayPlan self.old (Misses name.now) }
        ensures ok { PlansAtOk self.old self.new (Misses name.now) result }
        ensures err { StaysAtErr self.old self.new result }
        ensures takes { IsOk result }
    {
        let _ = name;
        self.bad = true;
        Ok(())
    }

    /// Takes a result. Only `Taken` changes anything.
    pub(crate) fn arrive(&mut self, found: BlockResult<A>) -> Arrival
        ensures answer { (past : Past) → IsAfter self.old past → result ≡ answer past found }
        ensures stands { (past : Past) → IsAfter self.old past → IsAfter self.new (arrived past found) }
    {
        match self.arrival_of(&found) {
            Arrival::Taken => {
                self.buffer.put(found);
                Arrival::Taken
            }
            Arrival::Double => Arrival::Double,
            Arrival::Stranger => Arrival::Stranger,
        }
    }

    /// Takes a result that is the first of its block.
    pub(crate) fn keep(&mut self, found: BlockResult<A>)
        requires { MayKeep self.old found }
        ensures { KeepsResult self.old self.new found }
    {
        self.buffer.put(found);
    }

    /// What a result is.
    fn arrival_of(&self, found: &BlockResult<A>) -> Arrival
        ensures { (past : Past) → IsAfter self.now past → result ≡ answer past found.now }
    {
        let selector: &Selector<A> = &self.selector;
        let other: &Selector<A> = found.selector();
        if selector != other {
            return Arrival::Stranger;
        }
        self.buffer.arrival_of(found.block())
    }

    /// Writes all that may be handed out and was not yet written.
    pub(crate) fn drain<W: Sink>(&mut self, out: &mut W) -> Result<(), SinkFault>
        requires { HasPast self.old }
        ensures { Drains self.old self.new (W.stream out.old) (W.stream out.new) result }
    {
        if self.failed {
            return Err(SinkFault::Failed);
        }
        loop {
            match self.advance(out) {
                Ok(true) => {}
                Ok(false) => return Ok(()),
                Err(WriteError) => {
                    self.failed = true;
                    return Err(SinkFault::WriteFailed);
                }
            }
        }
    }

    /// Does the next step of the plan that may be done. `false` says that there is none.
    fn advance<W: Sink>(&mut self, out: &mut W) -> Result<bool, WriteError>
        requires { MayWrite self.old }
        ensures { TakesOneStep self.old self.new (W.stream out.old) (W.stream out.new) result }
    {
        if !self.printing {
            return Ok(self.open_next());
        }
        if self.is_at_end() {
            self.printer.end(out)?;
            self.printing = false;
            return Ok(true);
        }
        self.print_next(out)
    }

    /// Opens the next file in the printer, where one waits.
    fn open_next(&mut self) -> bool
        requires { (self.old.printing ≡ false) × (self.old.failed ≡ false) }
        ensures { OpensNext self.old self.new result }
    {
        let Some(next) = self.waiting.pop_front() else {
            return false;
        };
        self.printer.open(next.prefix);
        self.printing = true;
        true
    }

    /// Whether all blocks of the file that the printer has opened were handed out, and it has ended.
    fn is_at_end(&self) -> bool
        ensures { result ≡ is_at_end self.now }
    {
        match self.waiting.front() {
            Some(next) => next.start == self.buffer.handed(),
            None => !self.running && self.buffer.is_empty(),
        }
    }

    /// Writes the rows of the next block of the file that the printer has opened, where its result has
    /// come.
    fn print_next<W: Sink>(&mut self, out: &mut W) -> Result<bool, WriteError>
        requires stands { MayWrite self.old }
        requires inside { (self.old.printing ≡ true) × (is_at_end self.old ≡ false) }
        ensures { TakesOneStep self.old self.new (W.stream out.old) (W.stream out.new) result }
    {
        let Some(found) = self.buffer.result_at(0) else {
            return Ok(false);
        };
        let printed = self.printer.print(out, found)?;
        if let Some(slot) = self.buffer.pop_first() {
            self.printer.pass(slot.block, printed);
        }
        Ok(true)
    }

    /// Whether no file is open and the result of every announced block was taken.
    pub(crate) fn complete(&self) -> bool
        ensures { (past : Past) → IsAfter self.now past → IsTrue result ↔ IsComplete past }
    {
        !self.running && self.buffer.has_all_results()
    }

    /// Whether enough was read, by the files that may be handed out.
    pub(crate) fn enough(&self) -> bool
        requires { HasPast self.now }
        ensures { TellsEnough self.now result }
    {
        let mut ahead = Lookahead {
            blocks: 0,
            files: 0,
            inside: self.printing,
            progress: self.printer.progress(),
            selected: self.buffer.has_handed_selected(),
        };
        while let Some(next) = self.next_ahead(ahead) {
            ahead = next;
        }
        ahead.is_enough(&self.format)
    }

    /// One step further, where it could be done.
    fn next_ahead(&self, ahead: Lookahead) -> Option<Lookahead>
        requires { MayLookFurther self.now ahead }
        ensures { LooksOneFurther self.now ahead result }
    {
        if !ahead.inside {
            return self.file_ahead(ahead);
        }
        if self.is_over(ahead) {
            return Some(Lookahead {
                inside: false,
                ..ahead
            });
        }
        self.block_ahead(ahead)
    }

    /// Opens the next file.
    fn file_ahead(&self, ahead: Lookahead) -> Option<Lookahead>
        requires { ahead.inside ≡ false }
        ensures { LooksOneFurther self.now ahead result }
    {
        if ahead.files >= self.waiting.len() {
            return None;
        }
        Some(Lookahead {
            files: ahead.files + 1,
            inside: true,
            progress: Progress::new(),
            ..ahead
        })
    }

    /// Whether the open file has no more blocks and has ended.
    fn is_over(&self, ahead: Lookahead) -> bool
        ensures { result ≡ is_over self.now ahead }
    {
        match self.waiting.get(ahead.files) {
            Some(next) => next.start == self.buffer.handed() + ahead.blocks as u128,
            None => !self.running && self.buffer.len() <= ahead.blocks,
        }
    }

    /// Goes past the next block, where its result has come.
    fn block_ahead(&self, ahead: Lookahead) -> Option<Lookahead>
        requires stands { MayLookFurther self.now ahead }
        requires inside { (ahead.inside ≡ true) × (is_over self.now ahead ≡ false) }
        ensures { LooksOneFurther self.now ahead result }
    {
        let Some(found) = self.buffer.result_at(ahead.blocks) else {
            return None;
        };
        let (runs, lines) = (found.runs(), found.lines() as u64);
        Some(Lookahead {
            blocks: ahead.blocks + 1,
            progress: ahead.progress.after(&self.format, runs, lines),
            selected: ahead.selected | !runs.is_empty(),
            ..ahead
        })
    }

    /// The exit status, once all is complete.
    pub(crate) fn status(&self) -> Option<u8>
        ensures { TellsStatus self.now result }
    {
        if !self.complete() {
            return None;
        }
        let selected = self.buffer.has_selected();
        Some(exit_status(self.format.mode, self.bad, selected))
    }
}
