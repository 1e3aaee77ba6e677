//! What a run writes, from results that arrive in any order.
ghost use Rattle.std.specs.Prelude.{◌≡◌, ◌↔◌, IsTrue, IfOk, IsOk};
ghost use Rattle.std.specs.Arc.{arc_value};

use crate::assembler::Assembler;
use pg_base::Sink;
use pg_blocks::Block;
use pg_plan::{Arrival, SinkFault};
use pg_rows::Format;
use pg_selection::{BlockResult, Selector};
use std::alloc::{AllocError, Allocator, Global};
use std::marker::Model;
use std::sync::Arc;

/// Puts the results of blocks in order and writes the output of a run.
///
/// The plan says which files are read and which blocks they have. Results arrive in any order.
/// What is handed out at any time is the output of the longest beginning of the plan all of whose
/// results have come. Blocks and results are given up once their rows were written, but for the
/// blocks of the last lines that may still be shown as leading context, so what is held doesn't grow
/// with the file.
///
/// A sequencer always stands after some past: what was planned, what arrived and what was written. Contracts see it as
/// its assembler, of which they know nothing else.
#[derive(Drop)]
pub struct Sequencer<A: Allocator = Global> {
    assembler: Assembler<A>,
}

impl<A: Allocator> Model for Sequencer<A> {
    ghost use Rattle.pg_plan.specs.History.{Past};
    ghost use Rattle.pg_seq.specs.Standing.{IsAfter};
    ghost use Rattle.pg_seq.specs.declared.assembler.Assembler.{Assembler};

    ghost Value = { Assembler A };

    ghost view = { λ s. s.assembler };

    ghost invariant = { λ s. (past : Past) × IsAfter s.assembler past };
}

impl<A: Allocator> Sequencer<A> {
    ghost use Rattle.pg_rows.specs.Output.{HasRoom};
    ghost use Rattle.pg_plan.specs.Plan.{Opens, Announces, Ends, Misses};
    ghost use Rattle.pg_plan.specs.History.{Past, planned, arrived, answer, IsComplete};
    ghost use Rattle.pg_seq.specs.Standing.{IsAfter, IsAtStart, MayPlan, PlansAtOk, PlansAtOkIfReady, StaysAtErr};
    ghost use Rattle.pg_seq.specs.Standing.{MayKeep, KeepsResult, Drains, TellsEnough, TellsStatus};

    /// A sequencer to which nothing happened, for the results of a query. It reserves the room for the
    /// lines before a selected one that are shown.
    ///
    /// The limit of the format isn't 0. A refused request for memory is the only error.
    pub fn new(
        alloc: A,
        selector: Arc<Selector<A>, A>,
        format: Format,
    ) -> Result<Sequencer<A>, AllocError>
    where
        A: Copy,
        requires { HasRoom format }
        ensures { IfOk result (IsAtStart (arc_value selector) format) }
    {
        let selects: &Selector<A> = &selector;
        // Its contract says that the patterns have trees.
        let _text = selects.text();
        let assembler = Assembler::new(alloc, selector, format)?;
        Ok(Sequencer { assembler })
    }

    /// Opens a file, which gets the next number from 0. No file is open, and at most 2^32 - 2 files
    /// were opened before.
    ///
    /// A refused request for memory is the only error, and changes nothing.
    pub fn open(&mut self, name: &[u8]) -> Result<(), AllocError>
    where
        A: Copy,
        requires { MayPlan self.old (Opens name.now) }
        ensures ok { PlansAtOk self.old self.new (Opens name.now) result }
        ensures err { StaysAtErr self.old self.new result }
    {
        self.assembler.open(name)
    }

    /// Announces the open file's next block.
    ///
    /// It has the file's number and the number of the file's blocks announced before, and bytes that aren't
    /// empty; the blocks before it end in the terminator; its lines have at most 2^30 bytes, and the
    /// file at most 2^62. A refused request for memory is the only error, and changes nothing.
    pub fn announce(&mut self, block: Arc<Block<A>, A>) -> Result<(), AllocError>
        requires { MayPlan self.old (Announces (arc_value block)) }
        ensures ok { PlansAtOkIfReady self.old self.new (Announces (arc_value block)) result }
        ensures err { StaysAtErr self.old self.new result }
    {
        self.assembler.announce(block)
    }

    /// Ends the open file, whose reading has failed or has come to its end. It takes no memory.
    pub fn end(&mut self, failed: bool)
        requires { MayPlan self.old (Ends failed) }
        ensures { (past : Past) → IsAfter self.old past → IsAfter self.new (planned past (Ends failed)) }
    {
        self.assembler.end(failed);
    }

    /// Notes a name that could not be opened or listed. No file is open.
    ///
    /// Always `Ok`: nothing is kept, and no memory asked for.
    pub fn miss(&mut self, name: &[u8]) -> Result<(), AllocError>
        requires { MayPlan self.old (Misses name.now) }
        ensures ok { PlansAtOk self.old self.new (Misses name.now) result }
        ensures err { StaysAtErr self.old self.new result }
        ensures takes { IsOk result }
    {
        self.assembler.miss(name)
    }

    /// Takes a result, which may be of any query and block. Only `Taken` changes anything.
    ///
    /// Queries and blocks are compared by content. It takes no memory.
    pub fn arrive(&mut self, found: BlockResult<A>) -> Arrival
        ensures answer { (past : Past) → IsAfter self.old past → result ≡ answer past found }
        ensures stands { (past : Past) → IsAfter self.old past → IsAfter self.new (arrived past found) }
    {
        self.assembler.arrive(found)
    }

    /// Takes a result whose arrival would be answered by `Taken`, as that of a block that was just
    /// announced and searched. Neither queries nor blocks are compared. It takes no memory.
    pub fn keep(&mut self, found: BlockResult<A>)
        requires { MayKeep self.old found }
        ensures { KeepsResult self.old self.new found }
    {
        self.assembler.keep(found);
    }

    /// Writes all that may be handed out and was not yet written. It takes no memory.
    ///
    /// # Errors
    ///
    /// `WriteFailed` where a write failed in this call or took no byte of a text that isn't empty;
    /// a beginning of what was due was written. `Failed` where an earlier call answered
    /// `WriteFailed`; nothing is asked of the writer.
    pub fn drain<W: Sink>(&mut self, out: &mut W) -> Result<(), SinkFault>
        ensures { Drains self.old self.new (W.stream out.old) (W.stream out.new) result }
    {
        self.assembler.drain(out)
    }

    /// Whether no file is open and the result of every announced block was taken.
    pub fn complete(&self) -> bool
        ensures { (past : Past) → IsAfter self.now past → IsTrue result ↔ IsComplete past }
    {
        self.assembler.complete()
    }

    /// Whether enough was read, by the files that may be handed out: with -q a line of any file is
    /// selected; else a file is open, and no line that may follow changes what it gives. It takes no
    /// memory.
    ///
    /// While results are missing the open file may be an earlier one than that of the plan.
    pub fn enough(&self) -> bool
        ensures { TellsEnough self.now result }
    {
        self.assembler.enough()
    }

    /// The exit status (XCU grep, EXIT STATUS), once all is complete: 2 after a name that was missed
    /// or a file whose reading failed, but with -q 0 where a line was selected; else 0 where a line was
    /// selected and 1 where none was.
    pub fn status(&self) -> Option<u8>
        ensures { TellsStatus self.now result }
    {
        self.assembler.status()
    }
}
