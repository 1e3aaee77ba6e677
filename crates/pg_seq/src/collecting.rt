//! The sequencer as a round's results reach it.
ghost use Rattle.std.specs.Prelude.{◌≡◌, ℕ, ◌<◌, ◌≤◌, ◌++◌, List, OnOk, IsErrOf};

use crate::sequencer::Sequencer;
use pg_base::Sink;
use pg_plan::{Arrival, Collector, SinkFault};
use pg_selection::BlockResult;
use std::alloc::Allocator;

impl<A: Allocator> Collector<BlockResult<A>> for Sequencer<A> {
    ghost use Rattle.pg_plan.specs.History.{Past, arrived, answer, handed};
    ghost use Rattle.pg_seq.specs.Standing.{IsAfter};
    ghost use Rattle.pg_plan.specs.Drains.{Drained, IsSafe, drained};
    ghost use Rattle.pg_plan.specs.declared.answers.SinkFault.TheVariants.{Failed, WriteFailed};

    ghost stands = { λ s past. IsAfter s past };

    ghost searched = { λ found. found };

    fn arrive(&mut self, found: BlockResult<A>) -> Arrival
        ensures answer { (past : Past) → IsAfter self.old past → result ≡ answer past found }
        ensures stands { (past : Past) → IsAfter self.old past → IsAfter self.new (arrived past found) }
    {
        self.arrive(found)
    }

    fn drain<W: Sink>(&mut self, out: &mut W) -> Result<(), SinkFault>
        ensures drained { (past : Past) → IsAfter self.old past → (text : List ℕ)
            × ((W.stream out.new).taken ≡ (W.stream out.old).taken ++ text)
            × Drained result past text × IsAfter self.new (drained past text result) }
        ensures safe { (past : Past) → IsAfter self.old past → IsSafe past (handed past) }
        ensures cause { IsErrOf result WriteFailed → (W.stream out.old).failures < (W.stream out.new).failures }
        ensures failed { IsErrOf result Failed → W.stream out.new ≡ W.stream out.old }
        ensures no_failure { OnOk result ((W.stream out.new).failures ≡ (W.stream out.old).failures) }
        ensures never_falls { (W.stream out.old).failures ≤ (W.stream out.new).failures }
    {
        self.drain(out)
    }
}
