//! What takes results.
ghost use Rattle.std.specs.Prelude.{◌≡◌, ℕ, ◌<◌, ◌≤◌, ◌++◌, List, OnOk, IsErrOf};

use crate::answers::{Arrival, SinkFault};
use pg_base::Sink;

/// Takes results in any order and writes what may be handed out, as the sequencer does.
///
/// Contracts see what it stands after, and nothing else of it. `F` is the type of the results.
pub trait Collector<F> {
    ghost use Rattle.pg_plan.specs.History.{Past, arrived, answer, handed};
    ghost use Rattle.pg_plan.specs.Drains.{Drained, IsSafe, drained};
    ghost use Rattle.pg_plan.specs.declared.answers.SinkFault.TheVariants.{Failed, WriteFailed};
    ghost use Rattle.pg_selection.specs.Searched.{SearchedBlock};

    /// It stands after this.
    ghost stands: { Self → Past → Type 0 };

    /// A result as plain data.
    ghost searched: { F → SearchedBlock };

    /// Takes a result, which may be of any query and block.
    fn arrive(&mut self, found: F) -> Arrival
        ensures answer { (past : Past) → stands self.old past → result ≡ answer past (searched found) }
        ensures stands { (past : Past) → stands self.old past → stands self.new (arrived past (searched found)) };

    /// Writes all that may be handed out and was not yet written, which is a beginning of what the plan gives. At `Ok`
    /// no write failed; the writer's failures never fall.
    ///
    /// # Errors
    ///
    /// `WriteFailed` where a write failed in this call or took no byte of a text that isn't empty; a beginning of
    /// what was due was written. `Failed` where an earlier call answered `WriteFailed`; nothing is asked of the writer.
    fn drain<W: Sink>(&mut self, out: &mut W) -> Result<(), SinkFault>
        ensures drained { (past : Past) → stands self.old past → (text : List ℕ)
            × ((W.stream out.new).taken ≡ (W.stream out.old).taken ++ text)
            × Drained result past text × stands self.new (drained past text result) }
        ensures safe { (past : Past) → stands self.old past → IsSafe past (handed past) }
        ensures cause { IsErrOf result WriteFailed → (W.stream out.old).failures < (W.stream out.new).failures }
        ensures failed { IsErrOf result Failed → W.stream out.new ≡ W.stream out.old }
        ensures no_failure { OnOk result ((W.stream out.new).failures ≡ (W.stream out.old).failures) }
        ensures never_falls { (W.stream out.old).failures ≤ (W.stream out.new).failures };
}
