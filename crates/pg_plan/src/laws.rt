//! Laws of the definitions that contracts cite. They speak of all values, and a call does nothing.
ghost use Rattle.std.specs.Prelude.{◌≡◌, List, false};
ghost use Rattle.std.specs.List.{Contains};
ghost use Rattle.pg_selection.specs.Search.{terminator};
ghost use Rattle.pg_selection.specs.Searched.{SearchedBlock};
ghost use Rattle.pg_base.specs.Entries.{Entry};
ghost use Rattle.pg_base.specs.Sink.{IsBeginning};
ghost use Rattle.pg_rows.specs.Output.{HasRoom, output};
ghost use Rattle.pg_plan.specs.Plan.{IsPlan, Begins, announced};
ghost use Rattle.pg_plan.specs.History.{Past, plan, handed, answer, is_taken, taken_of};
ghost use Rattle.pg_plan.specs.declared.answers.Arrival.TheVariants.{Taken};

/// What may be handed out is a beginning of the output of every list of files that the plan begins. The limit of the
/// format isn't 0, and the past's steps are a plan.
pub fn handed_out_begins()
    ensures { (past : Past) → HasRoom past.format → IsPlan (terminator past.query) (plan past) →
        (entries : List Entry) → Begins (terminator past.query) (plan past) entries →
        IsBeginning (handed past) (output past.query past.format entries) }
{}

/// The first arrival of an announced block's result under the query is taken. The past's steps are a plan.
pub fn first_arrival_is_taken()
    ensures { (past : Past) (found : SearchedBlock) → IsPlan (terminator past.query) (plan past) →
        found.query ≡ past.query.text → Contains (announced (plan past)) found.block →
        is_taken (taken_of past.query past.events) found.block ≡ false → answer past found ≡ Taken }
{}
