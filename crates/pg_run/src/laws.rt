//! Laws of the definitions that contracts cite. They speak of all values, and a call does nothing.
ghost use Rattle.std.specs.Prelude.{◌≡◌, ◌++◌, Bool, List};
ghost use Rattle.pg_files.specs.Given.{FileOutcome};
ghost use Rattle.pg_run.specs.Told.{told_of};

/// Where the files of a run are searched in shares, by runs of their own, in this order, the lines that are told of
/// them follow one another. What their outputs and statuses come to, `pg_seq::shares_join` says.
pub fn told_of_shares()
    ensures { (silent : Bool) (first : List FileOutcome) (later : List FileOutcome) →
        told_of silent (later ++ first) ≡ told_of silent first ++ told_of silent later }
{}
