//! Laws of the definitions that contracts cite. They speak of all values, and a call does nothing.
ghost use Rattle.std.specs.Prelude.{◌≡◌, ◌++◌, ℕ, List, false, true};
ghost use Rattle.std.specs.List.{list_any};
ghost use Rattle.pg_selection.specs.Search.{Search, terminator};
ghost use Rattle.pg_blocks.specs.Lines.{AreWhole, lines};
ghost use Rattle.pg_rows.specs.declared.format.Format.{Format};
ghost use Rattle.pg_rows.specs.Modes.{is_quiet};
ghost use Rattle.pg_base.specs.Entries.{Entry};
ghost use Rattle.pg_rows.specs.Output.{HasRoom, has_separators, has_selected, output, status};
ghost use Rattle.pg_rows.specs.Enough.{lines_suffice};
ghost use Rattle.pg_plan.specs.Plan.{entries_of};
ghost use Rattle.pg_plan.specs.History.{Past, IsComplete, plan, handed};
ghost use Rattle.pg_seq.specs.Settled.{IsSettled, AreLeftRightly, MayBeLonger, GiveTheSame, ChangeNothing};
ghost use Rattle.pg_seq.specs.Shares.{joined_output, joined_status};

/// Once no file is open and the result of each announced block was taken, the whole output of the plan's files may be
/// handed out.
pub fn complete_output_is_whole()
    ensures { (past : Past) → IsComplete past →
        handed past ≡ output past.query past.format (entries_of (plan past)) }
{}

/// Where whole lines that were read of a file suffice, what the file gives is settled: whatever follows
/// them in it, its rows are the same, and a line of it is selected. The limit of the format isn't 0.
pub fn lines_that_suffice_settle()
    ensures { (q : Search) (format : Format) (bytes : List ℕ) → HasRoom format →
        AreWhole (terminator q) bytes →
        lines_suffice format.mode q format (lines (terminator q) bytes) ≡ true →
        IsSettled q format bytes }
{}

/// Files that were left rightly give the same, output and status, however long they are. The limit of
/// the format isn't 0.
pub fn left_files_may_be_longer()
    ensures { (q : Search) (format : Format) (entries : List Entry) (others : List Entry) →
        HasRoom format → AreLeftRightly q format entries → MayBeLonger entries others →
        GiveTheSame q format entries others }
{}

/// With -q, once a line is selected, nothing is written and the status is 0, whatever files follow, also
/// missed and failed ones: later files change nothing.
pub fn later_files_stay_unread()
    ensures { (q : Search) (format : Format) (entries : List Entry) (later : List Entry) →
        is_quiet format.mode ≡ true → list_any (has_selected q) entries ≡ true →
        ChangeNothing q format entries later }
{}

/// The files of a run may be searched in shares, by runs of their own, in this order: their outputs, one behind the
/// other, are that of all files. With context the group separator, if there is one, stands between two outputs that
/// both have rows. Names stand before rows by the format alone, so where they are to be shown each share has to be
/// asked for them (-H), also one of a single file.
pub fn shares_join()
    ensures plain { (q : Search) (format : Format) (first : List Entry) (later : List Entry) →
        has_separators format ≡ false →
        output q format (later ++ first) ≡ output q format first ++ output q format later }
    ensures output { (q : Search) (format : Format) (first : List Entry) (later : List Entry) →
        output q format (later ++ first) ≡ joined_output q format (output q format first) (output q format later) }
    ensures status { (q : Search) (format : Format) (first : List Entry) (later : List Entry) →
        status q format (later ++ first)
        ≡ joined_status format.mode (status q format first) (status q format later) }
{}
