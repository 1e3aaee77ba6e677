//! Laws of the definitions that contracts cite. They speak of all values, and a call does nothing.
ghost use Rattle.std.specs.Prelude.{◌≡◌, ◌++◌, ℕ, Bool, true, false, List, []};
ghost use Rattle.std.specs.List.{Contains};
ghost use Rattle.pg_selection.specs.Search.{Search, terminator};
ghost use Rattle.pg_blocks.specs.Lines.{AreWhole, lines};
ghost use Rattle.pg_rows.specs.declared.format.Format.{Format};
ghost use Rattle.pg_rows.specs.declared.format.Mode.{Mode};
ghost use Rattle.pg_rows.specs.Colors.{without_escapes};
ghost use Rattle.pg_rows.specs.Modes.{rows_in};
ghost use Rattle.pg_rows.specs.Output.{HasRoom, file_rows, when};
ghost use Rattle.pg_rows.specs.Separator.{text_between};
ghost use Rattle.pg_rows.specs.Trail.{trail_of};
ghost use Rattle.pg_rows.specs.Cursor.{block_rows, counted, cursor_after, named};
ghost use Rattle.pg_rows.specs.Enough.{lines_suffice, trail_suffices};

/// The rows that a file's lines add one after the other, by what is remembered of the lines before each, are the
/// file's rows, and so are those that its blocks add. The limit of the format isn't 0.
pub fn blocks_give_the_rows()
    ensures whole { (q : Search) (format : Format) (name bytes : List ℕ) (ended earlier : Bool) → HasRoom format →
        file_rows q format name bytes ended earlier ≡ rows_in format.mode
        (block_rows q format (cursor_after q format name earlier []) bytes)
        (when ended (counted format (cursor_after q format name earlier (lines (terminator q) bytes))))
        (when ended (named format (cursor_after q format name earlier (lines (terminator q) bytes)))) }
    ensures joined { (q : Search) (format : Format) (name front bytes : List ℕ) (earlier : Bool) →
        AreWhole (terminator q) front → block_rows q format (cursor_after q format name earlier []) (front ++ bytes)
        ≡ block_rows q format (cursor_after q format name earlier []) front ++ block_rows q format
        (cursor_after q format name earlier (lines (terminator q) front)) bytes }
{}

/// What is remembered of a file's lines tells whether they suffice. The limit of the format isn't 0.
pub fn trails_tell_enough()
    ensures { (q : Search) (format : Format) (mode : Mode) (ls : List (List ℕ)) → HasRoom format →
        trail_suffices mode format (trail_of q format ls) ≡ lines_suffice mode q format ls }
{}

/// Colors add escapes to the rows of a file and change nothing else: without them the rows are those without colors,
/// where neither the file's name nor its bytes nor the text between groups of lines have an ESC (27).
pub fn colors_add_escapes()
    ensures { (q : Search) (format : Format) (name bytes : List ℕ) (ended earlier : Bool) →
        ¬ (Contains name 27) → ¬ (Contains bytes 27) → ¬ (Contains (text_between format.separator) 27) →
        without_escapes (file_rows q (record format { colored = true }) name bytes ended earlier)
        ≡ file_rows q (record format { colored = false }) name bytes ended earlier }
{}
