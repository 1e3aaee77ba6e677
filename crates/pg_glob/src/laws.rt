//! Laws of the definitions that contracts cite. A call does nothing.
ghost use Rattle.std.specs.Prelude.{◌≡◌, ◌↔◌, List, true};
ghost use Rattle.pg_glob.specs.Brackets.{Text};
ghost use Rattle.pg_glob.specs.Globs.{Matches, GlobPiece, matches};

/// What is computed of a glob and a text is whether the glob matches the text.
pub fn globs_match()
    ensures { (ps : List GlobPiece) → (t : Text) → (matches ps t ≡ true) ↔ Matches ps t }
{}
