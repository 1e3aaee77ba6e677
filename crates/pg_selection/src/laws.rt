//! Laws of the definitions that contracts cite. They speak of all values, and a call does nothing.
ghost use Rattle.std.specs.Prelude.{◌≡◌, ℕ, List};
ghost use Rattle.pg_selection.specs.Search.{Search, HasItsTrees};
ghost use Rattle.pg_selection.specs.Selection.{SelectsIsSelected};

/// The texts and options of a query determine the trees of its patterns.
pub fn trees_are_one()
    ensures { (q r : Search) → HasItsTrees q → HasItsTrees r → q.text ≡ r.text → q ≡ r }
{}

/// The test of a line decides whether it is selected.
pub fn selection_is_decided()
    ensures { (q : Search) (line : List ℕ) → SelectsIsSelected q line }
{}
