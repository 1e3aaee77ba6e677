//! Laws of the definitions that contracts cite. They speak of all values, and a call does nothing.
ghost use Rattle.std.specs.Prelude.{◌≡◌, ℕ, ◌≤◌, ◌++◌, Any, List, [], false, true, length, replicate};
ghost use Rattle.pg_board.specs.Counts.{total};
ghost use Rattle.pg_board.specs.Draws.{draws, IsLawful};
ghost use Rattle.pg_board.specs.Merge.{IsMerge};
ghost use Rattle.pg_board.specs.declared.draws.BoardSize.{BoardSize};
ghost use Rattle.pg_board.specs.declared.draws.Draws.{Draws};

/// The draws of a new board are lawful, and where one of lawful seats is spent, the word is past the limit: so all
/// numbers were drawn.
pub fn draws_are_complete()
    ensures new { (size : BoardSize) → IsLawful size 0 (replicate size.seats (draws [] false)) }
    ensures spent { (size : BoardSize) (word : ℕ) (seats : List Draws)
        → IsLawful size word seats → Any (λ d. d.spent ≡ true) seats → size.limit ≤ word }
{}

/// A merge is as long as its lists together, so it is no beginning of a longer one.
pub fn merges_are_whole<T>()
    ensures length { (lists : List (List T)) (whole : List T)
        → IsMerge lists whole → length whole ≡ total (λ l. length l) lists }
    ensures end { (lists : List (List T)) (front rest : List T)
        → IsMerge lists front → IsMerge lists (front ++ rest) → rest ≡ [] }
{}
