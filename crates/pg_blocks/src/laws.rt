//! Laws of the definitions that contracts cite. They speak of all values, and a call does nothing.
ghost use Rattle.std.specs.Prelude.{◌≡◌, ◌<◌, ℕ, List, []};
ghost use Rattle.std.specs.List.{flat_map};
ghost use Rattle.pg_blocks.specs.Lines.{lines, AreLines};
ghost use Rattle.pg_blocks.specs.Blocks.{BlockData, IsCut, IsCutting, AreNumbered};
ghost use Rattle.pg_blocks.specs.Cutter.{CutterPast, AreAllBlocks};

/// Some bytes have lines, and no others than these.
pub fn lines_are_one()
    ensures exist { (end : ℕ) (bytes : List ℕ) → AreLines end bytes (lines end bytes) }
    ensures one { (end : ℕ) (bytes : List ℕ) (texts : List (List ℕ)) → AreLines end bytes texts →
        texts ≡ lines end bytes }
{}

/// A file has a cut for each size but 0, and one alone, which is a cutting of it.
pub fn cuts_are_one()
    ensures exist { (end size file : ℕ) (bytes : List ℕ) → 0 < size →
        (blocks : List BlockData) × IsCut end size bytes blocks × AreNumbered file 0 blocks }
    ensures cutting { (end size : ℕ) (bytes : List ℕ) (blocks : List BlockData) → IsCut end size bytes blocks →
        IsCutting end bytes blocks }
    ensures one { (end size file : ℕ) (bytes : List ℕ) (blocks others : List BlockData)
        → IsCut end size bytes blocks → AreNumbered file 0 blocks
        → IsCut end size bytes others → AreNumbered file 0 others → others ≡ blocks }
{}

/// The blocks that a cutter hands out of a file are a cutting of it and have its lines, also where some were handed out
/// early. Where none was, they are the cut by the size.
pub fn blocks_keep_lines()
    ensures cutting { (past : CutterPast) → AreAllBlocks past → IsCutting past.end past.bytes past.taken }
    ensures same { (past : CutterPast) → AreAllBlocks past →
        flat_map (λ block. lines past.end block.bytes) past.taken ≡ lines past.end past.bytes }
    ensures by_size { (past : CutterPast) → past.early ≡ [] → AreAllBlocks past →
        IsCut past.end past.size past.bytes past.taken }
{}
