//! How files are searched, and how their rows look.
ghost use Rattle.std.specs.Prelude.{◌≤◌, ◌^◌};
ghost use Rattle.pg_rows.specs.Output.{HasRoom};

use pg_rows::Format;

/// How files are searched, and how their rows look. `workers`, `block`, `round`, `always_spread` and
/// `line_buffered` have no part in what is written.
#[derive(Clone, Copy, Debug)]
pub struct Setup {
    /// Which rows are written. A limit is at least 1.
    pub format: Format,
    /// At most so many threads search beside the calling one, from 0 to 64.
    pub workers: u32,
    /// Files are cut into blocks of at least so many bytes, from 1 to 2^24.
    pub block: u32,
    /// The longest line in bytes, without its terminator, from 1 to 2^30.
    pub line: u32,
    /// At most so many blocks wait to be searched together, from 1 to 1,024.
    pub round: u32,
    /// Threads search where they can, also where that doesn't pay.
    pub always_spread: bool,
    /// The output is told to send on what it holds back as each block, or round of blocks, was searched, and as each
    /// file ended.
    pub line_buffered: bool,
    /// Fault lines of files are left out.
    pub silent: bool,
    ghost some_limit: { HasRoom format },
    ghost workers_in_range: { workers ≤ 64 },
    ghost block_in_range: { (1 ≤ block) × (block ≤ 2 ^ 24) },
    ghost line_in_range: { (1 ≤ line) × (line ≤ 2 ^ 30) },
    ghost round_in_range: { (1 ≤ round) × (round ≤ 1024) },
}
