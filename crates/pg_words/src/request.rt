//! What a command line asks for.
ghost use Rattle.std.specs.Prelude.{◌<◌, ◌≤◌, ◌+◌, ◌^◌, vec_len};
ghost use Rattle.pg_rows.specs.Output.{HasRoom};

use crate::options::{Coloring, DeviceAction, Naming};
use pg_grammar::Kind;
use pg_rows::Format;

/// Which files are searched, by their names.
#[derive(Clone, Copy)]
pub enum FileFilter<'a> {
    /// --include GLOB: the files whose name it matches are kept.
    Include(&'a str),
    /// --exclude GLOB: they are left out.
    Exclude(&'a str),
    /// --exclude-from FILE: so are those whose name some line of the file matches. `-` is standard input.
    ExcludeFrom(&'a str),
}

/// What the words ask for.
#[derive(Drop)]
pub struct Request<'a> {
    /// The syntax of the patterns: -E, -F, or neither.
    pub kind: Kind,
    /// The -e texts in their order. Where neither -e nor -f is given, the first operand alone.
    pub texts: Vec<&'a str>,
    /// The -f paths in their order, `-` for standard input.
    pub pattern_files: Vec<&'a str>,
    /// -i: upper and lower case don't differ.
    pub fold: bool,
    /// -x: a match is a whole line.
    pub whole: bool,
    /// -w: a match is a word.
    pub word: bool,
    /// -v: the lines without a match are selected.
    pub invert: bool,
    /// -z: a NUL ends each line.
    pub zero: bool,
    /// -o: the matched parts of selected lines have rows, not the lines.
    pub parts: bool,
    /// How rows look: -c, -l, -L, -q, -n, -b, -m, -A, -B, -C, -H, -h, -T, -Z, --group-separator and
    /// --no-group-separator. Without -H they have no names. They have no colors.
    pub format: Format,
    /// --color: when rows are colored.
    pub coloring: Coloring,
    /// -H, -h, or neither: when rows have names.
    pub names: Naming,
    /// --label NAME: what standard input is called.
    pub label: Option<&'a str>,
    /// The FILE operands in their order, `-` for standard input; `-` alone where none is given.
    pub files: Vec<&'a str>,
    /// The last of -d, -r and -R is -r, -R or -d recurse: directories are visited.
    pub recursive: bool,
    /// -R: links are followed below operands too.
    pub follows: bool,
    /// -d skip: directories are left out.
    pub skips_directories: bool,
    /// -D ACTION: what is done with devices, FIFOs and sockets.
    pub devices: Option<DeviceAction>,
    /// --include, --exclude and --exclude-from in their order: which files are searched.
    pub filters: Vec<FileFilter<'a>>,
    /// The patterns of --exclude-dir in their order: which directories aren't visited.
    pub excluded: Vec<&'a str>,
    /// -s: nothing is told of files that can't be searched.
    pub silent: bool,
    /// --line-buffered: rows are sent on as each block, or round of blocks, was searched.
    pub line_buffered: bool,
    /// --workers N: at most N threads search beside the one that reads, 1 to 64.
    pub workers: u32,
    /// --block N: each file is cut into blocks of at least N bytes, 1 to 2^24.
    pub block: u32,
    /// --round N: at most N blocks are searched together, 1 to 1,024.
    pub round: u32,
    /// --always-spread: rounds of any size are searched by threads. It serves tests.
    pub always_spread: bool,
    ghost has_pattern: { 0 < vec_len texts + vec_len pattern_files },
    ghost some_limit: { HasRoom format },
    ghost some_file: { 0 < vec_len files },
    ghost workers_in_range: { (1 ≤ workers) × (workers ≤ 64) },
    ghost block_in_range: { (1 ≤ block) × (block ≤ 2 ^ 24) },
    ghost round_in_range: { (1 ≤ round) × (round ≤ 1024) },
}
