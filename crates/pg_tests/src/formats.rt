//! Every format, over results in any order, against what GNU grep writes.
ghost use Rattle.std.specs.Prelude.{◌≡◌, ◌+◌, ◌<◌, ◌≤◌, false, true};
ghost use Rattle.pg_rows.specs.Output.{is_below, HasRoom};
ghost use Rattle.pg_tests.specs.Reading.{IsBetween, IsReading};

use crate::cases::CASES;
use crate::fixtures::{compile, query_of, search, text_of};
use crate::planning::{
    announce_block, end_file, is_block, miss_name, new_sequencer, open_file, open_next,
};
use pg_base::MemSink;
use pg_blocks::{Block, Cutter};
use pg_lines::{BlockResult, Kind, Query};
use pg_rows::{Format, Mode, Separator};
use pg_seq::{Arrival, Sequencer};
use std::alloc::Global;
use std::process::Abort;

/// What stands before a mark and what stands behind it. The mark has to be there.
pub(crate) fn cut<'a>(rt: &impl Abort, text: &'a str, mark: &str) -> (&'a str, &'a str) {
    text.split_once(mark).expect(rt, "one field more")
}

/// A field with newlines in place of its slashes, and with an ESC in place of each tilde.
pub(crate) fn with_controls(rt: &impl Abort, alloc: Global, field: &str) -> String {
    field
        .chars()
        .map(|c| match c {
            '/' => '\n',
            '~' => '\x1b',
            _ => c,
        })
        .collect(alloc)
        .expect(rt, "memory")
}

/// The number of a digit, or of none by `-`.
fn digit(rt: &impl Abort, letter: u8) -> Option<u16> {
    match letter {
        b'0'..=b'9' => Some(u16::from(letter - b'0')),
        b'-' => None,
        _ => panic!(rt; "a digit or a hyphen"),
    }
}

/// The limit of a digit above 0, or none by `-`.
fn limit_of(rt: &impl Abort, letter: u8) -> Option<u32>
    ensures { is_below 0 result ≡ true }
{
    match letter {
        b'1'..=b'9' => Some(u32::from(letter - b'0')),
        b'-' => None,
        _ => panic!(rt; "a limit or a hyphen"),
    }
}

fn mode_of(rt: &impl Abort, letter: u8) -> Mode {
    match letter {
        b'c' => Mode::Count,
        b'l' => Mode::List,
        b'q' => Mode::Quiet,
        b'-' => Mode::Rows,
        _ => panic!(rt; "a mode or a hyphen"),
    }
}

/// Whether an option is given, by its letter or by `-`.
fn is_given(rt: &impl Abort, found: u8, letter: u8) -> bool {
    assert!(rt; found == letter || found == b'-', "an option or a hyphen");
    found == letter
}

/// The format of six letters: names, numbers, mode, limit, lines before and lines after.
pub(crate) fn format_of(rt: &impl Abort, letters: &str) -> Format
    ensures { HasRoom result }
{
    let [names, numbers, mode, limit, before, after] = letters.as_bytes() else {
        panic!(rt; "six letters");
    };
    Format {
        names: is_given(rt, *names, b'H'),
        null: false,
        tabs: false,
        separator: Some(Separator::hyphens()),
        numbers: is_given(rt, *numbers, b'n'),
        mode: mode_of(rt, *mode),
        parts: false,
        offsets: false,
        colored: false,
        limit: limit_of(rt, *limit),
        before: digit(rt, *before),
        after: digit(rt, *after).map(u32::from),
    }
}

pub(crate) fn kind_of(rt: &impl Abort, letter: u8) -> Kind {
    match letter {
        b'F' => Kind::Fixed,
        b'E' => Kind::Extended,
        b'G' => Kind::Basic,
        _ => panic!(rt; "the letter of a kind"),
    }
}

/// The letter of a kind, and that of an option, or `-`.
fn kind_and_option(rt: &impl Abort, letters: &str) -> (Kind, u8) {
    match letters.as_bytes() {
        [kind] => (kind_of(rt, *kind), b'-'),
        [kind, option] => (kind_of(rt, *kind), *option),
        _ => panic!(rt; "a kind and an option at most"),
    }
}

/// What is asked of the parts of lines, by the letter of an option: whether they have rows, and whether rows have
/// colors.
fn asked_parts(option: u8) -> (bool, bool) {
    (matches!(option, b'o' | b'C'), matches!(option, b'c' | b'C'))
}

/// The query of letters and a text behind a colon: its kind, `o` for matched parts, `c` for lines in colors, `C` for
/// parts in colors, and `v` for lines that aren't matched.
fn asked_query(rt: &impl Abort, alloc: Global, field: &str) -> Query
    ensures { result.text.zero ≡ false }
{
    let (letters, pattern) = cut(rt, field, ":");
    let (kind, option) = kind_and_option(rt, letters);
    let mut text = text_of(alloc, kind, pattern.as_bytes()).expect(rt, "memory");
    let (parts, colored) = asked_parts(option);
    text.with_parts = parts || colored;
    text.invert = !text.with_parts && is_given(rt, option, b'v');
    compile(alloc, text).expect(rt, "a query")
}

/// A row of the table.
struct Case {
    format: Format,
    query: Query,
    /// The least bytes of a block.
    size: u8,
    /// Of the order in which results arrive.
    seed: u8,
    /// Each behind a `|`.
    files: String,
    output: String,
    status: u8,
}

impl Drop for Case {
    fn drop(self) {
        let Case {
            format: _,
            query: _,
            size: _,
            seed: _,
            files: _,
            output: _,
            status: _,
        } = self;
    }
}

/// A number below 256.
fn number(rt: &impl Abort, field: &str) -> u8 {
    field.parse().expect(rt, "a number")
}

fn case_of(rt: &impl Abort, alloc: Global, row: &str) -> Case
    ensures room { HasRoom result.format }
    ensures zero { result.query.text.zero ≡ false }
{
    let (letters, rest) = cut(rt, row, " ");
    let (asked, rest) = cut(rt, rest, " ");
    let (size, rest) = cut(rt, rest, " ");
    let (seed, rest) = cut(rt, rest, " ");
    let (files, answer) = cut(rt, rest, " ");
    let (status, output) = cut(rt, answer, ":");
    let (option_letters, _) = cut(rt, asked, ":");
    let (_, option) = kind_and_option(rt, option_letters);
    let mut format = format_of(rt, letters);
    let (parts, colored) = asked_parts(option);
    format.parts = parts;
    format.colored = colored;
    Case {
        format,
        query: asked_query(rt, alloc, asked),
        size: number(rt, size),
        seed: number(rt, seed),
        files: with_controls(rt, alloc, files),
        output: with_controls(rt, alloc, output),
        status: number(rt, status),
    }
}

/// The blocks of a file. All but the last one have at least `size` bytes, and each has at least one.
fn cut_file(rt: &impl Abort, alloc: Global, file: u32, text: &str, size: u8) -> Vec<Block> {
    let mut cutter = Cutter::new(alloc, file, u32::from(size.max(1)), 100, b'\n');
    cutter.feed(text.as_bytes()).expect(rt, "short lines");
    let mut blocks = Vec::new(alloc);
    while let Some(block) = cutter.take() {
        blocks.push(block).expect(rt, "memory");
    }
    if let Some(block) = cutter.finish() {
        blocks.push(block).expect(rt, "memory");
    }
    blocks
}

/// Plans a file with these blocks.
fn plan_file(
    rt: &impl Abort,
    alloc: Global,
    sequencer: &mut Sequencer,
    file: u32,
    name: u8,
    blocks: &[Block],
)
    requires between { IsBetween sequencer.old file }
    requires few { file ≤ 100 }
    ensures { IsBetween sequencer.new (file + 1) }
{
    open_file(sequencer, file, &[name]).expect(rt, "memory");
    let mut number = 0;
    for block in blocks {
        assert!(rt; number < 100 && is_block(&block.bytes));
        announce_block(alloc, sequencer, file, number, &block.bytes).expect(rt, "memory");
        number += 1;
    }
    end_file(sequencer, file);
}

/// Plans the next file, of at most 101, cut into blocks of at least `size` bytes, which are appended to those that were
/// planned. `!` is a file that isn't there. The sequencer has `file` files and none is open, and the answer is how many
/// it has then.
fn plan_text(
    rt: &impl Abort,
    alloc: Global,
    sequencer: &mut Sequencer,
    planned: &mut Vec<Block>,
    file: u32,
    name: u8,
    text: &str,
    size: u8,
) -> u32
    requires between { IsBetween sequencer.old file }
    requires few { file ≤ 100 }
    ensures { IsBetween sequencer.new result }
{
    if text == "!" {
        miss_name(sequencer, file, &[name]).expect(rt, "memory");
        return file;
    }
    let mut blocks = cut_file(rt, alloc, file, text, size);
    plan_file(rt, alloc, sequencer, file, name, &blocks);
    planned.append(&mut blocks).expect(rt, "memory");
    file + 1
}

/// Plans files, which `|` parts, as `plan_text` does, in a sequencer that has none. They are `a`, `b` and so on.
fn plan_files(
    rt: &impl Abort,
    alloc: Global,
    sequencer: &mut Sequencer,
    planned: &mut Vec<Block>,
    files: &str,
    size: u8,
)
    requires { IsBetween sequencer.old 0 }
{
    let mut file = 0;
    let mut name = b'a';
    for text in files.split('|') {
        assert!(rt; file <= 100);
        file = plan_text(rt, alloc, sequencer, planned, file, name, text, size);
        name = name.wrapping_add(1);
    }
}

/// The order in which results arrive.
#[derive(Clone, Copy)]
enum Order {
    /// One that a seed gives.
    Seeded(u8),
    /// The last block first.
    Falling,
}

/// Puts the blocks into an order.
fn put_in_order(blocks: &mut [Block], order: Order) {
    match order {
        Order::Seeded(seed) => {
            let mut state = u32::from(seed);
            for at in 0..blocks.len() {
                state = state.wrapping_mul(1_664_525).wrapping_add(1_013_904_223);
                blocks.swap(at, (state >> 16) as usize % blocks.len());
            }
        }
        Order::Falling => blocks.reverse(),
    }
}

/// A case, the sequencer that gets the results, and what it writes.
struct Trial<'a> {
    alloc: Global,
    case: &'a Case,
    sequencer: Sequencer,
    sink: MemSink,
}

impl Drop for Trial<'_> {
    fn drop(self) {
        let Trial {
            alloc: _,
            case: _,
            sequencer: _,
            sink: _,
        } = self;
    }
}

impl Trial<'_> {
    /// Whether a drain succeeds, and a beginning of the output is written then.
    fn drains(&mut self) -> bool {
        let drained = self.sequencer.drain(&mut self.sink);
        let output = self.case.output.as_bytes();
        drained.is_ok() && output.starts_with(self.sink.bytes())
    }

    /// Whether the result of a block has this answer, and a drain succeeds.
    fn takes(&mut self, rt: &impl Abort, query: &Query, block: &Block, arrival: Arrival) -> bool {
        let bytes = block.bytes.as_slice();
        assert!(rt; bytes.len() <= 100);
        let found = search(self.alloc, query, block.file, block.number, bytes);
        let answer = self.sequencer.arrive(found.expect(rt, "memory"));
        answer == arrival && self.drains()
    }

    /// Whether the results of blocks have their answers, and all drains succeed. Behind each third one come that of
    /// another query and the same once more.
    fn takes_all(&mut self, rt: &impl Abort, other: &Query, blocks: &[Block]) -> bool {
        let query = &self.case.query;
        let mut right = true;
        for (turn, block) in blocks.iter().enumerate() {
            right &= self.takes(rt, query, block, Arrival::Taken);
            if turn % 3 == 2 {
                right &= self.takes(rt, other, block, Arrival::Stranger);
                right &= self.takes(rt, query, block, Arrival::Double);
            }
        }
        right
    }

    /// Whether the whole output is written, and the status is there.
    fn ends(&mut self) -> bool {
        self.drains()
            && self.sink.bytes().len() == self.case.output.len()
            && self.sequencer.complete()
            && self.sequencer.status() == Some(self.case.status)
    }
}

/// A case of which no file is planned.
fn trial_of<'a>(rt: &impl Abort, alloc: Global, case: &'a Case) -> Trial<'a>
    requires room { HasRoom case.now.format }
    requires zero { case.now.query.text.zero ≡ false }
    ensures { IsBetween result.sequencer 0 }
{
    Trial {
        alloc,
        case,
        sequencer: new_sequencer(alloc, &case.query, case.format).expect(rt, "memory"),
        sink: MemSink::new(alloc, 1000).expect(rt, "memory"),
    }
}

/// The blocks of a case's files, each of which stands behind a `|`. They have at least `size` bytes, and are planned.
fn plan_blocks(
    rt: &impl Abort,
    alloc: Global,
    sequencer: &mut Sequencer,
    files: &str,
    size: u8,
) -> Vec<Block>
    requires { IsBetween sequencer.old 0 }
{
    let mut planned = Vec::new(alloc);
    match files.strip_prefix(":|") {
        Some(files) => plan_files(rt, alloc, sequencer, &mut planned, files, size),
        None => assert!(rt; files == ":", "a colon, and a file behind each bar"),
    }
    planned
}

/// Whether a case has its output and status where blocks have at least `size` bytes and results arrive in this order,
/// and among them those of another query.
fn passes(
    rt: &impl Abort,
    alloc: Global,
    case: &Case,
    other: &Query,
    size: u8,
    order: Order,
) -> bool
    requires room { HasRoom case.now.format }
    requires zero { case.now.query.text.zero ≡ false }
{
    let mut trial = trial_of(rt, alloc, case);
    let mut blocks = plan_blocks(rt, alloc, &mut trial.sequencer, &case.files, size);
    put_in_order(&mut blocks, order);
    trial.takes_all(rt, other, &blocks) && trial.ends()
}

/// A case has its output and status in blocks of its size and of a line, in the order of its seed and the falling one.
fn assert_case(rt: &impl Abort, alloc: Global, other: &Query, row: &str) {
    let case = case_of(rt, alloc, row);
    let size = case.size;
    let seeded = Order::Seeded(case.seed);
    let right = passes(rt, alloc, &case, other, size, seeded)
        && passes(rt, alloc, &case, other, 1, seeded)
        && passes(rt, alloc, &case, other, size, Order::Falling);
    assert!(rt; right, "{row}");
}

/// Each case of a text has its output and status.
fn assert_cases(rt: &impl Abort, alloc: Global, other: &Query, rows: &str) {
    for row in rows.lines() {
        assert_case(rt, alloc, other, row);
    }
}

#[test]
fn formats_give_the_output_of_grep(rt: HostRuntime) {
    let other = query_of(rt.alloc(), b"other").expect(&rt, "memory");
    for rows in CASES {
        assert_cases(&rt, rt.alloc(), &other, rows);
    }
}

/// A format, and what is read of files in which `m` is searched for: a letter is a line that arrives, `|` ends a file
/// and opens the next one. Behind each stands `+` where enough was read then, and else `-`.
const ENOUGH: &str = r"---1-1 m-a+b+
--l--- a-m+
--q--- a-|-m+|+
--c2-- m-m+
------ m-a-m-";

/// A result arrives while a file is open, and has this answer.
pub(crate) fn arrives_as(
    rt: &impl Abort,
    sequencer: &mut Sequencer,
    file: u32,
    count: u64,
    found: BlockResult,
    arrival: Arrival,
)
    requires { IsReading sequencer.old file count }
    ensures { IsReading sequencer.new file count }
{
    let answer = sequencer.arrive(found);
    assert_eq!(rt; answer, arrival);
}

/// Announces the next block, a line of one letter. Its result arrives.
fn read_line(
    rt: &impl Abort,
    alloc: Global,
    query: &Query,
    sequencer: &mut Sequencer,
    file: u32,
    number: u64,
    letter: u8,
)
    requires reading { IsReading sequencer.old file number }
    requires few { number < 100 }
    ensures { IsReading sequencer.new file (number + 1) }
{
    let line = [letter, b'\n'];
    announce_block(alloc, sequencer, file, number, &line).expect(rt, "memory");
    let found = search(alloc, query, file, number, &line).expect(rt, "memory");
    arrives_as(rt, sequencer, file, number + 1, found, Arrival::Taken);
}

/// Reads on by a letter: a line arrives, or the file ends and the next one is opened. Answers which file is open then,
/// and how many of its blocks were announced.
fn read_on(
    rt: &impl Abort,
    alloc: Global,
    query: &Query,
    sequencer: &mut Sequencer,
    file: u32,
    number: u64,
    letter: u8,
) -> (u32, u64)
    requires reading { IsReading sequencer.old file number }
    requires few { (file < 100) × (number < 100) }
    ensures { IsReading sequencer.new result.0 result.1 }
{
    if letter == b'|' {
        open_next(sequencer, file).expect(rt, "memory");
        (file + 1, 0)
    } else {
        read_line(rt, alloc, query, sequencer, file, number, letter);
        (file, number + 1)
    }
}

/// Reads on by the letter of a step, as `read_on` does.
fn read_step(
    rt: &impl Abort,
    alloc: Global,
    query: &Query,
    sequencer: &mut Sequencer,
    file: u32,
    number: u64,
    step: &[u8],
) -> (u32, u64)
    requires { IsReading sequencer.old file number }
    ensures { IsReading sequencer.new result.0 result.1 }
{
    let [letter, b'+' | b'-'] = step else {
        panic!(rt; "a letter and a sign");
    };
    assert!(rt; file < 100 && number < 100);
    read_on(rt, alloc, query, sequencer, file, number, *letter)
}

/// What was read is enough where the steps say so. The sequencer's first file is open without a block.
fn assert_steps(
    rt: &impl Abort,
    alloc: Global,
    query: &Query,
    sequencer: &mut Sequencer,
    steps: &str,
)
    requires { IsReading sequencer.old 0 0 }
{
    let mut file = 0;
    let mut number = 0;
    for step in steps.as_bytes().chunks(2) {
        let place = read_step(rt, alloc, query, sequencer, file, number, step);
        file = place.0;
        number = place.1;
        assert!(rt; sequencer.enough() == step.ends_with(b"+"), "{steps}");
    }
}

/// What was read is enough where the row says so.
fn assert_enough(rt: &impl Abort, alloc: Global, row: &str) {
    let (letters, steps) = cut(rt, row, " ");
    let query = query_of(alloc, b"m").expect(rt, "memory");
    let format = format_of(rt, letters);
    let mut sequencer = new_sequencer(alloc, &query, format).expect(rt, "memory");
    open_file(&mut sequencer, 0, b"f").expect(rt, "memory");
    assert_steps(rt, alloc, &query, &mut sequencer, steps);
}

#[test]
fn enough_was_read(rt: HostRuntime) {
    for row in ENOUGH.lines() {
        assert_enough(&rt, rt.alloc(), row);
    }
}
