//! Runs of selected lines, as they are put together.
ghost use Rattle.std.specs.Prelude.{◌≡◌, ◌+◌, ◌<◌, ◌≤◌, ◌++◌, ◌∷◌, [], IfOk, OnOk, length, drop, slice_range, nat_lt};
ghost use Rattle.std.specs.Prelude.{if◌then◌else◌};
ghost use Rattle.pg_blocks.specs.Lines.{lines};
ghost use Rattle.pg_selection.specs.Search.{Search, terminator};
ghost use Rattle.pg_prefilter.specs.NextHits.{IsNextLine};
ghost use Rattle.pg_lines.specs.Gathered.{IsGathered};

use pg_blocks::{Span, count_lines};
use pg_selection::Run;
use std::alloc::{AllocError, Allocator};

/// Keeps a run, unless it is empty. A refused request for memory is the only error.
pub(crate) fn push_run<A: Allocator>(runs: &mut Vec<Run, A>, run: Run) -> Result<(), AllocError>
    ensures { OnOk result (runs.new.items ≡ runs.old.items
        ++ (if nat_lt run.span.start run.span.end then run ∷ [] else [])) }
{
    if run.span.start < run.span.end {
        runs.push(run)?;
    }
    Ok(())
}

/// The run of a line that starts at or behind the end of the run before it, up to which there are no more lines than
/// bytes.
fn run_behind(end: u8, bytes: &[u8], run: Run, line: Span) -> Run
    requires few { run.first + run.count ≤ run.span.end }
    requires apart { run.span.end ≤ line.start }
    requires within { line.start ≤ length bytes.now }
    ensures span { result.span ≡ line }
    ensures first { result.first
        ≡ run.first + run.count + length (lines end (slice_range bytes.now run.span.end line.start)) }
    ensures count { result.count ≡ 1 }
    ensures few { result.first ≤ line.start }
{
    Run {
        span: line,
        first: run.first + run.count + count_lines(end, &bytes[run.span.end..line.start]),
        count: 1,
    }
}

/// The open run with the next selected line, which starts at or behind its end. Where bytes stand between them the run
/// is closed, and the line opens another. Up to the end of a run there are no more lines than bytes. A refused request
/// for memory is the only error.
pub(crate) fn with_line<A: Allocator>(
    runs: &mut Vec<Run, A>,
    run: Run,
    end: u8,
    bytes: &[u8],
    line: Span,
) -> Result<Run, AllocError>
    requires few { run.first + run.count ≤ run.span.end }
    requires within { (run.span.end ≤ line.start) × (line.start < line.end) × (line.end ≤ length bytes.now) }
    ensures stop { IfOk result (λ longer. longer.span.end ≡ line.end) }
    ensures few { IfOk result (λ longer. (0 < longer.count) × (longer.first + longer.count ≤ longer.span.end)) }
    ensures gathered { (q : Search) → end ≡ terminator q → IsGathered q bytes.now runs.old.items run
        → IsNextLine q run.span.end (drop run.span.end bytes.now) line
        → IfOk result (IsGathered q bytes.now runs.new.items) }
{
    if run.span.end < line.start {
        push_run(runs, run)?;
        Ok(run_behind(end, bytes, run, line))
    } else {
        let span = Span {
            start: run.span.start,
            end: line.end,
        };
        Ok(Run {
            span,
            first: run.first,
            count: run.count + 1,
        })
    }
}

/// The run of all lines from one place up to another, behind so many lines, which are no more than the bytes before it.
pub(crate) fn run_between(end: u8, bytes: &[u8], at: usize, stop: usize, first: usize) -> Run
    requires few { first ≤ at }
    requires within { (at ≤ stop) × (stop ≤ length bytes.now) }
    ensures span { (result.span.start ≡ at) × (result.span.end ≡ stop) }
    ensures first { result.first ≡ first }
    ensures count { result.count ≡ length (lines end (slice_range bytes.now at stop)) }
    ensures few { first + result.count ≤ stop }
{
    Run {
        span: Span {
            start: at,
            end: stop,
        },
        first,
        count: count_lines(end, &bytes[at..stop]),
    }
}
