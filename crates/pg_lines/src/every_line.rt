//! Queries by which each line has a hit, as by an empty pattern.
ghost use Rattle.std.specs.Prelude.{◌≡◌, map, IfOk, IsTrue, false};
ghost use Rattle.pg_selection.specs.Searched.{IsFound};
ghost use Rattle.pg_lines.specs.Finding.{HitsEachLine};
ghost use Rattle.pg_prefilter.specs.Literals.{AreLiterals, data_of};

use crate::query::Query;
use crate::runs::{push_run, run_between};
use pg_literal::Literal;
use pg_selection::Found;
use std::alloc::{AllocError, Allocator};

/// Whether each line has a hit, since one of the query's literals has no byte and is enough.
pub(crate) fn hits_each_line<A: Allocator>(query: &Query<A>, literals: &[Literal<A>]) -> bool
    requires { AreLiterals query.now.text (map data_of literals.now) }
    ensures { IsTrue result → HitsEachLine query.now.text }
{
    literals
        .iter()
        .any(|literal| literal.is_enough && literal.text.is_empty())
}

/// All lines as one run, or none with -v, and their number, where each line has a hit and parts aren't asked for. A
/// refused request for memory is the only error.
pub(crate) fn runs_of_each_line<A: Allocator + Copy>(
    alloc: A,
    query: &Query<A>,
    bytes: &[u8],
) -> Result<Found<A>, AllocError>
    requires each { HitsEachLine query.now.text }
    requires plain { query.now.text.with_parts ≡ false }
    ensures { IfOk result (IsFound query.now.text bytes.now) }
{
    let run = run_between(query.terminator(), bytes, 0, bytes.len(), 0);
    let mut runs = Vec::new(alloc);
    if !query.text().invert {
        push_run(&mut runs, run)?;
    }
    Ok(Found {
        runs,
        parts: Vec::new(alloc),
        lines: run.count,
    })
}
