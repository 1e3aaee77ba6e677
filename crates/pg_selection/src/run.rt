//! What a search finds in a block.
use pg_blocks::Span;
use std::alloc::Allocator;

/// A run of selected lines of a block that are neighbours, with their terminators.
#[derive(Clone, Copy, Debug, PartialEq, Eq)]
pub struct Run {
    pub span: Span,
    /// How many lines of the block stand before it.
    pub first: usize,
    /// How many lines it has.
    pub count: usize,
}

/// A matched part of a selected line of a block.
#[derive(Clone, Copy, Debug, PartialEq, Eq)]
pub struct Part {
    /// How many lines of the block stand before its line.
    pub line: usize,
    pub span: Span,
}

/// All that a search finds in a block.
#[derive(Drop)]
pub struct Found<A: Allocator> {
    /// The selected lines, as runs of neighbours.
    pub runs: Vec<Run, A>,
    /// The matched parts of the selected lines, where they are asked for.
    pub parts: Vec<Part, A>,
    /// How many lines the block has.
    pub lines: usize,
}
