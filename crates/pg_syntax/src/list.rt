//! The trees of all patterns of some lists.
ghost use Rattle.std.specs.Prelude.{◌≡◌, ◌++◌, [], ◌∷◌, ◌==◌, map, position, IfOk, IfErr, OnOk};
ghost use Rattle.pg_pattern.specs.Trees.{pattern};
ghost use Rattle.pg_grammar.specs.Memory.{patterns_of};
ghost use Rattle.pg_grammar.specs.PatternLists.{patterns, patterns_in, split};
ghost use Rattle.pg_bytes.specs.Lines.{lines};
ghost use Rattle.pg_grammar.specs.Slices.{bytes_of, last_line};
ghost use Rattle.pg_grammar.specs.Results.{IsSpelled, IsFault};
ghost use Rattle.pg_grammar.specs.ListResults.{AreSpelled, IsListFault};

use crate::parser::{fixed, parse_bre, parse_ere};
use pg_grammar::{FaultKind, Kind, ListFault, PatternList, SyntaxFault};
use pg_pattern::Tree;
use std::alloc::{AllocError, Allocator};

/// The trees of all patterns, in their order, each as the parser of its kind answers it.
///
/// A `Text` is split at its newlines, so that it has one pattern more than it has newlines; of
/// `Lines` each line is a pattern, and the last one needs no newline (XCU grep, -e and -f).
///
/// The fault is that of the first pattern that has one. For want of memory the pattern's number and
/// the offset are 0.
pub fn parse_list<A: Allocator + Copy>(
    alloc: A,
    kind: Kind,
    lists: &[PatternList<A>],
    fold: bool,
) -> Result<Vec<Tree<A>, A>, ListFault>
    ensures spelled { IfOk result
        (λ trees. AreSpelled kind fold (patterns (map patterns_of lists.now)) (map pattern trees.items)) }
    ensures refused { IfErr result
        (λ fault. IsListFault kind fold (patterns (map patterns_of lists.now)) fault) }
{
    let texts = texts_of(alloc, lists)?;
    let trees = parse_texts(alloc, kind, texts.as_slice(), fold)?;
    Ok(trees)
}

/// The texts of all patterns, in their order, split as [`parse_list`] splits them. A refused request for memory is the
/// only error.
pub fn texts_of<A: Allocator + Copy>(
    alloc: A,
    lists: &[PatternList<A>],
) -> Result<Vec<&[u8], A>, AllocError>
    ensures { IfOk result (λ texts. bytes_of texts.items ≡ patterns (map patterns_of lists.now)) }
{
    let mut texts = Vec::new(alloc);
    for list in lists {
        push_texts(&mut texts, list)?;
    }
    Ok(texts)
}

/// Appends the texts of a list's patterns.
fn push_texts<'a, A: Allocator + Copy>(
    texts: &mut Vec<&'a [u8], A>,
    list: &'a PatternList<A>,
) -> Result<(), AllocError>
    ensures { OnOk result
        (bytes_of texts.new.items ≡ bytes_of texts.old.items ++ patterns_in (patterns_of list.now)) }
{
    match list {
        PatternList::Text(text) => {
            let last = push_ended(texts, text.as_slice())?;
            texts.push(last)?;
        }
        PatternList::Lines(bytes) => {
            let last = push_ended(texts, bytes.as_slice())?;
            if !last.is_empty() {
                texts.push(last)?;
            }
        }
    }
    Ok(())
}

/// Appends each text that a newline ends, and answers what is left behind the last newline.
fn push_ended<'a, A: Allocator + Copy>(
    texts: &mut Vec<&'a [u8], A>,
    text: &'a [u8],
) -> Result<&'a [u8], AllocError>
    ensures split { IfOk result
        (λ last. bytes_of texts.new.items ++ last.now ∷ [] ≡ bytes_of texts.old.items ++ split text.now) }
    ensures lines { IfOk result
        (λ last. bytes_of texts.new.items ++ last_line last.now ≡ bytes_of texts.old.items ++ lines 10 text.now) }
{
    let mut start = 0;
    while let Some(len) = newline(&text[start..]) {
        let end = start + len;
        texts.push(&text[start..end])?;
        start = end + 1;
    }
    Ok(&text[start..])
}

/// The offset of the first newline.
fn newline(text: &[u8]) -> Option<usize>
    ensures { result ≡ position (λ byte. byte == 10) text.now }
{
    text.iter().position(|byte| *byte == b'\n')
}

/// The trees of some texts, in their order.
fn parse_texts<A: Allocator + Copy>(
    alloc: A,
    kind: Kind,
    texts: &[&[u8]],
    fold: bool,
) -> Result<Vec<Tree<A>, A>, ListFault>
    ensures spelled { IfOk result
        (λ trees. AreSpelled kind fold (bytes_of texts.now) (map pattern trees.items)) }
    ensures refused { IfErr result (λ fault. IsListFault kind fold (bytes_of texts.now) fault) }
{
    let mut trees = Vec::new(alloc);
    for text in texts {
        match parse(alloc, kind, text, fold) {
            Ok(tree) => trees.push(tree)?,
            Err(fault) => {
                let pattern = match fault.kind {
                    FaultKind::OutOfMemory => 0,
                    _ => trees.len() + 1,
                };
                return Err(ListFault { pattern, fault });
            }
        }
    }
    Ok(trees)
}

/// The tree of a text of a kind.
fn parse<A: Allocator + Copy>(
    alloc: A,
    kind: Kind,
    text: &[u8],
    fold: bool,
) -> Result<Tree<A>, SyntaxFault>
    ensures spelled { IfOk result (λ tree. IsSpelled kind fold text.now (pattern tree)) }
    ensures refused { IfErr result (λ fault. IsFault kind fold text.now fault) }
{
    match kind {
        Kind::Basic => parse_bre(alloc, text, fold),
        Kind::Extended => parse_ere(alloc, text, fold),
        Kind::Fixed => fixed(alloc, text, fold),
    }
}
