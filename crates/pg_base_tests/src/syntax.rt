//! Trees of expressions.
use crate::rows::{Question, assert_rows, repeated};
use pg_syntax::{fixed, parse_bre, parse_ere};
use std::alloc::Global;

/// Parsers, a text of which they make a tree as deep as a text can make it, and what tree that is.
const DEEP: &str = r"basic a:4096 => proper
fixed a:4096 => proper
basic *:4096 => proper
fixed *:4096 => proper
basic %0A:4096 => proper
fixed %0A:4096 => proper
basic .:4096 => proper
fixed .:4096 => proper
extended a:1 |a:2047 => proper";

/// Shows what tree a parser makes: `basic`, `extended`, or `fixed`, which folds case.
pub(crate) fn show_tree(alloc: Global, parser: &str, parts: &str, out: &mut String) {
    let text = repeated(alloc, parts);
    let parsed = match parser {
        "basic" => parse_bre(alloc, &text, false),
        "extended" => parse_ere(alloc, &text, false),
        "fixed" => fixed(alloc, &text, true),
        _ => return,
    };
    let shown = match &parsed {
        Ok(tree) if tree.is_proper() => "proper",
        _ => "not proper",
    };
    let _ = out.push_str(shown);
}

/// Trees as deep as a text can make them are walked and dropped.
#[test]
fn deep_trees(rt: HostRuntime) {
    assert_rows(&rt, rt.alloc(), Question::DeepTree, DEEP);
}
