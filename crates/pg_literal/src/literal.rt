//! The texts of which each line with a hit holds one.
ghost use Rattle.std.specs.Prelude.{◌≡◌, ◌<◌, ℕ, List, [], length, map, reverse, true};
ghost use Rattle.std.specs.Prelude.{IsTrue, IfOk, IfSome, IsSome};
ghost use Rattle.std.specs.List.{All, AllZip};
ghost use Rattle.pg_grammar.specs.Grammar.{Spells};
ghost use Rattle.pg_pattern.specs.Trees.{pattern};
ghost use Rattle.pg_grammar.specs.declared.pattern_list.Kind.TheVariants.{Fixed};
ghost use Rattle.pg_pattern.specs.declared.bounds.Bounds.TheVariants.{Any};
ghost use Rattle.pg_literal.specs.Literals.{as_searched, AreNeeded, AreHeads, AreEnough, AreTexts};
ghost use Rattle.pg_literal.specs.Rows.{row_of, Multiplies};
ghost use Rattle.pg_literal.specs.Added.{Adds, AddsOnly};

use crate::cost::{FEW_TEXTS, finding_cost, passing_cost};
use crate::inner::inner_of;
use crate::known::{MatchFacts, with_tree};
use crate::row::{Expansion, WIDE, texts_of};
use pg_bytes::ByteSet;
use pg_pattern::{Bounds, Tree};
use std::alloc::{AllocError, Allocator, Global};

/// Texts of so many bytes are long enough where there are at most 8.
const PLENTY: usize = 3;

/// Up to 8 trees or alternatives may give so many texts together.
const MOST_OF_FEW: usize = 256;

/// Where there are more, each may give so many.
const MOST_OF_ONE: usize = 16;

/// Trees and alternatives give no more texts together, unless there are more of them.
const MOST: usize = 4_096;

/// One of the texts that were found for some trees: each line with a hit holds at least one of them.
#[derive(Drop)]
pub struct Literal<A: Allocator = Global> {
    /// The bytes, as they stand in the line; where case is folded, as they stand in the line in lower case.
    pub text: Vec<u8, A>,
    /// Each line that holds the text has a hit.
    pub is_enough: bool,
    /// Each match for which this text stands begins with it, and isn't empty.
    pub is_head: bool,
}

impl<A: Allocator + Copy> Literal<A> {
    /// Texts of which each line holds at least one in which some tree matches a span within the bounds. An empty list
    /// says nothing: no such texts were found.
    ///
    /// With `fold` the case of letters is folded, as it was for the trees. Each tree gives one text, and each
    /// alternative of a tree that is an alternation. Where those are more than 8, and not all are enough, longer ones
    /// are taken, for which sets of a few bytes are multiplied out: `gr[ae]y` gives `gray` and `grey`, where else it
    /// gives `gr`. Each tree or alternative gives up to 16 texts then. Where they are fewer, and some of them shorter
    /// than 3 bytes, up to 256 texts together are taken instead if they cost less to look for. Either way a tree may
    /// give the texts of an alternation within it that each match passes: `[0-9]+-(foo|bar)` gives `foo` and `bar`,
    /// where else it gives `-`. The trees of plain fixed strings give those strings, in their order; where the bounds
    /// aren't `Any` and one string is empty, there are none. A refused request for memory is the only error.
    pub fn of(
        alloc: A,
        trees: &[Tree<A>],
        bounds: Bounds,
        fold: bool,
    ) -> Result<Vec<Literal<A>, A>, AllocError>
        ensures needed { IfOk result (λ literals. 0 < length literals.items
            → AreNeeded fold (map pattern trees.now) bounds literals.items) }
        ensures heads { IfOk result (λ literals. 0 < length literals.items
            → All (λ literal. IsTrue literal.is_head) literals.items
            → AreHeads fold (map pattern trees.now) bounds literals.items) }
        ensures enough { IfOk result (λ literals. AreEnough fold (map pattern trees.now) bounds literals.items) }
        ensures exact { IfOk result (λ literals. (texts : List (List ℕ))
            → AllZip (Spells Fixed fold) texts (map pattern trees.now) → 0 < length literals.items
            → map (λ literal. literal.text.items) literals.items ≡ map (as_searched fold) texts) }
        ensures fixed { IfOk result (λ literals. (texts : List (List ℕ))
            → AllZip (Spells Fixed fold) texts (map pattern trees.now) → bounds ≡ Any
            → AreTexts (map (as_searched fold) texts) literals.items) }
    {
        let literals = literals_of(alloc, trees, bounds, single(fold))?;
        let expansion = wider(fold, trees.len().max(literals.len()));
        if expansion.most <= 1 || are_good(&literals) {
            return Ok(literals);
        }
        let others = literals_of(alloc, trees, bounds, expansion)?;
        if are_better(&others, &literals) {
            Ok(others)
        } else {
            Ok(literals)
        }
    }
}

/// Each row becomes one text.
pub(crate) fn single(fold: bool) -> Expansion
    ensures { result.fold ≡ fold }
{
    Expansion {
        fold,
        most: 1,
        plenty: WIDE,
        unites: false,
    }
}

/// Rows of so many trees or alternatives may become several texts.
pub(crate) fn wider(fold: bool, count: usize) -> Expansion
    ensures { result.fold ≡ fold }
{
    if count <= FEW_TEXTS {
        Expansion {
            fold,
            most: MOST_OF_FEW / count.max(1),
            plenty: PLENTY,
            unites: false,
        }
    } else {
        Expansion {
            fold,
            most: MOST_OF_ONE.min(MOST / count),
            plenty: WIDE,
            unites: false,
        }
    }
}

/// Whether no better texts are looked for: there are some, and they are all enough, or few and long enough.
fn are_good<A: Allocator>(literals: &[Literal<A>]) -> bool {
    let are_enough = literals.iter().all(|literal| literal.is_enough);
    let are_long = literals.iter().all(|literal| literal.text.len() >= PLENTY);
    !literals.is_empty() && (are_enough || are_long && literals.len() <= FEW_TEXTS)
}

/// Whether others are better than some literals: they cost less to look for, or there are more than 8, and longer ones
/// are wanted in any case.
fn are_better<A: Allocator>(others: &[Literal<A>], literals: &[Literal<A>]) -> bool {
    if literals.len() > FEW_TEXTS {
        !others.is_empty()
    } else {
        cost_of(others) < cost_of(literals)
    }
}

/// What it costs to look for texts.
pub(crate) fn cost_of<A: Allocator>(literals: &[Literal<A>]) -> usize {
    let mut cost = passing_cost(literals.len());
    for literal in literals {
        cost = cost.saturating_add(finding_cost(&literal.text, literal.is_enough));
    }
    cost
}

/// The literals of some trees; none where a tree has none. Each tree gives as many texts as its rows may become, and so
/// does each alternative of an alternation.
fn literals_of<A: Allocator + Copy>(
    alloc: A,
    trees: &[Tree<A>],
    bounds: Bounds,
    expansion: Expansion,
) -> Result<Vec<Literal<A>, A>, AllocError>
    ensures needed { IfOk result (λ literals. 0 < length literals.items
        → AreNeeded expansion.fold (map pattern trees.now) bounds literals.items) }
    ensures heads { IfOk result (λ literals. 0 < length literals.items
        → All (λ literal. IsTrue literal.is_head) literals.items
        → AreHeads expansion.fold (map pattern trees.now) bounds literals.items) }
    ensures enough { IfOk result
        (λ literals. AreEnough expansion.fold (map pattern trees.now) bounds literals.items) }
    ensures exact { IfOk result (λ literals. (texts : List (List ℕ))
        → AllZip (Spells Fixed expansion.fold) texts (map pattern trees.now) → 0 < length literals.items
        → map (λ literal. literal.text.items) literals.items ≡ map (as_searched expansion.fold) texts) }
    ensures fixed { IfOk result (λ literals. (texts : List (List ℕ))
        → AllZip (Spells Fixed expansion.fold) texts (map pattern trees.now) → bounds ≡ Any
        → AreTexts (map (as_searched expansion.fold) texts) literals.items) }
{
    let mut literals = Vec::new(alloc);
    for tree in trees {
        let Some(mut own) = literals_of_tree(alloc, tree, bounds, expansion)? else {
            return Ok(Vec::new(alloc));
        };
        literals.append(&mut own)?;
    }
    Ok(literals)
}

/// The literals of a tree, where it has some: its own, or those of an alternation within it where they cost less. Where
/// a row becomes but one text, no alternation is looked for.
fn literals_of_tree<A: Allocator + Copy>(
    alloc: A,
    tree: &Tree<A>,
    bounds: Bounds,
    expansion: Expansion,
) -> Result<Option<Vec<Literal<A>, A>>, AllocError>
    ensures adds { IfOk result (λ found. IfSome found
        (λ own. Adds expansion.fold bounds (pattern tree.now) [] own.items)) }
    ensures fixed { (text : List ℕ) → Spells Fixed expansion.fold text (pattern tree.now) → bounds ≡ Any
        → IfOk result IsSome }
{
    let mut own = Vec::new(alloc);
    let found = push_literals(alloc, tree, bounds, expansion, &mut own)?;
    if expansion.most > 1 && !(found && are_good(&own)) {
        let inner = inner_of(alloc, tree, expansion.fold, Vec::new(alloc))?;
        if !inner.is_empty() && !(found && cost_of(&own) <= cost_of(&inner)) {
            return Ok(Some(inner));
        }
    }
    if found { Ok(Some(own)) } else { Ok(None) }
}

/// Adds the literals of a tree's alternatives, the last one first. Where one of them has none, the answer is false.
///
/// The left spine of an alternation may be as long as a text, so a loop walks it.
pub(crate) fn push_literals<A: Allocator + Copy>(
    alloc: A,
    tree: &Tree<A>,
    bounds: Bounds,
    expansion: Expansion,
    literals: &mut Vec<Literal<A>, A>,
) -> Result<bool, AllocError>
    ensures adds { IfOk result (λ found. IsTrue found
        → Adds expansion.fold bounds (pattern tree.now) literals.old.items literals.new.items) }
    ensures fixed { (text : List ℕ) → Spells Fixed expansion.fold text (pattern tree.now) → bounds ≡ Any
        → IfOk result IsTrue }
{
    let mut tree = tree;
    while let Tree::Alt(first, second) = tree {
        let found = push_literals(alloc, second, bounds, expansion, literals)?;
        if !found {
            return Ok(false);
        }
        tree = first;
    }
    let found = push_tree(alloc, tree, bounds, expansion, literals)?;
    Ok(found)
}

/// Adds the literals of a tree that isn't looked into for alternatives. Where it has none, the answer is false.
fn push_tree<A: Allocator + Copy>(
    alloc: A,
    tree: &Tree<A>,
    bounds: Bounds,
    expansion: Expansion,
    literals: &mut Vec<Literal<A>, A>,
) -> Result<bool, AllocError>
    ensures adds { IfOk result (λ found. IsTrue found
        → Adds expansion.fold bounds (pattern tree.now) literals.old.items literals.new.items) }
    ensures fixed { (text : List ℕ) → Spells Fixed expansion.fold text (pattern tree.now) → bounds ≡ Any
        → IfOk result IsTrue }
{
    let known = with_tree(alloc, tree, expansion, MatchFacts::nothing(alloc))?;
    if let Some(text) = known.only_text(alloc, expansion.fold)? {
        let found = push_text(text, bounds, literals)?;
        return Ok(found);
    }
    let chosen = known.chosen(bounds, expansion);
    let row = &chosen.row[chosen.window.start..chosen.window.stop];
    if row.is_empty() {
        return Ok(false);
    }
    let found = push_row(
        alloc,
        row,
        expansion.fold,
        chosen.is_enough,
        chosen.is_head,
        literals,
    )?;
    Ok(found)
}

/// Adds a text that each match is, which lies backwards. Where it is empty and not every match counts, it tells
/// nothing, and the answer is false.
fn push_text<A: Allocator + Copy>(
    mut text: Vec<u8, A>,
    bounds: Bounds,
    literals: &mut Vec<Literal<A>, A>,
) -> Result<bool, AllocError>
    ensures adds { IfOk result (λ found. IsTrue found
        → AddsOnly bounds (reverse text.items) literals.old.items literals.new.items) }
    ensures any { bounds ≡ Any → IfOk result IsTrue }
{
    let is_enough = bounds == Bounds::Any;
    let is_head = !text.is_empty();
    if !is_enough && !is_head {
        return Ok(false);
    }
    text.reverse();
    literals.push(Literal {
        text,
        is_enough,
        is_head,
    })?;
    Ok(true)
}

/// Adds the texts that a row becomes, with two flags. Where it becomes none, the answer is false.
fn push_row<A: Allocator + Copy>(
    alloc: A,
    row: &[ByteSet],
    fold: bool,
    is_enough: bool,
    is_head: bool,
    literals: &mut Vec<Literal<A>, A>,
) -> Result<bool, AllocError>
    ensures { IfOk result (λ found. IsTrue found
        → Multiplies fold (row_of row.now) is_enough is_head literals.old.items literals.new.items) }
{
    let Some(texts) = texts_of(alloc, row, fold)? else {
        return Ok(false);
    };
    for backwards in &texts {
        let mut text = backwards.to_vec(alloc)?;
        text.reverse();
        literals.push(Literal {
            text,
            is_enough,
            is_head,
        })?;
    }
    Ok(true)
}
