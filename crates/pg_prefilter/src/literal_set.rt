//! Many literals, prepared to be looked for together.
ghost use Rattle.std.specs.Prelude.{◌≡◌, ◌⊎◌, ◌<◌, ◌≤◌, [], length, map, IsTrue, IfOk, IfSome, IsSomeAnd};
ghost use Rattle.std.specs.List.{All};
ghost use Rattle.pg_pattern.specs.Strings.{items_of};
ghost use Rattle.pg_strings.specs.Outcomes.{strings_of};
ghost use Rattle.pg_prefilter.specs.Enough.{AreSomeOf, IsOneEnough, strings_if_some};

use pg_literal::{FEW_TEXTS, Literal};
use pg_pattern::Bounds;
use pg_strings::{Budget, Rate, StringSet};
use std::alloc::{AllocError, Allocator, Global};

/// What a search of a block for one of many literals may spend on comparing them, beyond what the bytes that are passed
/// add.
const BLOCK_BUDGET: usize = 65_536;

/// What such a search may spend where the literals' automaton is small: soon, where one may begin at nearly each place,
/// the rest of the block is the automaton's.
const SMALL_BUDGET: usize = 1_024;

/// Fixed strings of at most so many bytes together have an automaton whose sets of states all fit into its cache: there
/// is one for each beginning of a string, and with -w and -o there may be two.
const FEW_BYTES: usize = 120;

/// Many literals, none of them empty, prepared to be looked for together.
#[derive(Drop)]
pub struct LiteralSet<A: Allocator = Global> {
    pub strings: StringSet<A>,
    /// Each of them is enough: a line that holds it has a hit.
    pub is_enough: bool,
    /// Those that are enough, where some are and others aren't.
    pub(crate) enough: Option<StringSet<A>>,
    /// They are what all patterns of the query spell, each of which is bytes one behind the other.
    pub is_fixed: bool,
    /// The automaton of the query's patterns is small: its cache holds all sets of its states.
    has_small_automaton: bool,
    ghost some: { 0 < length (strings_of strings) },
    ghost among: { AreSomeOf (strings_of strings) (strings_if_some enough) },
}

/// Copies of the texts of literals.
fn copies_of<A: Allocator + Copy>(
    alloc: A,
    literals: &[Literal<A>],
) -> Result<Vec<Vec<u8, A>, A>, AllocError>
    ensures { IfOk result (λ copies. map items_of copies.items ≡ map (λ literal. literal.text.items) literals.now) }
{
    let mut copies = Vec::new(alloc);
    for literal in literals {
        copies.push(literal.text.to_vec(alloc)?)?;
    }
    Ok(copies)
}

/// Whether some literal is empty.
pub(crate) fn has_empty<A: Allocator>(literals: &[Literal<A>]) -> bool
    ensures { IsTrue result ⊎ All (λ literal. 1 ≤ length literal.text.items) literals.now }
{
    literals.iter().any(|literal| literal.text.is_empty())
}

/// Whether each literal has at most two bytes.
fn are_all_short<A: Allocator>(literals: &[Literal<A>]) -> bool {
    literals.iter().all(|literal| literal.text.len() <= 2)
}

/// Whether literals have few bytes together.
fn have_few_bytes<A: Allocator>(literals: &[Literal<A>]) -> bool {
    let mut bytes = 0usize;
    for literal in literals {
        bytes = bytes.saturating_add(literal.text.len());
    }
    bytes <= FEW_BYTES
}

/// Whether each literal is enough.
fn are_all_enough<A: Allocator>(literals: &[Literal<A>]) -> bool
    ensures { IsTrue result → All (λ literal. IsTrue literal.is_enough) literals.now }
{
    literals.iter().all(|literal| literal.is_enough)
}

/// Copies of the texts of those literals that are enough.
fn copies_of_enough<A: Allocator + Copy>(
    alloc: A,
    literals: &[Literal<A>],
) -> Result<Vec<Vec<u8, A>, A>, AllocError>
    ensures { IfOk result (λ copies. All (λ copy. IsOneEnough literals.now copy.items) copies.items) }
{
    let mut texts = Vec::new(alloc);
    for literal in literals {
        if literal.is_enough {
            texts.push(literal.text.to_vec(alloc)?)?;
        }
    }
    Ok(texts)
}

/// The set of those literals that are enough, where some are and others aren't. None of the literals is empty.
fn enough_of<A: Allocator + Copy>(
    alloc: A,
    literals: &[Literal<A>],
) -> Result<Option<StringSet<A>>, AllocError>
    requires { All (λ literal. 1 ≤ length literal.text.items) literals.now }
    ensures { IfOk result (λ found. All (IsOneEnough literals.now) (strings_if_some found)) }
{
    let is_mixed = !are_all_enough(literals) && literals.iter().any(|literal| literal.is_enough);
    if !is_mixed {
        return Ok(None);
    }
    let set = StringSet::new(alloc, copies_of_enough(alloc, literals)?)?;
    Ok(Some(set))
}

impl<A: Allocator + Copy> LiteralSet<A> {
    /// The set of more than 8 literals, unless one is empty, with a flag that says whether they are what all patterns
    /// spell, each of which is bytes one behind the other. Words of one or two bytes have none: they stand nearly
    /// everywhere within other words, where the automaton is faster. A refused request for memory is the only error.
    pub(crate) fn of(
        alloc: A,
        literals: &[Literal<A>],
        is_fixed: bool,
        bounds: Bounds,
    ) -> Result<Option<LiteralSet<A>>, AllocError>
        ensures strings { IfOk result (λ found. IfSome found (λ set. strings_of set.strings
            ≡ map (λ literal. literal.text.items) literals.now)) }
        ensures enough { IfOk result (λ found. IfSome found (λ set. IsTrue set.is_enough
            → All (λ literal. IsTrue literal.is_enough) literals.now)) }
        ensures some_enough { IfOk result (λ found. IfSome found
            (λ set. All (IsOneEnough literals.now) (strings_if_some set.enough))) }
        ensures fixed { IfOk result (λ found. IfSome found (λ set. set.is_fixed ≡ is_fixed)) }
    {
        let are_dense = bounds == Bounds::Word && are_all_short(literals);
        if literals.len() <= FEW_TEXTS || has_empty(literals) || are_dense {
            return Ok(None);
        }
        let strings = StringSet::new(alloc, copies_of(alloc, literals)?)?;
        let is_enough = are_all_enough(literals);
        let enough = enough_of(alloc, literals)?;
        let has_small_automaton = is_fixed && have_few_bytes(literals);
        Ok(Some(LiteralSet {
            strings,
            is_enough,
            enough,
            is_fixed,
            has_small_automaton,
        }))
    }
}

impl<A: Allocator> LiteralSet<A> {
    /// What a search of a block for one of the literals may spend.
    pub(crate) fn block_budget(&self) -> Budget {
        if self.has_small_automaton {
            Budget {
                left: SMALL_BUDGET,
                rate: Rate::Low,
            }
        } else {
            Budget {
                left: BLOCK_BUDGET,
                rate: Rate::High,
            }
        }
    }
}

/// The strings of a set that are the patterns of a query.
pub fn fixed_strings<'l, A: Allocator>(set: Option<&'l LiteralSet<A>>) -> Option<&'l StringSet<A>>
    ensures { IfSome result (λ strings. IsSomeAnd set.entry (λ set. IsTrue set.now.is_fixed
        × (strings.now ≡ set.now.strings))) }
{
    match set {
        Some(set) => {
            if set.is_fixed {
                Some(&set.strings)
            } else {
                None
            }
        }
        None => None,
    }
}

/// At most 8 literals; none where there are more.
pub(crate) fn few_of<A: Allocator>(alloc: A, literals: Vec<Literal<A>, A>) -> Vec<Literal<A>, A>
    ensures { (result ≡ literals) ⊎ (result.items ≡ []) }
{
    if literals.len() <= FEW_TEXTS {
        literals
    } else {
        Vec::new(alloc)
    }
}
