//! What is known of the matches of trees in a row.
ghost use Rattle.std.specs.Prelude.{◌≡◌, ◌≤◌, ℕ, Bool, List, [], ◌∷◌, map, min, reverse, IsTrue, IfOk, IfSome};
ghost use Rattle.std.specs.Prelude.{IsSomeAnd};
ghost use Rattle.pg_bytes.specs.ByteSets.{bytes};
ghost use Rattle.pg_pattern.specs.Patterns.{Begin, End, Set};
ghost use Rattle.pg_pattern.specs.Trees.{pattern};
ghost use Rattle.pg_literal.specs.Literals.{as_searched};
ghost use Rattle.pg_literal.specs.Fronts.{IsFronted};
ghost use Rattle.pg_literal.specs.Rows.{AreProduct, row_along};
ghost use Rattle.pg_literal.specs.Known.{head_of, sets_of, IsNothing, Extends, Hides, HidesLast, HidesOthers};
ghost use Rattle.pg_literal.specs.Known.{IsChosen, LacksFirst, MatchesEmpty, Repeats};

use crate::alternatives::row_of_alternatives;
use crate::row::{Expansion, Window, Worth, only_text, widest, widest_or_whole};
use crate::sets::set_of;
use pg_bytes::ByteSet;
use pg_pattern::{Bounds, Tree};
use std::alloc::{AllocError, Allocator};

/// Of a repeated set so many rounds are looked at.
const ROUNDS: u8 = 32;

/// What is known of the matches of some trees in a row.
///
/// Both rows lie backwards: trees are read from right to left, so that each set found is pushed.
#[derive(Drop)]
pub(crate) struct MatchFacts<A: Allocator> {
    /// Each match begins with a byte of each of these sets, one behind the other.
    pub head: Vec<ByteSet, A>,
    /// Bytes of these sets stand so in each match: the row with the best part found further right.
    pub best: Vec<ByteSet, A>,
    /// How well that part serves.
    pub best_worth: Worth,
    /// Wherever the head stands, a match begins.
    pub is_sure: bool,
    /// Wherever the other row stands, a match begins.
    pub is_best_sure: bool,
}

/// A part of a row, to be multiplied out into texts.
#[derive(Drop)]
pub(crate) struct ChosenPart<A: Allocator> {
    /// The whole row, backwards.
    pub row: Vec<ByteSet, A>,
    pub window: Window,
    /// Wherever the part stands, a match begins that counts.
    pub is_enough: bool,
    /// Each match begins with the part, which isn't empty.
    pub is_head: bool,
}

impl<A: Allocator + Copy> MatchFacts<A> {
    /// What is known of no tree, which matches the empty string everywhere.
    pub fn nothing(alloc: A) -> MatchFacts<A>
        ensures { IsNothing result }
    {
        MatchFacts {
            head: Vec::new(alloc),
            best: Vec::new(alloc),
            best_worth: Worth::nothing(),
            is_sure: true,
            is_best_sure: false,
        }
    }

    /// With a byte of a set in front.
    fn with_set(mut self, set: &ByteSet) -> Result<MatchFacts<A>, AllocError>
        ensures { (fold : Bool) → IfOk result (Extends fold (Set (bytes set.now)) self) }
    {
        self.head.push(*set)?;
        self.is_best_sure = false;
        Ok(self)
    }

    /// With an anchor in front. Both rows also stand where none holds.
    fn with_anchor(mut self) -> MatchFacts<A>
        ensures begin { (fold : Bool) → Extends fold Begin self result }
        ensures end { (fold : Bool) → Extends fold End self result }
    {
        self.is_sure = false;
        self.is_best_sure = false;
        self
    }

    /// With something in front of which nothing is known, unless that it is optional: it matches the empty string
    /// everywhere.
    fn hidden(self, alloc: A, expansion: Expansion, is_optional: bool) -> MatchFacts<A>
        ensures { Hides is_optional self result }
    {
        let is_sure = is_optional && self.is_sure && self.head.is_empty();
        let worth = widest(&self.head, expansion).worth;
        if worth.is_below(self.best_worth) {
            MatchFacts {
                head: Vec::new(alloc),
                best: self.best,
                best_worth: self.best_worth,
                is_sure,
                is_best_sure: is_optional && self.is_best_sure,
            }
        } else {
            MatchFacts {
                head: Vec::new(alloc),
                best: self.head,
                best_worth: worth,
                is_sure,
                is_best_sure: is_optional && self.is_sure,
            }
        }
    }

    /// With bytes of a row of sets in front, the first one first, as matches of alternatives have them.
    fn with_row(mut self, mut row: Vec<ByteSet, A>) -> Result<MatchFacts<A>, AllocError>
        ensures { IfOk result (IsFronted (row_along row.items) self) }
    {
        row.reverse();
        self.head.extend_from_slice(&row)?;
        Ok(MatchFacts {
            head: self.head,
            best: self.best,
            best_worth: self.best_worth,
            is_sure: false,
            is_best_sure: false,
        })
    }

    /// With all rounds of a repetition in front but its first ones, of which there are so many.
    fn with_other_rounds(
        self,
        alloc: A,
        expansion: Expansion,
        rounds: u8,
        least: u8,
        most: Option<u8>,
    ) -> MatchFacts<A>
        ensures { HidesOthers rounds least most self result }
    {
        if least == rounds && most == Some(rounds) {
            self
        } else {
            self.hidden(alloc, expansion, least == rounds && allows(most, rounds))
        }
    }

    /// With all rounds of a repetition of a set in front but its first ones. What stands behind the repetition follows
    /// its last round, so that this one is part of the row.
    fn with_other_sets(
        self,
        alloc: A,
        set: &ByteSet,
        expansion: Expansion,
        least: u8,
        most: Option<u8>,
    ) -> Result<MatchFacts<A>, AllocError>
        ensures { (fold : Bool) → IfOk result (HidesLast fold (Set (bytes set.now)) (min least 32) least most self) }
    {
        let rounds = least.min(ROUNDS);
        if most == Some(rounds) || self.head.is_empty() {
            Ok(self.with_other_rounds(alloc, expansion, rounds, least, most))
        } else {
            let last = self.with_set(set)?;
            Ok(last.hidden(alloc, expansion, false))
        }
    }

    /// With so many bytes of a set in front.
    fn with_sets(self, set: &ByteSet, count: u8) -> Result<MatchFacts<A>, AllocError>
        ensures { (fold : Bool) → IfOk result (Repeats fold (Set (bytes set.now)) count self) }
    {
        let mut known = self;
        for _round in 0..count {
            known = known.with_set(set)?;
        }
        Ok(known)
    }

    /// The text that each match is, backwards, where there is but one, as for a fixed string.
    pub fn only_text(&self, alloc: A, fold: bool) -> Result<Option<Vec<u8, A>>, AllocError>
        ensures sure { IfOk result (λ found. IfSome found (λ _. IsTrue self.now.is_sure)) }
        ensures product { IfOk result (λ found. IfSome found
            (λ text. AreProduct fold (head_of self.now) (reverse text.items ∷ []))) }
        ensures fixed { (text : List ℕ) → map bytes self.now.head.items ≡ sets_of fold text
            → IsTrue self.now.is_sure → self.now.best.items ≡ []
            → IfOk result (λ found. IsSomeAnd found (λ only. only.items ≡ as_searched fold text)) }
    {
        if !self.is_sure || !self.best.is_empty() {
            return Ok(None);
        }
        let text = only_text(alloc, &self.head, fold)?;
        Ok(text)
    }

    /// The part of a row that serves best: a whole row that is sure, else the better one of the best parts of both.
    pub fn chosen(self, bounds: Bounds, expansion: Expansion) -> ChosenPart<A>
        ensures { IsChosen bounds self result }
    {
        let is_any = bounds == Bounds::Any;
        let head = widest_or_whole(&self.head, expansion, is_any && self.is_sure);
        let best = widest_or_whole(&self.best, expansion, is_any && self.is_best_sure);
        let is_head = head.start < head.stop && head.stop == self.head.len();
        if is_any && self.is_sure && head.len() == self.head.len() {
            ChosenPart {
                row: self.head,
                window: head,
                is_enough: true,
                is_head,
            }
        } else if is_any && self.is_best_sure && best.len() == self.best.len() {
            ChosenPart {
                row: self.best,
                window: best,
                is_enough: true,
                is_head: false,
            }
        } else if !head.worth.is_below(best.worth) {
            ChosenPart {
                row: self.head,
                window: head,
                is_enough: false,
                is_head,
            }
        } else {
            ChosenPart {
                row: self.best,
                window: best,
                is_enough: false,
                is_head: false,
            }
        }
    }
}

/// Whether a greatest count, where there is one, allows so many rounds.
fn allows(most: Option<u8>, rounds: u8) -> bool
    ensures { IsTrue result → IfSome most (λ most. rounds ≤ most) }
{
    match most {
        Some(most) => rounds <= most,
        None => true,
    }
}

/// What is known of a repetition, followed by what was known so far, but for its first round. A repeated set stands in
/// a row, so many of its rounds are known.
fn with_later_rounds<A: Allocator + Copy>(
    alloc: A,
    inner: &Tree<A>,
    least: u8,
    most: Option<u8>,
    expansion: Expansion,
    known: MatchFacts<A>,
) -> Result<MatchFacts<A>, AllocError>
    requires { 1 ≤ least }
    ensures { (fold : Bool) → IfOk result (LacksFirst fold (pattern inner.now) least most known) }
{
    match inner {
        Tree::Set(set) => {
            let hidden = known.with_other_sets(alloc, set, expansion, least, most)?;
            let behind = hidden.with_sets(set, least.min(ROUNDS) - 1)?;
            Ok(behind)
        }
        _ => Ok(known.with_other_rounds(alloc, expansion, 1, least, most)),
    }
}

/// Whether a tree is known to match the empty string everywhere. Where an anchor stands, that isn't known.
///
/// The left spine of the tree may be as long as a text, so a loop walks it.
fn matches_empty<A: Allocator>(tree: &Tree<A>) -> bool
    ensures { IsTrue result → MatchesEmpty (pattern tree.now) }
{
    let mut tree = tree;
    loop {
        match tree {
            Tree::Empty => return true,
            Tree::Set(_) | Tree::Begin | Tree::End => return false,
            Tree::Cat(first, second) => {
                if !matches_empty(second) {
                    return false;
                }
                tree = first;
            }
            Tree::Alt(first, second) => {
                if matches_empty(second) {
                    return true;
                }
                tree = first;
            }
            Tree::Rep(_, least, _) => return *least == 0,
        }
    }
}

/// What is known of a tree, followed by what was known so far.
///
/// The left spine of the tree may be as long as a text, so a loop walks it.
pub(crate) fn with_tree<A: Allocator + Copy>(
    alloc: A,
    tree: &Tree<A>,
    expansion: Expansion,
    mut known: MatchFacts<A>,
) -> Result<MatchFacts<A>, AllocError>
    ensures { (fold : Bool) → IfOk result (Extends fold (pattern tree.now) known) }
{
    let mut tree = tree;
    loop {
        match tree {
            Tree::Empty => return Ok(known),
            Tree::Set(set) => {
                let known = known.with_set(set)?;
                return Ok(known);
            }
            Tree::Begin | Tree::End => return Ok(known.with_anchor()),
            Tree::Cat(first, second) => {
                known = with_tree(alloc, second, expansion, known)?;
                tree = first;
            }
            Tree::Alt(_, _) => {
                if let Some(set) = set_of(tree) {
                    let known = known.with_set(&set)?;
                    return Ok(known);
                }
                if let Some(row) = row_of_alternatives(alloc, tree, expansion)? {
                    let known = known.with_row(row)?;
                    return Ok(known);
                }
                let is_optional = matches_empty(tree);
                return Ok(known.hidden(alloc, expansion, is_optional));
            }
            Tree::Rep(inner, least, most) => {
                if *least == 0 {
                    return Ok(known.hidden(alloc, expansion, true));
                }
                // Each match begins with a first round, so the walk goes on in that one.
                known = with_later_rounds(alloc, inner, *least, *most, expansion, known)?;
                tree = inner;
            }
        }
    }
}
