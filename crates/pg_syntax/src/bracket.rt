//! Brackets (XBD 9.3.5, 9.4.5), element by element.
ghost use Rattle.std.specs.Prelude.{◌≡◌, ◌<◌, ◌≤◌, ◌+◌, ℕ, List, length, ◌∷◌, drop};
ghost use Rattle.std.specs.Prelude.{option_map, MatchResult, IfErr, Some, None};
ghost use Rattle.pg_bytes.specs.ByteSets.{bytes};
ghost use Rattle.pg_grammar.specs.Brackets.{negates, OpensBracket};
ghost use Rattle.pg_syntax.specs.BracketReading.{bracket, shape, elements_from, add_element, put, finish};
ghost use Rattle.pg_syntax.specs.BracketViews.{element, reading};
ghost use Rattle.pg_syntax.specs.BracketPlaces.{ElementFollows, FaultPlace, FaultPlaced, Placed};
ghost use Rattle.pg_syntax.specs.Tokens.{FindsSet};

use crate::element::{Element, element_at};
use pg_bytes::ByteSet;
use pg_grammar::{FaultKind, SyntaxFault};
use pg_pattern::folded;

/// What the last element may still do. The offset is that of the element, or of the one that began
/// the range.
#[derive(Clone, Copy)]
pub(crate) enum Mode<'a> {
    /// There is none.
    Fresh,
    /// It may begin a range.
    Held(usize, Element<'a>),
    /// It and a `-` begin a range, if another element follows.
    Dashed(usize, Element<'a>),
    /// It ended a range.
    Ranged(usize),
    /// It ended a range, and a `-` follows.
    Barred(usize),
}

/// How far a bracket is read.
#[derive(Clone, Copy)]
pub(crate) struct Reading<'a> {
    mode: Mode<'a>,
    set: ByteSet,
    fault: Option<SyntaxFault>,
}

impl<'a> Reading<'a> {
    /// Adds a part of the set, or the fault that it is.
    fn add(&mut self, part: Option<ByteSet>, fault: SyntaxFault)
        ensures reads { reading self.new ≡
            add_element (reading self.old) (option_map bytes part) (reading self.old).mode }
        ensures mode { self.new.mode ≡ self.old.mode }
        ensures placed { (text : List ℕ) (bracket : ℕ) → FaultPlaced text bracket self.old.fault →
            (part ≡ None → FaultPlace text bracket fault) → FaultPlaced text bracket self.new.fault }
    {
        match part {
            Some(set) => self.set = self.set.union(set),
            None => {
                let first = match self.fault {
                    Some(known) => fault.at < known.at,
                    None => true,
                };
                if first {
                    self.fault = Some(fault);
                }
            }
        }
    }

    /// Reads one more element, which stands at an offset.
    fn put(&mut self, at: usize, next: Element<'a>)
        ensures reads { reading self.new ≡ put (reading self.old) (element next.entry) }
        ensures placed { (text : List ℕ) (bracket : ℕ) (rest : List ℕ) → Placed text bracket (drop at text) self.old →
            ElementFollows text bracket self.old.mode at next.entry rest → Placed text bracket rest self.new }
    {
        match self.mode {
            Mode::Fresh => self.mode = Mode::Held(at, next),
            Mode::Held(start, held) => {
                if next.is_dash() {
                    self.mode = Mode::Dashed(start, held);
                } else {
                    self.add(held.member(), held.fault(start));
                    self.mode = Mode::Held(at, next);
                }
            }
            Mode::Dashed(start, held) => {
                self.add(held.range(next), held.range_fault(start, next, at));
                self.mode = Mode::Ranged(start);
            }
            Mode::Ranged(start) => {
                self.mode = if next.is_dash() {
                    Mode::Barred(start)
                } else {
                    Mode::Held(at, next)
                };
            }
            Mode::Barred(start) => {
                self.add(
                    None,
                    SyntaxFault {
                        kind: FaultKind::BadRange,
                        at: start,
                    },
                );
                self.mode = Mode::Ranged(start);
            }
        }
    }

    /// The set of what was read, where no element follows; or the first fault.
    fn finish(mut self) -> Result<ByteSet, SyntaxFault>
        ensures reads { MatchResult result
            (λ s. finish (reading self.entry) ≡ Some (bytes s))
            (λ _. finish (reading self.entry) ≡ None) }
        ensures placed { (text : List ℕ) (bracket : ℕ) (rest : List ℕ) → Placed text bracket rest self.entry →
            IfErr result (FaultPlace text bracket) }
    {
        match self.mode {
            Mode::Fresh => {}
            Mode::Ranged(_) => {}
            Mode::Held(start, held) => self.add(held.member(), held.fault(start)),
            Mode::Dashed(start, held) => {
                self.add(held.member(), held.fault(start));
                self.set = self.set.union(ByteSet::one(b'-'));
            }
            Mode::Barred(_) => self.set = self.set.union(ByteSet::one(b'-')),
        }
        match self.fault {
            Some(fault) => Err(fault),
            None => Ok(self.set),
        }
    }
}

/// The set of the elements from an offset on, and the offset after their `]`. The bracket begins at
/// `bracket`.
fn elements(text: &[u8], bracket: usize, start: usize) -> Result<(ByteSet, usize), SyntaxFault>
    requires opens { OpensBracket (drop bracket text.now) (drop start text.now) }
    requires within { start ≤ length text.now }
    ensures { FindsSet text.now bracket start result (elements_from text.now start) }
{
    let mut reading = Reading {
        mode: Mode::Fresh,
        set: ByteSet::empty(),
        fault: None,
    };
    let mut at = start;
    let mut first = true;
    while at < text.len() {
        if text[at] == b']' && !first {
            return match reading.finish() {
                Ok(set) => Ok((set, at + 1)),
                Err(fault) => Err(fault),
            };
        }
        let Some((next, after)) = element_at(text, at) else {
            return Err(SyntaxFault {
                kind: FaultKind::UnmatchedBracket,
                at: bracket,
            });
        };
        reading.put(at, next);
        at = after;
        first = false;
    }
    Err(SyntaxFault {
        kind: FaultKind::UnmatchedBracket,
        at: bracket,
    })
}

/// Whether a `^` stands at an offset.
fn negates(text: &[u8], at: usize) -> bool
    ensures { result ≡ negates (drop at text.now) }
{
    match text.get(at) {
        Some(byte) => *byte == b'^',
        None => false,
    }
}

/// The set with both cases of its letters if `fold`, and complemented if `negated`.
fn shaped(set: ByteSet, fold: bool, negated: bool) -> ByteSet
    ensures { bytes result ≡ shape negated fold (bytes set) }
{
    let set = folded(set, fold);
    if negated { set.complement() } else { set }
}

/// The set of the bracket at an offset, and the offset after it.
pub(crate) fn bracket(text: &[u8], at: usize, fold: bool) -> Result<(ByteSet, usize), SyntaxFault>
    requires stands { drop at text.now ≡ 91 ∷ drop (at + 1) text.now }
    requires within { at < length text.now }
    ensures { FindsSet text.now at at result (bracket fold (drop at text.now)) }
{
    let negated = negates(text, at + 1);
    let start = if negated { at + 2 } else { at + 1 };
    match elements(text, at, start) {
        Ok((set, end)) => Ok((shaped(set, fold, negated), end)),
        Err(fault) => Err(fault),
    }
}
