//! What is searched for.
ghost use Rattle.std.specs.Prelude.{◌≡◌, ◌↔◌, ◌<◌, ◌≤◌, ℕ, List, false, length, map, All, IfOk, IfErr, IsTrue};
ghost use Rattle.std.specs.Arc.{arc_value};
ghost use Rattle.pg_pattern.specs.Patterns.{IsProper};
ghost use Rattle.pg_pattern.specs.Trees.{pattern};
ghost use Rattle.pg_selection.specs.Search.{Pattern, AreTreesOf, HasTrees, search_of, terminator_of, uninverted};
ghost use Rattle.pg_selection.specs.Runs.{AllLines};
ghost use Rattle.pg_literal.specs.Literals.{as_searched};
ghost use Rattle.pg_prefilter.specs.Literals.{AreLiterals, TellHeads, data_of};
ghost use Rattle.pg_prefilter.specs.Prefilters.{IsPrefilterOf};
ghost use Rattle.pg_lines.specs.Queries.{AreItsStrings, IsPlainText, AreSearchersOf, IsCompiled, IsQueryFault};
ghost use Rattle.pg_lines.specs.declared.query.QueryFault.TheVariants.{OutOfMemory};

use pg_grammar::Kind;
use pg_literal::Literal;
use pg_match::{BuildFault, Machine};
use pg_pattern::Tree;
use pg_prefilter::Prefilter;
use pg_selection::{QueryText, Selector};
use pg_syntax::{FaultKind, LONGEST, ListFault, is_plain, parse_list, texts_of};
use std::alloc::{AllocError, Allocator, Global};
use std::marker::Model;
use std::sync::Arc;
use thiserror::Error;

/// Why a text can't be compiled.
#[derive(Clone, Copy, Debug, PartialEq, Eq, Error)]
pub enum QueryFault {
    /// A pattern isn't a valid expression of its kind.
    #[error("{0}")]
    Syntax(ListFault),
    /// The patterns ask for more than 65,536 states.
    #[error("pattern too large")]
    TooLarge,
    /// A request for memory was refused.
    #[error("out of memory")]
    OutOfMemory,
}

impl From<BuildFault> for QueryFault {
    ghost use Rattle.std.specs.Prelude.{◌≡◌, ◌⊎◌};
    ghost use Rattle.pg_match.specs.declared.machine.BuildFault.TheVariants as B;
    ghost use Rattle.pg_lines.specs.declared.query.QueryFault.TheVariants.{TooLarge, OutOfMemory};

    ghost from_gives = { λ build fault. ((build ≡ B.TooManyStates) × (fault ≡ TooLarge)) ⊎ (fault ≡ OutOfMemory) };

    fn from(fault: BuildFault) -> QueryFault {
        match fault {
            BuildFault::TooManyStates => QueryFault::TooLarge,
            BuildFault::OutOfMemory => QueryFault::OutOfMemory,
        }
    }
}

impl From<AllocError> for QueryFault {
    ghost from_gives = { λ _ fault. fault ≡ OutOfMemory };

    fn from(_error: AllocError) -> QueryFault {
        QueryFault::OutOfMemory
    }
}

/// A query that can be searched for. It has what searches would else prepare anew: the automaton of its patterns, and
/// what was found in them by which lines are judged before it is asked. Contracts see its text and the automaton.
pub struct Query<A: Allocator = Global> {
    selector: Arc<Selector<A>, A>,
    machine: Machine<A>,
    prefilter: Prefilter<A>,
}

impl<A: Allocator> Drop for Query<A> {
    fn drop(self) {
        let Query {
            selector: _,
            machine: _,
            prefilter: _,
        } = self;
    }
}

impl<A: Allocator> Model for Query<A> {
    ghost use Rattle.std.specs.Arc.{arc_value};
    ghost use Rattle.pg_prefilter.specs.Prefilters.{IsPrefilterOf};
    ghost use Rattle.pg_lines.specs.Queries.{Compiled, IsCompiled};

    ghost Value = { Compiled };

    ghost view = { λ q. record { text = arc_value q.selector; machine = q.machine } };

    ghost invariant = { λ q. IsCompiled (record { text = arc_value q.selector; machine = q.machine })
        × IsPrefilterOf (arc_value q.selector) q.prefilter };
}

impl<A: Allocator> Query<A> {
    /// The query of a text.
    ///
    /// # Errors
    ///
    /// `Syntax` where some pattern is no expression of the kind, with the fault of the first one;
    /// `TooLarge` where all are, and ask for more than 65,536 states together; `OutOfMemory` where a
    /// request for memory was refused.
    pub fn compile(alloc: A, text: QueryText<A>) -> Result<Query<A>, QueryFault>
    where
        A: Copy,
        ensures text { IfOk result (λ query. query.text ≡ text) }
        ensures compiled { IfOk result IsCompiled }
        ensures fault { IfErr result (IsQueryFault text) }
    {
        let (machine, prefilter) = searchers_of(alloc, &text)?;
        let selector = selector_of(alloc, text)?;
        Ok(Query {
            selector,
            machine,
            prefilter,
        })
    }

    /// What the query was compiled from.
    pub fn text(&self) -> &QueryText<A>
        ensures text { result.now ≡ self.now.text }
        ensures compiled { IsCompiled self.now }
    {
        self.selector.text()
    }

    /// What selects its lines: the same text, of which it is known that it can be compiled.
    pub fn selector(&self) -> &Arc<Selector<A>, A>
        ensures { arc_value result.now ≡ self.now.text }
    {
        &self.selector
    }

    /// The automaton of its patterns.
    pub fn machine(&self) -> &Machine<A>
        ensures machine { result.now ≡ self.now.machine }
        ensures compiled { IsCompiled self.now }
    {
        &self.machine
    }

    /// The byte that ends a line.
    pub fn terminator(&self) -> u8
        ensures { result ≡ terminator_of self.now.text }
    {
        self.selector.terminator()
    }

    /// What was found in its patterns, by which lines are judged before the automaton is asked.
    pub(crate) fn prefilter(&self) -> &Prefilter<A>
        ensures { IsPrefilterOf self.now.text result.now }
    {
        &self.prefilter
    }

    /// At most 8 texts of which each line with a hit holds one, so that only lines with one are looked at; none where
    /// such texts weren't found, or there are more of them. With -i they are in lower case, as those lines are where
    /// they are searched for. Where a text is enough, each line that holds it has a hit, and the machine isn't asked.
    pub fn literals(&self) -> &[Literal<A>]
        ensures literals { AreLiterals self.now.text (map data_of result.now) }
        ensures heads { TellHeads self.now.text result.now }
        ensures compiled { IsCompiled self.now }
    {
        self.prefilter.literals()
    }

    /// Whether a line of some bytes, at least one, may have a hit. They are given as literals are looked for in them:
    /// where case is folded, in lower case.
    fn may_hold(&self, searched: &[u8]) -> bool
        requires { 0 < length searched.now }
        ensures { result ≡ false → (bytes : List ℕ) → searched.now ≡ as_searched self.now.text.fold bytes
            → (trees : List Pattern) → AreTreesOf self.now.text trees
            → AllLines (search_of (uninverted self.now.text) trees) false bytes }
    {
        self.prefilter().may_hold(self.text(), searched)
    }

    /// Whether a line of some bytes may have a hit, as the query's literals tell without its automaton: false where no
    /// literal stands among the bytes, or there is no byte. Where the query has no literals, and where to look for many
    /// of them takes too long, the answer is true.
    ///
    /// With -i the bytes are looked at in a copy in lower case, as blocks are, for the search of bytes in one case is
    /// by far the fastest. A refused request for its memory is the only error; without -i none is made.
    pub fn may(&self, alloc: A, bytes: &[u8]) -> Result<bool, AllocError>
    where
        A: Copy,
        ensures { IfOk result (λ may. may ≡ false → (trees : List Pattern) → AreTreesOf self.now.text trees
            → AllLines (search_of (uninverted self.now.text) trees) false bytes.now) }
    {
        if bytes.is_empty() {
            return Ok(false);
        }
        if !self.prefilter.has_literals() {
            return Ok(true);
        }
        if self.text().fold {
            let lowered = bytes.to_ascii_lowercase(alloc)?;
            Ok(self.may_hold(&lowered))
        } else {
            Ok(self.may_hold(bytes))
        }
    }
}

/// The selector of a text each of whose patterns is an expression.
fn selector_of<A: Allocator>(
    alloc: A,
    text: QueryText<A>,
) -> Result<Arc<Selector<A>, A>, AllocError>
    requires { HasTrees text }
    ensures { IfOk result (λ selector. arc_value selector ≡ text) }
{
    Ok(Arc::new(alloc, Selector::new(text))?)
}

/// What searches for a text: its automaton, and what was found in its patterns. Where all patterns are plain, as fixed
/// strings are and most lists of words, they are made without trees, which would take several times as long.
fn searchers_of<A: Allocator + Copy>(
    alloc: A,
    text: &QueryText<A>,
) -> Result<(Machine<A>, Prefilter<A>), QueryFault>
    ensures made { IfOk result (λ made. AreSearchersOf text.now made.0 made.1) }
    ensures fault { IfErr result (IsQueryFault text.now) }
{
    let texts = texts_of(alloc, text.lists.as_slice())?;
    if are_plain(&texts, text.kind) {
        searchers_of_strings(alloc, text, &texts)
    } else {
        searchers_of_trees(alloc, text)
    }
}

/// What searches for a text, by its patterns' trees.
fn searchers_of_trees<A: Allocator + Copy>(
    alloc: A,
    text: &QueryText<A>,
) -> Result<(Machine<A>, Prefilter<A>), QueryFault>
    ensures made { IfOk result (λ made. AreSearchersOf text.now made.0 made.1) }
    ensures fault { IfErr result (IsQueryFault text.now) }
{
    let trees = trees_of(alloc, text)?;
    let machine = machine_of(alloc, text, trees.as_slice())?;
    let prefilter = Prefilter::of(alloc, text, trees.as_slice())?;
    Ok((machine, prefilter))
}

/// What searches for a text whose patterns are plain. The strings are the patterns, all of them and in their order, as
/// `texts_of` gives them, and each has at most 4,096 bytes.
fn searchers_of_strings<A: Allocator + Copy>(
    alloc: A,
    text: &QueryText<A>,
    strings: &[&[u8]],
) -> Result<(Machine<A>, Prefilter<A>), QueryFault>
    requires strings { AreItsStrings text.now strings.now }
    ensures made { IfOk result (λ made. AreSearchersOf text.now made.0 made.1) }
    ensures fault { IfErr result (IsQueryFault text.now) }
{
    let machine = machine_of_strings(alloc, text, strings)?;
    let prefilter = Prefilter::of_strings(alloc, text, strings)?;
    Ok((machine, prefilter))
}

/// Whether each text spells as a pattern of this kind what it spells as a fixed string: it is plain, and has at most
/// 4,096 bytes.
fn are_plain(texts: &[&[u8]], kind: Kind) -> bool
    ensures { IsTrue result ↔ All (λ text. IsPlainText kind text.now) texts.now }
{
    texts
        .iter()
        .all(|text| text.len() <= LONGEST && is_plain(text, kind))
}

/// The automaton of a text whose patterns are plain, and are these strings, as for `searchers_of_strings`.
fn machine_of_strings<A: Allocator + Copy>(
    alloc: A,
    text: &QueryText<A>,
    strings: &[&[u8]],
) -> Result<Machine<A>, QueryFault>
    requires strings { AreItsStrings text.now strings.now }
    ensures machine { IfOk result (λ machine. IsCompiled (record { text = text.now; machine = machine })) }
    ensures fault { IfErr result (IsQueryFault text.now) }
{
    let machine = Machine::of_strings(alloc, strings, text.fold, text.bounds())?;
    Ok(machine)
}

/// The automaton of a text's patterns, whose trees these are.
fn machine_of<A: Allocator + Copy>(
    alloc: A,
    text: &QueryText<A>,
    trees: &[Tree<A>],
) -> Result<Machine<A>, QueryFault>
    requires trees { AreTreesOf text.now (map pattern trees.now) }
    requires proper { All IsProper (map pattern trees.now) }
    ensures machine { IfOk result (λ machine. IsCompiled (record { text = text.now; machine = machine })) }
    ensures fault { IfErr result (IsQueryFault text.now) }
{
    let machine = Machine::build(alloc, trees, text.bounds())?;
    Ok(machine)
}

/// The trees of a text's patterns.
fn trees_of<A: Allocator + Copy>(
    alloc: A,
    text: &QueryText<A>,
) -> Result<Vec<Tree<A>, A>, QueryFault>
    ensures trees { IfOk result (λ trees. AreTreesOf text.now (map pattern trees.items)) }
    ensures proper { IfOk result (λ trees. All IsProper (map pattern trees.items)) }
    ensures fault { IfErr result (IsQueryFault text.now) }
{
    match parse_list(alloc, text.kind, text.lists.as_slice(), text.fold) {
        Ok(trees) => Ok(trees),
        Err(fault) => match fault.fault.kind {
            FaultKind::OutOfMemory => Err(QueryFault::OutOfMemory),
            _ => Err(QueryFault::Syntax(fault)),
        },
    }
}
