//! From a text to its tree.
ghost use Rattle.std.specs.Prelude.{◌≡◌, ◌↔◌, ◌≤◌, ◌<◌, length, ◌≢◌, [], IfOk, IfErr, IsErrOf};
ghost use Rattle.pg_pattern.specs.Trees.{pattern};
ghost use Rattle.pg_grammar.specs.Results.{IsSpelled, IsFault, too_long};
ghost use Rattle.pg_syntax.specs.Expressions.{kind_of};
ghost use Rattle.pg_grammar.specs.declared.pattern_list.Kind.TheVariants.{Basic, Extended, Fixed};
ghost use Rattle.pg_grammar.specs.Grammar.{Literal};
ghost use Rattle.pg_syntax.specs.Machine.{start, after};
ghost use Rattle.pg_syntax.specs.States.{state_of, Did};
ghost use Rattle.pg_syntax.specs.Tokens.{token_of, blame, Applies};

use crate::builder::Builder;
use crate::source::Source;
use crate::token::Token;
use pg_bytes::ByteSet;
use pg_grammar::{FaultKind, Syntax, SyntaxFault};
use pg_pattern::{Tree, folded};
use std::alloc::{AllocError, Allocator};

/// How many bytes a text may have.
pub const LONGEST: usize = 4096;

/// The tree that a text spells as a basic expression (XBD 9.3), with both cases of each letter where
/// `fold` asks for it (XCU grep, -i). A text spells at most one tree. At most 100 groups may be open
/// at once, and the bounds of an interval are at most 255.
///
/// The time is linear in the text's length, and so is the memory. An `Err` other than `OutOfMemory`
/// says that the text spells no tree, and where it goes wrong first; `TooLong` is answered for each
/// text of more than 4,096 bytes, and before all other faults.
pub fn parse_bre<A: Allocator + Copy>(
    alloc: A,
    text: &[u8],
    fold: bool,
) -> Result<Tree<A>, SyntaxFault>
    ensures spelled { IfOk result (λ tree. IsSpelled Basic fold text.now (pattern tree)) }
    ensures refused { IfErr result (λ fault. IsFault Basic fold text.now fault) }
    ensures too_long { IsErrOf result too_long ↔ (4096 < length text.now) }
{
    parse(
        alloc,
        Source {
            text,
            syntax: Syntax::Basic,
            fold,
        },
    )
}

/// The tree that a text spells as an extended expression (XBD 9.4). The rest is as for `parse_bre`.
pub fn parse_ere<A: Allocator + Copy>(
    alloc: A,
    text: &[u8],
    fold: bool,
) -> Result<Tree<A>, SyntaxFault>
    ensures spelled { IfOk result (λ tree. IsSpelled Extended fold text.now (pattern tree)) }
    ensures refused { IfErr result (λ fault. IsFault Extended fold text.now fault) }
    ensures too_long { IsErrOf result too_long ↔ (4096 < length text.now) }
{
    parse(
        alloc,
        Source {
            text,
            syntax: Syntax::Extended,
            fold,
        },
    )
}

/// The tree that a text spells as a fixed string: each byte stands for itself, a newline too, with
/// both cases of each letter where `fold` asks for it (XCU grep, -F and -i).
///
/// The time and the memory are linear in the text's length. The only faults are `TooLong`, for each
/// text of more than 4,096 bytes, and `OutOfMemory`.
pub fn fixed<A: Allocator + Copy>(alloc: A, text: &[u8], fold: bool) -> Result<Tree<A>, SyntaxFault>
    ensures spelled { IfOk result (λ tree. IsSpelled Fixed fold text.now (pattern tree)) }
    ensures refused { IfErr result (λ fault. IsFault Fixed fold text.now fault) }
    ensures too_long { IsErrOf result too_long ↔ (4096 < length text.now) }
{
    if text.len() > LONGEST {
        return Err(SyntaxFault {
            kind: FaultKind::TooLong,
            at: LONGEST,
        });
    }
    if text.is_empty() {
        return Ok(Tree::Empty);
    }
    let tree = literal(alloc, text, fold)?;
    Ok(tree)
}

/// The bytes of a text, one after the other.
fn literal<A: Allocator + Copy>(alloc: A, text: &[u8], fold: bool) -> Result<Tree<A>, AllocError>
    requires { 0 < length text.now }
    ensures { IfOk result (λ tree. Literal fold text.now (pattern tree)) }
{
    let mut tree = Tree::Set(folded(ByteSet::one(text[0]), fold));
    for at in 1..text.len() {
        let next = Tree::Set(folded(ByteSet::one(text[at]), fold));
        tree = Tree::cat(alloc, tree, next)?;
    }
    Ok(tree)
}

/// The tree of an expression.
fn parse<A: Allocator + Copy>(alloc: A, source: Source) -> Result<Tree<A>, SyntaxFault>
    ensures spelled { IfOk result (λ tree. IsSpelled (kind_of source.entry.syntax)
        source.entry.fold source.entry.text.now (pattern tree)) }
    ensures refused { IfErr result (λ fault. IsFault (kind_of source.entry.syntax)
        source.entry.fold source.entry.text.now fault) }
    ensures too_long { IsErrOf result too_long ↔ (4096 < length source.entry.text.now) }
{
    let len = source.text.len();
    if len > LONGEST {
        return Err(SyntaxFault {
            kind: FaultKind::TooLong,
            at: LONGEST,
        });
    }
    if len == 0 {
        return Ok(Tree::Empty);
    }
    parse_some(alloc, &source)
}

/// The tree of an expression of 1 to 4,096 bytes.
fn parse_some<A: Allocator + Copy>(alloc: A, source: &Source) -> Result<Tree<A>, SyntaxFault>
    requires some { source.now.text.now ≢ [] }
    requires short { length source.now.text.now ≤ 4096 }
    ensures spelled { IfOk result (λ tree. IsSpelled (kind_of source.now.syntax)
        source.now.fold source.now.text.now (pattern tree)) }
    ensures refused { IfErr result (λ fault. IsFault (kind_of source.now.syntax)
        source.now.fold source.now.text.now fault) }
{
    let mut builder = Builder::new(alloc);
    build(&mut builder, source)
}

/// The tree of an expression of 1 to 4,096 bytes, by a builder that was given nothing yet.
fn build<A: Allocator + Copy>(
    builder: &mut Builder<A>,
    source: &Source,
) -> Result<Tree<A>, SyntaxFault>
    requires fresh { state_of builder.old ≡ start }
    requires some { source.now.text.now ≢ [] }
    requires short { length source.now.text.now ≤ 4096 }
    ensures spelled { IfOk result (λ tree. IsSpelled (kind_of source.now.syntax)
        source.now.fold source.now.text.now (pattern tree)) }
    ensures refused { IfErr result (λ fault. IsFault (kind_of source.now.syntax)
        source.now.fold source.now.text.now fault) }
{
    let len = source.text.len();
    let mut at = 0;
    while at < len {
        let (token, next) = source.token(builder, at)?;
        apply(builder, token, at)?;
        at = next;
    }
    if builder.has_group() {
        return Err(SyntaxFault {
            kind: FaultKind::UnmatchedGroup,
            at: len,
        });
    }
    match builder.take()? {
        Some(tree) => Ok(tree),
        None => Err(SyntaxFault {
            kind: FaultKind::EmptyOperand,
            at: len,
        }),
    }
}

/// Goes on with a token that stands at an offset.
fn apply<A: Allocator + Copy>(
    builder: &mut Builder<A>,
    token: Token,
    at: usize,
) -> Result<(), SyntaxFault>
    ensures { Applies result
        (token_of token) (state_of builder.old) (state_of builder.new) at }
{
    let kind = blame(token);
    if !step(builder, token)? {
        return Err(SyntaxFault { kind, at });
    }
    Ok(())
}

/// The fault of a token that can't come where it stands; sets and anchors can come anywhere.
fn blame(token: Token) -> FaultKind
    ensures { result ≡ blame (token_of token) }
{
    match token {
        Token::Repeat(_, _) => FaultKind::NothingToRepeat,
        Token::Open => FaultKind::TooDeep,
        Token::Close | Token::Bar => FaultKind::EmptyOperand,
        _ => FaultKind::OutOfMemory,
    }
}

/// Goes on with a token, if it can come where it stands.
fn step<A: Allocator + Copy>(builder: &mut Builder<A>, token: Token) -> Result<bool, AllocError>
    ensures { Did result (after (token_of token) (state_of builder.old)) (state_of builder.new) }
{
    match token {
        Token::Set(set) => builder.push(Tree::Set(set)).and(Ok(true)),
        Token::Begin => builder.push_anchor(Tree::Begin).and(Ok(true)),
        Token::LastEnd => builder.push_anchor(Tree::End).and(Ok(true)),
        Token::End => builder.push(Tree::End).and(Ok(true)),
        Token::Repeat(least, most) => builder.repeat(least, most),
        Token::Open => builder.open(),
        Token::Close => builder.close(),
        Token::Bar => builder.bar(),
    }
}
