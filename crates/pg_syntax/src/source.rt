//! From the bytes of a text to its tokens.
ghost use Rattle.std.specs.Prelude.{ℕ, List, ◌≡◌, ◌==◌, ◌+◌, ◌<◌, ◌≤◌, [], ◌∷◌, ◌++◌, length, drop};
ghost use Rattle.std.specs.Prelude.{Some, None};
ghost use Rattle.std.specs.List.{list_any};
ghost use Rattle.pg_bytes.specs.Sets.{one};
ghost use Rattle.pg_pattern.specs.Patterns.{Set, folded};
ghost use Rattle.pg_grammar.specs.Grammar.{is_escaped, brace, unbrace};
ghost use Rattle.pg_grammar.specs.Places.{PlaceInToken, IsUnescaped};
ghost use Rattle.pg_syntax.specs.IntervalReading.{bounds};
ghost use Rattle.pg_syntax.specs.BracketReading.{bracket};
ghost use Rattle.pg_syntax.specs.Machine.{basic_escape, extended_escape, basic_token, extended_other};
ghost use Rattle.pg_syntax.specs.Machine.{extended_token, repeat_token, token, ends, Part};
ghost use Rattle.pg_syntax.specs.Reads.{ReadsByte};
ghost use Rattle.pg_syntax.specs.Tokens.{Finds, FindsBracket, token_of};
ghost use Rattle.pg_syntax.specs.States.{state_of};

use crate::bracket::bracket;
use crate::builder::Builder;
use crate::token::Token;
use pg_bytes::ByteSet;
use pg_grammar::{FaultKind, Syntax, SyntaxFault};
use pg_pattern::folded;
use std::alloc::Allocator;

/// A text, and how it is read.
#[derive(Clone, Copy)]
pub(crate) struct Source<'a> {
    pub(crate) text: &'a [u8],
    pub(crate) syntax: Syntax,
    pub(crate) fold: bool,
}

/// A token and the offset after it, or the fault that stands where no token is found.
type Found = Result<(Token, usize), SyntaxFault>;

/// Whether a byte is one of some bytes.
pub(crate) fn is_among(byte: u8, bytes: &[u8]) -> bool
    ensures { result ≡ list_any (λ c. byte == c) bytes.now }
{
    bytes.iter().any(|c| byte == *c)
}

/// Whether a backslash makes a byte ordinary (XBD 9.3.2, 9.4.2).
fn is_escaped(syntax: Syntax, byte: u8) -> bool
    ensures { result ≡ is_escaped syntax byte }
{
    match syntax {
        Syntax::Basic => is_among(byte, b".[]\\*^$/-\"#%&,:;=@!~"),
        Syntax::Extended => is_among(byte, b".[]\\()*+?{}|^$/-\"#%&,:;=@!~"),
    }
}

/// The fault of the backslash before a byte that it neither makes ordinary nor gives a meaning.
fn escape_fault(byte: u8, at: usize) -> SyntaxFault
    ensures { (syntax : Syntax) (text rest : List ℕ) → IsUnescaped syntax byte →
        drop at text ≡ 92 ∷ byte ∷ rest → PlaceInToken syntax result.kind text at result.at }
{
    match byte {
        b'1'..=b'9' => SyntaxFault {
            kind: FaultKind::BackReference,
            at,
        },
        _ => SyntaxFault {
            kind: FaultKind::BadEscape,
            at,
        },
    }
}

impl Source<'_> {
    /// The byte at an offset.
    pub(crate) fn byte(&self, at: usize) -> Option<u8>
        ensures { ReadsByte self.now.text.now at result }
    {
        self.text.get(at).copied()
    }

    /// The set of the bracket at an offset, and the offset after it.
    fn set_of_bracket(&self, at: usize) -> Result<(ByteSet, usize), SyntaxFault>
        requires stands { drop at self.now.text.now ≡ 91 ∷ drop (at + 1) self.now.text.now }
        requires within { at < length self.now.text.now }
        ensures { FindsBracket self.now.syntax self.now.text.now at result
            (bracket self.now.fold (drop at self.now.text.now)) }
    {
        bracket(self.text, at, self.fold)
    }

    /// The token of a byte that stands for itself.
    fn one(&self, byte: u8) -> Token
        ensures { token_of result ≡ Part (Set (folded self.now.fold (one byte))) }
    {
        Token::Set(folded(ByteSet::one(byte), self.fold))
    }

    /// The repetition of an interval: what opens it stands at `at`, and its bounds right behind that, at `start`, which
    /// may be the end of the text.
    fn interval(&self, start: usize, at: usize) -> Found
        requires opens { drop at self.now.text.now ≡ brace self.now.syntax ++ drop start self.now.text.now }
        requires behind { at < start }
        requires within { start ≤ length self.now.text.now }
        ensures { Finds self.now.syntax self.now.text.now at result
            (repeat_token (bounds (unbrace self.now.syntax) (drop start self.now.text.now))) }
    {
        match self.bounds(start) {
            Some((least, most, end)) => Ok((Token::Repeat(least, most), end)),
            None => Err(SyntaxFault {
                kind: FaultKind::BadInterval,
                at,
            }),
        }
    }

    /// The token of the backslash at an offset of a basic expression.
    #[tactic(auto, unfolding(crate::specs::Machine::basic_escape))]
    fn basic_escape<A: Allocator + Copy>(&self, builder: &Builder<A>, at: usize) -> Found
        requires syntax { self.now.syntax ≡ Syntax.Basic }
        requires backslash { drop at self.now.text.now ≡ 92 ∷ drop (at + 1) self.now.text.now }
        requires within { at < length self.now.text.now }
        ensures { Finds Syntax.Basic self.now.text.now at result
            (basic_escape self.now.fold (state_of builder.now) (drop (at + 1) self.now.text.now)) }
    {
        let next = at + 1;
        let Some(byte) = self.byte(next) else {
            return Err(SyntaxFault {
                kind: FaultKind::TrailingBackslash,
                at,
            });
        };
        let rest = next + 1;
        if byte == b'(' {
            return Ok((Token::Open, rest));
        }
        if byte == b')' {
            if builder.has_group() {
                return Ok((Token::Close, rest));
            }
            return Err(SyntaxFault {
                kind: FaultKind::UnmatchedGroup,
                at,
            });
        }
        if byte == b'{' {
            return self.interval(rest, at);
        }
        if is_escaped(Syntax::Basic, byte) {
            return Ok((self.one(byte), rest));
        }
        Err(escape_fault(byte, at))
    }

    /// The token of the backslash at an offset of an extended expression.
    #[tactic(auto, unfolding(crate::specs::Machine::extended_escape))]
    fn extended_escape(&self, at: usize) -> Found
        requires backslash { drop at self.now.text.now ≡ 92 ∷ drop (at + 1) self.now.text.now }
        requires within { at < length self.now.text.now }
        ensures { Finds Syntax.Extended self.now.text.now at result
            (extended_escape self.now.fold (drop (at + 1) self.now.text.now)) }
    {
        let next = at + 1;
        let Some(byte) = self.byte(next) else {
            return Err(SyntaxFault {
                kind: FaultKind::TrailingBackslash,
                at,
            });
        };
        if is_escaped(Syntax::Extended, byte) {
            return Ok((self.one(byte), next + 1));
        }
        Err(escape_fault(byte, at))
    }

    /// Whether the body of a basic expression ends at an offset.
    fn ends_at(&self, at: usize) -> bool
        ensures { result ≡ ends (drop at self.now.text.now) }
    {
        match self.byte(at) {
            None => true,
            Some(byte) => byte == b'\\' && self.byte(at + 1) == Some(b')'),
        }
    }

    /// The token at an offset of a basic expression.
    #[tactic(auto, unfolding(crate::specs::Machine::basic_token))]
    fn basic_token<A: Allocator + Copy>(&self, builder: &Builder<A>, byte: u8, at: usize) -> Found
        requires syntax { self.now.syntax ≡ Syntax.Basic }
        requires byte { drop at self.now.text.now ≡ byte ∷ drop (at + 1) self.now.text.now }
        requires within { at < length self.now.text.now }
        ensures { Finds Syntax.Basic self.now.text.now at result
            (basic_token self.now.fold (state_of builder.now) byte (drop (at + 1) self.now.text.now)) }
    {
        let rest = at + 1;
        if byte == b'\\' {
            return self.basic_escape(builder, at);
        }
        if byte == b'[' {
            let (set, end) = self.set_of_bracket(at)?;
            return Ok((Token::Set(set), end));
        }
        if byte == b'.' {
            return Ok((Token::Set(ByteSet::all()), rest));
        }
        if byte == b'*' && builder.has_item() {
            return Ok((Token::Repeat(0, None), rest));
        }
        if byte == b'^' && builder.is_empty() {
            return Ok((Token::Begin, rest));
        }
        if byte == b'$' && self.ends_at(rest) {
            return Ok((Token::LastEnd, rest));
        }
        Ok((self.one(byte), rest))
    }

    /// The token at an offset of an extended expression.
    #[tactic(auto, unfolding(crate::specs::Machine::extended_token))]
    fn extended_token<A: Allocator + Copy>(
        &self,
        builder: &Builder<A>,
        byte: u8,
        at: usize,
    ) -> Found
        requires syntax { self.now.syntax ≡ Syntax.Extended }
        requires byte { drop at self.now.text.now ≡ byte ∷ drop (at + 1) self.now.text.now }
        requires within { at < length self.now.text.now }
        ensures { Finds Syntax.Extended self.now.text.now at result
            (extended_token self.now.fold (state_of builder.now) byte (drop (at + 1) self.now.text.now)) }
    {
        let rest = at + 1;
        if byte == b'\\' {
            return self.extended_escape(at);
        }
        if byte == b'[' {
            let (set, end) = self.set_of_bracket(at)?;
            return Ok((Token::Set(set), end));
        }
        if byte == b'.' {
            return Ok((Token::Set(ByteSet::all()), rest));
        }
        if byte == b'*' {
            return Ok((Token::Repeat(0, None), rest));
        }
        if byte == b'+' {
            return Ok((Token::Repeat(1, None), rest));
        }
        if byte == b'?' {
            return Ok((Token::Repeat(0, Some(1)), rest));
        }
        if byte == b'{' {
            return self.interval(at + 1, at);
        }
        self.extended_other(builder, byte, at)
    }

    /// The token of a byte of an extended expression that neither escapes nor repeats.
    fn extended_other<A: Allocator + Copy>(
        &self,
        builder: &Builder<A>,
        byte: u8,
        at: usize,
    ) -> Found
        requires byte { drop at self.now.text.now ≡ byte ∷ drop (at + 1) self.now.text.now }
        requires within { at < length self.now.text.now }
        ensures { Finds Syntax.Extended self.now.text.now at result
            (extended_other self.now.fold (state_of builder.now) byte (drop (at + 1) self.now.text.now)) }
    {
        let rest = at + 1;
        if byte == b'(' {
            return Ok((Token::Open, rest));
        }
        if byte == b')' && builder.has_group() {
            return Ok((Token::Close, rest));
        }
        if byte == b'|' {
            return Ok((Token::Bar, rest));
        }
        if byte == b'^' {
            return Ok((Token::Begin, rest));
        }
        if byte == b'$' {
            return Ok((Token::End, rest));
        }
        Ok((self.one(byte), rest))
    }

    /// The token at an offset, and the offset after it.
    pub(crate) fn token<A: Allocator + Copy>(&self, builder: &Builder<A>, at: usize) -> Found
        requires { at < length self.now.text.now }
        ensures { Finds self.now.syntax self.now.text.now at result
            (token self.now.syntax self.now.fold (state_of builder.now) (drop at self.now.text.now)) }
    {
        let byte = self.text[at];
        match self.syntax {
            Syntax::Basic => self.basic_token(builder, byte, at),
            Syntax::Extended => self.extended_token(builder, byte, at),
        }
    }
}
