//! Patterns that spell what the same bytes spell as a fixed string.
ghost use Rattle.std.specs.Prelude.{◌≡◌, ◌↔◌, ℕ, Bool, IsTrue};
ghost use Rattle.pg_pattern.specs.Patterns.{Pattern};
ghost use Rattle.pg_grammar.specs.Grammar.{◌∈◌};
ghost use Rattle.pg_grammar.specs.declared.pattern_list.Kind.TheVariants.{Fixed};
ghost use Rattle.pg_grammar.specs.Results.{IsSpelled};
ghost use Rattle.pg_syntax.specs.Plain.{special_of, IsPlain};

use crate::source::is_among;
use pg_grammar::Kind;

/// Whether a byte is special in patterns of a kind: somewhere in one it doesn't stand for itself.
fn is_special(byte: u8, kind: Kind) -> bool
    ensures { result ≡ (byte ∈ special_of kind) }
{
    match kind {
        Kind::Basic => is_among(byte, b".[\\*^$"),
        Kind::Extended => is_among(byte, b".[\\()*+?{|^$"),
        Kind::Fixed => false,
    }
}

/// Whether no byte of a pattern's text is special (XBD 9.3.3, 9.4.3). Then it spells what the same bytes spell as a
/// fixed string.
pub fn is_plain(text: &[u8], kind: Kind) -> bool
    ensures plain { IsTrue result ↔ IsPlain kind text.now }
    ensures spelled { IsTrue result → (fold : Bool) (p : Pattern) → IsSpelled Fixed fold text.now p
        → IsSpelled kind fold text.now p }
{
    !text.iter().any(|byte| is_special(*byte, kind))
}
