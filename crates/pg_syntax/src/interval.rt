//! The bounds of intervals (XBD 9.3.6, 9.4.6).
ghost use Rattle.std.specs.Prelude.{◌≤◌, ◌<◌, [], ◌∷◌, length, drop, Some, None};
ghost use Rattle.pg_grammar.specs.Grammar.{unbrace};
ghost use Rattle.pg_syntax.specs.Reads.{FindsNumber, FindsRest, FindsBounds};
ghost use Rattle.pg_syntax.specs.IntervalReading.{number_at, strip, bounds};

use crate::source::Source;
use pg_grammar::Syntax;

impl Source<'_> {
    /// A number of one or more digits, up to 255, and the offset after it.
    #[tactic(auto, unfolding(crate::specs::IntervalReading::number_at))]
    fn number(&self, at: usize) -> Option<(u8, usize)>
        requires { at ≤ length self.now.text.now }
        ensures { FindsNumber self.now.text.now at result (number_at (drop at self.now.text.now)) }
    {
        let mut value: u32 = 0;
        let mut end = at;
        while end < self.text.len() && self.text[end].is_ascii_digit() {
            value = (10 * value + u32::from(self.text[end] - b'0')).min(256);
            end += 1;
        }
        if end == at {
            return None;
        }
        if value > 255 {
            return None;
        }
        Some((value as u8, end))
    }

    /// The offset after a byte, if it stands at an offset.
    fn skip(&self, at: usize, byte: u8) -> Option<usize>
        ensures { FindsRest self.now.text.now at result (strip (byte ∷ []) (drop at self.now.text.now)) }
    {
        if self.byte(at)? == byte {
            return Some(at + 1);
        }
        None
    }

    /// The offset after what closes an interval, if that stands at an offset.
    fn skip_unbrace(&self, at: usize) -> Option<usize>
        ensures { FindsRest self.now.text.now at result
            (strip (unbrace self.now.syntax) (drop at self.now.text.now)) }
    {
        match self.syntax {
            Syntax::Basic => self.skip(self.skip(at, b'\\')?, b'}'),
            Syntax::Extended => self.skip(at, b'}'),
        }
    }

    /// The bounds that stand at an offset up to what closes their interval, and the offset after that.
    #[tactic(auto, unfolding(crate::specs::IntervalReading::bounds))]
    pub(crate) fn bounds(&self, at: usize) -> Option<(u8, Option<u8>, usize)>
        requires { at ≤ length self.now.text.now }
        ensures { FindsBounds self.now.text.now at result
            (bounds (unbrace self.now.syntax) (drop at self.now.text.now)) }
    {
        let (least, end) = self.number(at)?;
        if let Some(end) = self.skip_unbrace(end) {
            return Some((least, Some(least), end));
        }
        let end = self.skip(end, b',')?;
        if let Some(end) = self.skip_unbrace(end) {
            return Some((least, None, end));
        }
        let (most, end) = self.number(end)?;
        let end = self.skip_unbrace(end)?;
        (least <= most).then_some((least, Some(most), end))
    }
}
