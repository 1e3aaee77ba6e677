//! What a search may spend on comparing strings.
ghost use Rattle.std.specs.Prelude.{◌≡◌, ◌+◌, ◌-◌, ◌*◌, ◌≤◌};

/// How much each byte that is passed adds to a budget, at a high rate.
const UNITS_PER_BYTE: usize = 8;

/// How many bytes that are passed add one to a budget, at a low rate.
const BYTES_PER_UNIT: usize = 4;

/// How much the bytes that a search passes add to its budget.
#[derive(Clone, Copy, Debug, PartialEq, Eq)]
pub enum Rate {
    /// Each byte adds 8: what searches in the strings' place, where they are given up, is slow.
    High,
    /// Each 4 bytes that are passed at once add 1: what searches in the strings' place is about as fast as they are
    /// where some string may begin at each eighth place.
    Low,
}

/// How much a search may still spend on comparing strings, so that it takes linear time. To compare one string costs 1,
/// and an eighth of its length if its last byte matches. The bytes that the search passes add to it, at a rate.
#[derive(Clone, Copy, Debug, PartialEq, Eq)]
pub struct Budget {
    pub left: usize,
    pub rate: Rate,
}

impl Budget {
    /// Takes a cost, or what is left where that is less.
    #[inline(always)]
    pub(crate) fn spend(&mut self, cost: usize)
        ensures { self.new.left ≡ self.old.left - cost }
    {
        self.left = self.left.saturating_sub(cost);
    }

    /// Adds what bytes are worth that were passed.
    #[inline(always)]
    pub(crate) fn earn(&mut self, passed: usize)
        ensures more { self.old.left ≤ self.new.left }
        ensures most { self.new.left ≤ self.old.left + 8 * passed }
    {
        let worth = match self.rate {
            Rate::High => passed.saturating_mul(UNITS_PER_BYTE),
            Rate::Low => passed / BYTES_PER_UNIT,
        };
        self.left = self.left.saturating_add(worth);
    }
}
