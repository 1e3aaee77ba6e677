//! Which requests are refused, by their numbers.
ghost use Rattle.std.specs.Prelude.{◌≡◌, ◌<◌, ◌≤◌, ◌⊎◌, IsTrue, ◌↔◌};

/// Which requests are refused. They are numbered from 0.
#[derive(Clone, Copy)]
pub(crate) struct Schedule {
    /// How many requests come before the first refused one.
    pub passes: u64,
    /// Whether all requests after that one are refused too.
    pub is_lasting: bool,
}

impl Schedule {
    /// Whether the request with this number is refused.
    pub fn refuses(&self, number: u64) -> bool
        ensures { IsTrue result
            ↔ ((number ≡ self.now.passes) ⊎ (IsTrue self.now.is_lasting × (self.now.passes ≤ number))) }
    {
        number == self.passes || self.is_lasting && self.passes < number
    }

    /// Whether one of the first `made` requests is refused.
    pub fn has_refused(&self, made: u64) -> bool
        ensures { IsTrue result ↔ (self.now.passes < made) }
    {
        self.passes < made
    }
}
