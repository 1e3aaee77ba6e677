//! What a search for a row of sets comes to.

/// What a search for a row of sets came to.
#[derive(Clone, Copy)]
pub enum RowOutcome {
    /// It stands at this place, and at none before.
    Found(usize),
    /// It stands nowhere.
    NotFound,
    /// It had to be compared too often where it doesn't stand.
    GaveUp,
}
