//! What searches come to.

/// What a search for strings came to.
#[derive(Clone, Copy, Debug, PartialEq, Eq)]
pub enum Outcome {
    /// The first place at which a string stands.
    Found(usize),
    /// No string stands from where the search began.
    NotFound,
    /// The budget is used up; none stands before this place.
    GaveUp(usize),
}

/// What a look at a place came to.
pub(crate) enum Look {
    Stands,
    NoneStands,
    GaveUp,
}
