//! Where a store stands, by what it answers.

/// What a store's standing is to the owner's journal.
#[derive(Clone, Copy, Debug, PartialEq, Eq)]
pub enum Place {
    /// The store holds so many of the first entries.
    Holds { count: usize },
    /// Its record is none of the journal.
    Elsewhere,
    /// What it answered is no standing.
    NoStanding,
}
