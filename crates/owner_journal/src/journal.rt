//! The journal, with the entries that it keeps.
ghost use Rattle.std.specs.Prelude.{◌≡◌, ◌*◌, ◌^◌, ◌≤◌, length};
ghost use Rattle.owner_journal.specs.Resting.{end_of};

use vo_spec::Entry;

/// A journal that stands on a disk. It keeps all its entries in memory too.
#[derive(Drop)]
pub struct Journal {
    pub(crate) entries: Vec<Entry>,
    // The place of the closed gate behind the entries.
    pub(crate) gate: u64,
    // Whether the disk failed in an append, so that it is unknown what it holds.
    pub(crate) failed: bool,
    ghost at: { gate ≡ end_of entries.items },
    ghost short: { gate ≤ length entries.items * 2 ^ 28 },
}

impl Journal {
    ghost use Rattle.owner_journal.specs.Entries.{entries_of};

    /// The entries, oldest first.
    pub fn entries(&self) -> &[Entry]
        ensures { result.now ≡ entries_of self.now }
    {
        self.entries.as_slice()
    }
}
