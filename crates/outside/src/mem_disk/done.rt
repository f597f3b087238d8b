//! What was done to a disk in memory.

#[derive(Clone, Copy, Debug, PartialEq, Eq)]
pub enum Done {
    /// So many bytes, which stand in the log from a place on, were written, and so many more were
    /// to be.
    Write {
        at: u64,
        from: usize,
        kept: usize,
        lost: usize,
    },
    Sync,
}
