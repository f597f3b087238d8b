//! Room that a disk has kept ready.

/// Room for contents up to `end`, and for `calls` writes and syncs that write `bytes` bytes in all.
#[derive(Clone, Copy, Debug, PartialEq, Eq)]
pub struct Room {
    pub end: u64,
    pub bytes: u64,
    pub calls: u64,
}
