//! How long the other end of a connection may take.
use std::time::Duration;

#[cfg(test)]
mod tests;

/// For how many seconds nothing may move, and for how many a turn may be waited for in any case.
pub const PATIENCE_SECONDS: u64 = 30;

/// A turn may be waited for a second longer for each so many bytes of it.
const BYTES_A_SECOND: u64 = 4096;

/// Which way bytes go.
#[derive(Clone, Copy, PartialEq, Eq)]
pub enum Way {
    Coming,
    Going,
}

/// All that goes one way until something goes the other: a request, or the answer to it.
#[derive(Clone, Copy)]
pub struct Turn {
    pub way: Way,
    waited: Duration,
    bytes: u64,
}

impl Turn {
    pub fn new(way: Way) -> Self {
        Turn {
            way,
            waited: Duration::from_secs(0),
            bytes: 0,
        }
    }

    /// So many bytes more have moved, after so long a wait.
    pub fn add(&mut self, count: usize, waited: Duration) {
        self.bytes = self.bytes.saturating_add(count as u64);
        self.waited = self.waited.saturating_add(waited);
    }

    /// Whether it has been waited for longer than its bytes explain, with the wait that goes on.
    pub fn is_too_slow(&self, waiting: Duration, patience: Duration) -> bool {
        let allowed = patience.saturating_add(Duration::from_secs(self.bytes / BYTES_A_SECOND));
        self.waited.saturating_add(waiting) >= allowed
    }
}
