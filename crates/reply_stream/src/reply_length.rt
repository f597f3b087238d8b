//! How many bytes of a reply came, against the limit.
ghost use Rattle.std.specs.Prelude.{◌≡◌, ◌+◌, length};
ghost use Rattle.reply_stream.specs.Lengths.{count_up_to_most, excess as excess_of};

use std::marker::Model;
use vo_spec::MAX_REPLY;

/// A count of bytes, which contracts see as the number.
#[derive(Debug, Drop)]
pub struct ReplyLength {
    bytes: u64,
}

impl Model for ReplyLength {
    ghost use Rattle.std.specs.Prelude.{ℕ};

    ghost Value = { ℕ };

    ghost view = { λ length. length.bytes };
}

impl ReplyLength {
    /// No bytes.
    pub fn new() -> ReplyLength
        ensures { result ≡ 0 }
    {
        ReplyLength { bytes: 0 }
    }

    /// Counts a piece. Beyond the highest number that there is room for, nothing is counted.
    pub fn add(&mut self, piece: &[u8])
        ensures { self.new ≡ count_up_to_most (self.old + length piece.now) }
    {
        self.bytes = self.bytes.saturating_add(piece.len() as u64);
    }

    /// The count, where it is over the limit of a reply.
    pub fn excess(&self) -> Option<u64>
        ensures { result ≡ excess_of self.now }
    {
        if self.bytes > MAX_REPLY as u64 {
            Some(self.bytes)
        } else {
            None
        }
    }
}
