//! How far the check of a reply is whose bytes come in pieces.
ghost use Rattle.std.specs.Prelude.{◌≡◌};

use reply_stream::{Head, HeadStream, TreesStream};

#[derive(Drop)]
pub(crate) enum Progress {
    /// What comes before the trees isn't whole.
    Head(HeadStream),
    /// The catalog's last byte came.
    Trees(OpenReply),
    /// The pieces so far, of a reply to a query with a join or a limit.
    Buffered(Vec<u8>),
    /// There are more bytes than a reply may have.
    TooLong,
    /// A piece found no memory.
    OutOfMemory,
}

/// A reply's head, with the trees behind it as far as they were read.
#[derive(Drop)]
pub(crate) struct OpenReply {
    pub head: Head,
    pub trees: TreesStream,
}

/// Puts a value in a place, and lets go of what stood there.
pub(crate) fn put<T: Drop>(place: &mut T, value: T)
    ensures { place.new ≡ value }
{
    *place = value;
}
