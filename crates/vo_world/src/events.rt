//! What may happen in a world, what is said of it, and what a client accepted.
use owner_state::OwnerFault;
use vo_spec::{Answer, Batch, CheckFault, List, QueryText};

/// What happens next, all at once.
#[derive(Debug, Drop)]
pub enum Event {
    /// The owner commits a batch, by bytes that come as its proofs.
    Commit {
        batch: Batch,
        proofs: List<u8>,
    },
    /// The machine stops, and the owner comes back to what its disk holds then.
    Crash {
        image: List<u8>,
    },
    /// A client, by its number, gets bytes as the reply to a query.
    Receive {
        client: usize,
        query: QueryText,
        bytes: List<u8>,
    },
}

/// What is said of an event.
#[derive(Debug, Drop)]
pub enum Said {
    /// The batch is in the journal, as this version.
    Committed(u64),
    Denied(OwnerFault),
    /// The journal that was found has so many entries.
    Reopened(usize),
    /// No stop may leave these bytes.
    NoImage,
    Accepted(Answer),
    Refused(CheckFault),
}

/// A reply that a client accepted, and its version.
#[derive(Debug, Drop)]
pub struct AcceptedReply {
    pub client: usize,
    pub query: QueryText,
    pub bytes: List<u8>,
    pub version: u64,
}
