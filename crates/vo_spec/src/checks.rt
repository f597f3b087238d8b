//! What a client says of a reply, and an auditor of both.
use crate::collision::Collision;
use crate::digest::Digest;
use crate::lists::List;
use crate::queries::Outcome;
use crate::records::Record;
use crate::texts::Name;
use thiserror::Error;

/// What a client accepts: the version, and what the query gives there.
#[derive(Debug, Drop)]
pub struct Answer {
    pub version: u64,
    pub outcome: Outcome,
}

/// Why a client refuses a reply, in the order of its tests. `want` is what the client goes by, and
/// `got` what the reply has.
#[derive(Debug, Drop, Error)]
pub enum CheckFault {
    #[error("a reply over the limit")]
    TooLong {
        length: u64,
    },
    #[error("not a reply")]
    BadForm,
    #[error("a record of another key")]
    WrongKey {
        want: [u8; 16],
        got: [u8; 16],
    },
    #[error("a signature by another leaf than the version's")]
    WrongLeaf {
        version: u64,
        q: u64,
    },
    #[error("a bad signature")]
    BadSignature,
    #[error("an older version")]
    Stale {
        least: u64,
        got: u64,
    },
    #[error("another catalog than the record's")]
    WrongCatalog {
        want: Digest,
        got: Digest,
    },
    #[error("another number of trees")]
    WrongTrees {
        want: u64,
        got: u64,
    },
    #[error("a tree that isn't of the schema")]
    WrongShape,
    #[error("another tree than the catalog's")]
    WrongRoot {
        table: Name,
        want: Digest,
        got: Digest,
    },
    #[error("something is missing")]
    Missing,
    #[error("something is there that isn't needed")]
    Surplus,
    #[error("out of memory")]
    Memory,
}

/// Why an audit has no verdict.
#[derive(Debug, Drop, Error)]
pub enum AuditFault {
    #[error("a bad journal")]
    BadJournal { index: u64 },
    #[error("a refused reply")]
    Refused(CheckFault),
    #[error("out of memory")]
    Memory,
}

/// What an audit finds of a reply that a client accepts.
#[derive(Drop)]
pub enum Verdict {
    /// The journal holds no such record. `last` is the version of its last entry.
    Unsigned {
        rec: Record,
        signature: List<u8>,
        last: u64,
    },
    /// The answer is the query's result on the tables of this version.
    Exact {
        version: u64,
    },
    /// The answer is another; here are two byte strings with one digest.
    Collides(Collision),
}
