//! What two replies to one query are to each other.
use thiserror::Error;
use vo_format::Reply;
use vo_spec::{CheckFault, Collision};

/// What two replies that are accepted are to each other.
#[derive(Drop)]
pub enum Meeting {
    /// Their versions differ.
    Apart { v1: u64, v2: u64 },
    /// They have two records of one version, both signed by the owner.
    TwoRecords,
    /// They show the same, to the byte.
    Same,
    /// They show two things of one digest.
    Collides(Collision),
}

/// Two replies that are accepted, and what they are to each other.
#[derive(Drop)]
pub struct MetReplies<'b> {
    pub first: Reply<'b>,
    pub second: Reply<'b>,
    pub meeting: Meeting,
}

/// Why two replies don't meet.
#[derive(Debug, Drop, Error)]
pub enum MeetFault {
    #[error("the first reply is refused")]
    First(CheckFault),
    #[error("the second reply is refused")]
    Second(CheckFault),
    #[error("out of memory")]
    Memory,
}
