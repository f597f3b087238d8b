//! The answers of the outside other than `Ok`.
use thiserror::Error;

/// The call failed, and the object's count of faults rose.
#[derive(Clone, Copy, Debug, PartialEq, Eq, Error)]
#[error("the outside failed")]
pub struct Failed;

/// Why a file was not taken.
#[derive(Clone, Copy, Debug, PartialEq, Eq, Error)]
pub enum TakeFault {
    /// The file is not there or was not read; the shelf's count of faults rose.
    #[error("the outside failed")]
    Failed,
    /// The file has more bytes than the limit.
    #[error("the file is too long")]
    TooLong,
    #[error("out of memory")]
    Memory,
}

/// Why a piece was not put whole.
#[derive(Clone, Copy, Debug, PartialEq, Eq, Error)]
pub enum PutFault {
    /// A front of the piece was put; the count of faults rose.
    #[error("the outside failed")]
    Failed,
    /// Nothing of the piece was put.
    #[error("out of memory")]
    Memory,
}
