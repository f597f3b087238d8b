//! Why a line has no answer.
use std::alloc::{AllocError, AllocFailed};
use thiserror::Error;

/// It asks for no call, or memory ran out.
#[derive(Clone, Copy, Debug, PartialEq, Eq, Error)]
pub enum NoAnswer {
    #[error("no such line")]
    NoSuchLine,
    #[error("out of memory")]
    Memory,
}

impl From<AllocError> for NoAnswer {
    fn from(_error: AllocError) -> NoAnswer {
        NoAnswer::Memory
    }
}

impl<T: Drop> From<AllocFailed<T>> for NoAnswer {
    fn from(_error: AllocFailed<T>) -> NoAnswer {
        NoAnswer::Memory
    }
}
