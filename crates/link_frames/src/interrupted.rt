//! Why bytes were not passed on.
use thiserror::Error;

#[derive(Clone, Copy, Debug, PartialEq, Eq, Error)]
pub enum Interrupted {
    /// A call of the link failed.
    #[error("the link failed")]
    LinkFault,
    #[error("out of memory")]
    Memory,
}
