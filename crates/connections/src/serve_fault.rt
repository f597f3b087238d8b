//! Why fewer connections were served than were asked for.
use thiserror::Error;

#[derive(Clone, Copy, Debug, PartialEq, Eq, Error)]
pub enum ServeFault {
    /// No further connection was made.
    #[error("the network failed")]
    Network,
    /// The line of the last connection wasn't written whole.
    #[error("the output failed")]
    Output,
    #[error("out of memory")]
    Memory,
}
