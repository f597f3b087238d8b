//! Why bytes are no value.
use thiserror::Error;

/// The first of these that holds, in this order.
#[derive(Clone, Copy, PartialEq, Eq, Debug, Error)]
pub enum FormFault {
    #[error("a value that ends too soon")]
    Short,
    #[error("no such kind, or a BOOLEAN that is neither 0 nor 1")]
    Tag,
    #[error("a value that is too long")]
    Length,
    #[error("a text that is not UTF-8")]
    NotUtf8,
    #[error("a text with a control character")]
    Control,
}
