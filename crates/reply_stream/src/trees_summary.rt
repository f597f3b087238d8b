//! What is read of the trees of a reply.
use tree_stream::Summary;

/// How many trees there are, and what is found in the first of them.
#[derive(Debug, Drop)]
pub struct TreesSummary {
    pub count: u8,
    pub first: Option<Summary>,
}
