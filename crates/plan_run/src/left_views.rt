//! What left rows show.
use vo_spec::{List, Need, Value};

/// The answer's rows, and what the left rows need of the right tree.
#[derive(Drop)]
pub(crate) struct RowsAndNeeds {
    pub rows: Vec<List<Value>>,
    pub needs: Vec<Need>,
}
