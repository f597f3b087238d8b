//! What a query needs of a tree, and what a scan of the tree gives for it.
use crate::keys::{Interval, Key};
use crate::lists::{List, SharedList};
use crate::values::Value;

/// The rows of an interval of keys, with the columns that are named. Columns have their numbers
/// among those that aren't the key.
#[derive(Debug, Drop)]
pub struct Need {
    pub interval: Interval,
    pub columns: SharedList<u8>,
}

/// A row that a scan gives: its key, and the values of the need's columns in the need's order.
#[derive(Debug, Drop)]
pub struct SeenRow {
    pub key: Key,
    pub values: List<Value>,
}
