//! What changes a tree.
use vo_spec::{Key, List, Row, RowPart, Value};

/// A change of a tree.
#[derive(Drop)]
pub enum Op<'b> {
    Insert { row: Row },
    /// Other values in some cells of the row of this key.
    Replace { key: Key, sets: List<SetCell> },
    Remove { key: Key },
    /// An entry of this key, with the row as it is given.
    Put { key: Key, part: RowPart<'b> },
    /// Another row in the place of that of this key, as it is given.
    Set { key: Key, part: RowPart<'b> },
}

/// One cell of a replacement: its column, from 0 among those that aren't the key, and the value
/// that it gets.
#[derive(Debug, Drop)]
pub struct SetCell {
    pub column: u8,
    pub value: Value,
}
