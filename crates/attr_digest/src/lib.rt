//! Digests of attributes and rows, and rows with some of their cells hidden.
#![tactic(auto)]

mod hashing;
mod hiding;

pub use hashing::{add_value, attr_digest, cell_digest, row_digest, whole_row_digest};
pub use hiding::{hide, hide_cells};
pub use vo_spec::{Cell, CellValue, RowPart};
