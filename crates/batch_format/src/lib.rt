//! Batches of commands as bytes, both ways, and what reading part trees from bytes gives.
#![tactic(auto)]

mod columns;
mod reading;
mod tree_readers;
mod writing;

pub use columns::{put_columns, put_name, write_columns, write_name};
pub use reading::read_batch;
pub use tree_readers::trees_are_read;
pub use writing::batch_bytes;
