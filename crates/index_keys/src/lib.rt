//! Keys of secondary indexes: made of a value and a row's key, split back, and their bounds.
#![tactic(auto)]

mod bounds;
mod making;
mod splitting;
#[cfg(test)]
mod tests;

pub use bounds::index_keys_that;
pub use making::index_key;
pub use splitting::{indexed_value, is_index_key, primary_key};
pub use vo_spec::{Bound, Cmp, Interval, Key, Kind, Value};
