//! Intervals of keys: which keys they have, and which children of a node a scan of one visits.
#![tactic(auto)]

mod intervals;
mod key_order;

pub use intervals::{in_interval, is_empty_interval, key_lt, visits, visits_from};
pub use key_order::compare_keys;
