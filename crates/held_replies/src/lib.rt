//! The tests of a reply that is held whole, and what one that passes them answers.
#![tactic(auto)]

mod found_trees;
mod head_faults;
mod held_trees;
mod judging;
mod named_table;
mod need_faults;
mod ordering;
mod reading;
mod record_faults;
mod shape;
mod tree_faults;

pub use found_trees::{FoundTrees, ShownRows};
pub use head_faults::head_fault;
pub use judging::judge;
pub use named_table::table_named;
pub use ordering::{judge_found, judge_wrong};
pub use reading::{judge_bytes, read_within};
pub use tree_faults::test_digest;
