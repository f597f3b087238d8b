//! Scans of trees for intervals of keys, and the proofs that such scans need.
#![tactic(auto)]

mod active_needs;
mod cutting;
mod entry_search;
mod judge_for_one;
mod judging;
mod leaves;
mod naming;
mod need_lists;
mod nodes;
mod prune_for_one;
mod pruning;
mod row_test;
mod scanning;
mod searching;
mod separators;
#[cfg(test)]
mod tests;

pub use cutting::cut_need;
pub use judging::is_canonical;
pub use pruning::prune;
pub use row_test::RowTest;
pub use scanning::scan;
pub use vo_spec::{Need, SeenRow};
