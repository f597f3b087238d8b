//! Proofs of changes of trees: what a change looks at, and no more.
#![tactic(auto)]

mod change;
mod missing;
mod opening;
mod opening_rows;
mod replacing;
mod stubs;
mod surplus;
mod surplus_rows;
mod uniqueness;

pub use opening::{insert_proof, prune_update, remove_proof, replace_proof};
pub use surplus::is_update_proof;
pub use uniqueness::proofs_are_unique;
