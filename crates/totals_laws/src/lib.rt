//! Totals trees: B-trees of keys and numbers in which a parent holds beside each child how many
//! entries are below it, and their sum. What they are, and the laws of their proofs that no code is
//! needed for.
#![tactic(auto)]

mod laws;
mod totals;

pub use laws::{
    changes_keep_limits, changes_of_parts_agree, children_are_met_by_own_separators,
    parents_hold_totals, parts_give_the_totals, parts_prune_or_collide, proofs_are_one_or_collide,
    totals_have_one_proof, trees_stand_after_changes,
};
pub use totals::{TotalEntry, Totals};
