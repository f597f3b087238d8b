//! Totals trees, whole and in part: B-trees that hold beside each child how many entries are below
//! it, and their sum.
#![tactic(auto)]

mod agreement;
mod gathering;
mod hashing;
mod judging;
mod meetings;
mod part_node;
mod part_updates;
mod parts;
mod pruning;
mod sums;
mod tree;
mod updates;
mod whole;
mod whole_node;

pub use agreement::agree_totals;
pub use gathering::totals;
pub use judging::is_canonical_totals;
pub use parts::{PartTotals, TotalChild, TotalChildren};
pub use pruning::prune_totals;
pub use totals_laws::{TotalEntry, Totals};
pub use tree::TotalsTree;
pub use updates::TotalsUpdates;
pub use whole::{TotalsNode, TotalsSubtree, TreeTotal};
