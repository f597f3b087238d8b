//! Whether a part tree prunes a whole tree of its digest, and whether two part trees of one digest
//! show the same, or else two byte strings of one digest; and whether two part trees are the same.
#![tactic(auto)]

mod cells;
mod comparison;
mod entries;
mod likeness;
mod nodes;
mod pruning;
mod rows;
mod same_parts;
mod twin_cells;
mod twin_nodes;
mod twin_rows;
mod twins;

pub use nodes::agree;
pub use same_parts::{are_all_same, are_same};
pub use twins::{agree_two, agree_walk, walks_show_what_is_seen};
pub use vo_spec::{Agreement, Twins};
