//! B-trees of any family: insertion, removal with its rebalancing, and replacement, written once
//! over a trait for a node.
#![tactic(auto)]

mod contents;
mod insertion;
mod keyed_item;
mod laws;
mod limits;
mod lists;
mod merge;
mod node;
mod rebalance;
mod removal;
mod replacement;
mod row_parts;
mod search;
mod siblings;
mod split;
mod steps;
mod try_clone;

pub use insertion::insert;
pub use keyed_item::{KeyedItem, has_key, position_above, position_of};
pub use laws::{PruningFamily, insertions_agree, removals_agree, replacements_agree};
pub use limits::{MAX_FILL, MIN_FILL};
pub use node::{Contents, NodeView, TreeNode};
pub use removal::remove;
pub use replacement::set;
pub use search::find;
pub use siblings::Siblings;
pub use steps::{Step, remaining, removal_step, search_step, sibling_of};
pub use try_clone::{TryClone, try_clone_all};
