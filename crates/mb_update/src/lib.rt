//! Changes of trees of rows, whole and in part.
#![tactic(auto)]

mod agreement;
mod ops;
mod part_rows;
mod part_updates;
mod row_copies;
#[cfg(test)]
mod tests;
mod tree_rows;
mod tree_updates;
mod updates;

pub use agreement::{exchanges_agree, insertions_agree, removals_agree, replacements_agree};
pub use ops::{Op, SetCell};
pub use tree_updates::insert_row;
pub use updates::Updates;
pub use vo_spec::UpdateFault;
