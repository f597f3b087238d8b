//! Whether the entries of a part tree are those of a table.
#![tactic(auto)]

mod entries;
mod row_form;

pub use entries::entries_have_form;
pub use row_form::RowForm;
