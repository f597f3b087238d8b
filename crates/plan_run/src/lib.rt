//! What the trees of a reply show for a query, and what the query needs of each of them.
#![tactic(auto)]

mod entry_views;
mod laws;
mod left_test;
mod left_tree;
mod left_views;
mod needing;
mod pairs;
mod ran;
mod row_views;
mod running;
mod seeing;
mod showing;

pub use laws::plans_run_as_their_queries;
pub use left_tree::left_need;
pub use needing::right_needs;
pub use ran::Ran;
pub use row_views::SeenRowView;
pub use running::{rows_of_seen, run_plan};
pub use seeing::lefts_of;
