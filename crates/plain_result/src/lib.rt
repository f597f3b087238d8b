//! What a query gives on plain tables.
#![tactic(auto)]

mod results;
mod same;
mod table_rows;
mod tables;

pub use results::{result, result_on};
pub use same::same_outcome;
