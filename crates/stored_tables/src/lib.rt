//! The tables of an owner or a store, each as its whole tree, and what commands and batches make of
//! them.
#![tactic(auto)]

mod batches;
mod catalogs;
mod changing;
mod command_proofs;
mod hashing;
mod plain;
mod positions;
mod refusing;
mod row_changes;
mod sharing;
mod table;
mod tables;
mod working;

pub use table::StoredTable;
pub use table_list::{ApplyFault, BatchFault};
pub use tables::StoredTables;
