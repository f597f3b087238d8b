//! Plain tables, and what commands and batches make of them.
#![tactic(auto)]

mod cells;
mod columns;
mod commands;
mod copies;
mod fault;
mod lookup;
mod new_rows;
mod nulls;
mod refusal;
mod rows;
mod sets;
mod shown;
mod tables;

pub use cells::cell_number;
pub use columns::{
    column_number, copy_columns, has_column, has_twice, key_kind, kind_at, name_at, new_schema,
    same_kind, takes,
};
pub use copies::copy_schema;
pub use fault::{ApplyFault, BatchFault};
pub use lookup::{command_name, table_named};
pub use new_rows::{key_at, row_of};
pub use nulls::{allows, is_nullable_at};
pub use refusal::{TableHeaderRef, first_refusal};
pub use shown::may_show;
pub use tables::{Tables, apply, apply_batch};
