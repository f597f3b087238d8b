//! The plain types of the system, and the definitions that its contracts cite.
//!
//! Contracts see these types as themselves: a list as the list of its items, a text, a name, a key
//! and a digest as their bytes, and every struct and enum as the record or the cases that stand
//! here. So the definitions in `specs/` speak of the very values that the program passes.
#![tactic(auto)]

mod cells;
mod checks;
mod collision;
mod digest;
mod keys;
mod limits;
mod lists;
mod needs;
mod numbers;
mod queries;
mod records;
mod signatures;
mod tables;
mod texts;
mod trees;
mod values;

pub use cells::{Cell, CellValue, KeyPart, PartEntry, RowPart, ValueRef};
pub use checks::{Answer, AuditFault, CheckFault, Verdict};
pub use collision::Collision;
pub use digest::Digest;
pub use keys::{Bound, Interval, Key};
pub use limits::{
    MAX_BATCH_BYTES, MAX_CATALOG, MAX_CELLS, MAX_COLUMNS, MAX_COMMANDS, MAX_FILL, MAX_KEY,
    MAX_LEVELS, MAX_NAME, MAX_PROOFS, MAX_REPLY, MAX_ROWS, MAX_SIGNATURE, MAX_TABLES, MAX_TEXT,
    MIN_FILL,
};
pub use lists::{List, SharedList};
pub use needs::{Need, SeenRow};
pub use numbers::{u16_bytes, u32_bytes, u64_bytes};
pub use queries::{Cmp, Cond, Items, Join, Operand, Outcome, QueryFault, QueryText, Ref, Source};
pub use records::{Catalog, CatalogTable, Entry, Magic, Record};
pub use signatures::{Levels, LmsType, OtsType};
pub use tables::{Batch, Column, Command, CommandFault, Schema, SetPart, Table};
pub use texts::{Name, Text};
pub use trees::{Agreement, ScanFault, Twins, UpdateFault};
pub use values::{Kind, Row, Value, copy_values};
