//! The roots that an owner without its tables holds, and how it follows a batch by the proofs of
//! its commands.
#![tactic(auto)]

mod commands;
mod copies;
mod forms;
mod owned_journals;
mod owner_fault;
mod places;
mod root_changes;
mod roots;
mod row_commands;

pub use owned_journals::owned_journals_grow_by_entries;
pub use owner_fault::OwnerFault;
pub use roots::Roots;
pub use vo_spec::{Batch, Catalog, CatalogTable, Command, CommandFault, Digest};
