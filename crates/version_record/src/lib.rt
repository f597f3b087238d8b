//! Catalogs and records as bytes: what an owner signs of a version of its tables.
#![tactic(auto)]

mod catalog_hasher;
mod catalogs;
mod magic;
mod records;
mod tables;

pub use catalog_hasher::{CatalogHasher, catalog_digest, record_of};
pub use catalogs::{catalog_bytes, catalog_of_record, catalog_preimage, put_catalog, read_catalog};
pub use records::{read_record, record_bytes, take_record};
pub use row_bytes::ReadFault;
pub use vo_spec::{Catalog, CatalogTable, Magic, Record};
