//! What an owner signs and writes down: catalogs, records, journal entries.
use crate::digest::Digest;
use crate::lists::List;
use crate::tables::{Batch, Schema};
use crate::texts::Name;

/// What a catalog says of a table: its root is the digest of its tree.
#[derive(Debug, Drop)]
pub struct CatalogTable {
    pub name: Name,
    pub schema: Schema,
    pub rows: u64,
    pub root: Digest,
}

/// The tables of one version, by strictly rising name.
#[derive(Debug, Drop)]
pub struct Catalog {
    pub tables: List<CatalogTable>,
}

/// What a record begins with, which its catalog decides.
#[derive(Clone, Copy, PartialEq, Eq, Debug)]
pub enum Magic {
    /// No column is nullable.
    Vrec,
    /// Some column is nullable.
    Vrc2,
}

/// What is signed: whose tables, which version of them, and the digest of their catalog.
#[derive(Clone, Copy, PartialEq, Eq, Debug)]
pub struct Record {
    pub magic: Magic,
    pub id: [u8; 16],
    pub version: u64,
    pub catalog: Digest,
}

/// One version in the owner's journal: its batch, the proofs that went with it, and what was
/// signed.
#[derive(Debug, Drop)]
pub struct Entry {
    pub batch: Batch,
    pub proofs: List<u8>,
    pub rec: Record,
    pub signature: List<u8>,
}
