//! A version that a store keeps.
use crate::signed_record::SignedRecord;
use stored_tables::StoredTables;

/// How many versions a store keeps, with the installed one.
pub const KEPT_VERSIONS: usize = 64;

/// What a store keeps of a version: its record, signed, and its tables, whose nodes are shared.
#[derive(Drop)]
pub struct KeptVersion {
    pub signed: SignedRecord,
    pub tables: StoredTables,
}
