//! The record of a version, and whether an entry has it, signed.
ghost use Rattle.std.specs.Prelude.{◌≡◌, ◌↔◌, IsTrue};
ghost use Rattle.vo_spec.specs.Records.{FitsCatalog, FitsRecord};
ghost use Rattle.vo_spec.specs.Keys.{key_id};
ghost use Rattle.vo_spec.specs.Owners.{IsSigned};
ghost use Rattle.vo_spec.specs.Honest.{honest_record};
ghost use Rattle.owner_roots.specs.Owners.{IsSignedFor, record_of_roots};
ghost use Rattle.owner_state.specs.EntriesOnTrees.{IsRecorded};

use crate::lent_entry::LentEntry;
use lms_sign::{PublicKey, verify};
use owner_roots::Roots;
use stored_tables::StoredTables;
use version_record::record_bytes;
use vo_spec::Record;

/// The record of these tables as this version. It takes no memory.
#[tactic(auto, unfolding(vo_spec::specs::Honest::honest_record))]
pub fn record_of(key: &PublicKey, version: u64, tables: &StoredTables) -> Record
    ensures { result ≡ honest_record key.now version tables.now }
{
    tables.record_of(*key.id(), version)
}

/// The record of these roots.
#[tactic(auto, unfolding(owner_roots::specs::Owners::record_of_roots))]
pub(crate) fn record_of_roots(key: &PublicKey, roots: &Roots) -> Record
    requires { FitsCatalog roots.now.catalog }
    ensures value { result ≡ record_of_roots key.now roots.now }
    ensures fits { FitsRecord result }
{
    version_record::record_of(*key.id(), roots.version, &roots.catalog)
}

/// Whether the entry's record is that of these tables as this version, signed by the version's
/// leaf.
pub(crate) fn is_recorded(
    key: &PublicKey,
    version: u64,
    tables: &StoredTables,
    entry: &LentEntry<'_>,
) -> bool
    ensures { IsTrue result ↔ IsRecorded key.now version tables.now entry.now }
{
    is_signed(key, entry.rec(), entry.signature())
        && *entry.rec() == record_of(key, version, tables)
}

/// Whether the entry's record is that of these roots, signed by the leaf of their version.
pub(crate) fn is_signed_for(key: &PublicKey, roots: &Roots, entry: &LentEntry<'_>) -> bool
    requires { FitsCatalog roots.now.catalog }
    ensures { IsTrue result ↔ IsSignedFor key.now roots.now entry.now }
{
    is_signed(key, entry.rec(), entry.signature()) && *entry.rec() == record_of_roots(key, roots)
}

/// Whether the signature of the record is valid, and by the leaf of its version.
pub fn is_signed(key: &PublicKey, rec: &Record, signature: &[u8]) -> bool
    ensures { IsTrue result ↔ IsSigned key.now rec.now signature.now }
{
    key.leaf_of(signature) == Some(rec.version) && verify(key, &record_bytes(rec), signature)
}
