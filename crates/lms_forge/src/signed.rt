//! The records that an owner signed.
ghost use Rattle.std.specs.Prelude.{◌≡◌, ◌≢◌, ◌==◌, ◌^◌, ◌<◌, length, option_copied, find};
ghost use Rattle.vo_spec.specs.Records.{FitsRecord};
ghost use Rattle.lms_forge.specs.Forgeries.{has_signed_below};

use vo_spec::Record;

/// The record of a version.
pub(crate) fn record_at(signed: &[Record], version: u64) -> Option<&Record>
    ensures { option_copied result ≡ find (λ r. r.version == version) signed.now }
{
    signed.iter().find(|rec| rec.version == version)
}

/// A record of a version in lower tree `u`, of so many leaves, is among them.
pub(crate) fn has_signed_below(signed: &[Record], leaves: u64, u: u64) -> bool
    requires { leaves ≢ 0 }
    ensures { result ≡ has_signed_below signed.now leaves u }
{
    signed.iter().any(|rec| rec.version / leaves == u)
}

// What the type of a record's identifier says.
fn told_of_id(id: &[u8; 16])
    ensures { length id.now ≡ 16 }
{}

// What the type of its version says.
fn told_of_version(version: u64)
    ensures { version < 2 ^ 64 }
{}

/// A record has its form, by the types of its parts: this runs nothing.
pub(crate) fn told_to_fit(rec: &Record)
    ensures { FitsRecord rec.now }
{
    told_of_id(&rec.id);
    told_of_version(rec.version);
    let _catalog = rec.catalog.as_bytes();
}
