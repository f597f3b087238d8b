//! What an install is refused for, and what it keeps of the version before.
ghost use Rattle.std.specs.Prelude.{◌≡◌, ◌<◌, ◌≤◌, ◌^◌, ◌++◌, ◌∷◌, [], OnErr, OnOk, length};
ghost use Rattle.vo_spec.specs.Honest.{honest_record};
ghost use Rattle.vo_store.specs.StoreState.{earlier_behind, latest, max_earlier};
ghost use Rattle.vo_store.specs.Calls.{Gives, next_version, signed_record};

use crate::fault::StoreFault;
use crate::kept_version::{KEPT_VERSIONS, KeptVersion};
use crate::signed_record::SignedRecord;
use lms_sign::PublicKey;
use owner_state::{is_signed, record_of};
use std::alloc::{AllocError, Global};
use stored_tables::StoredTables;
use vo_spec::Record;

/// The version behind the one that is installed, or 0.
pub(crate) fn next_version(installed: &Option<SignedRecord>) -> u64
    requires { next_version installed.now < 2 ^ 64 }
    ensures { result ≡ next_version installed.now }
{
    match installed {
        Some(installed) => installed.rec.version + 1,
        None => 0,
    }
}

/// The record with its signature, if it is that of these tables as this version, and the signature
/// is valid and by the version's leaf.
pub(crate) fn signed_record(
    alloc: Global,
    key: &PublicKey,
    version: u64,
    tables: &StoredTables,
    rec: &Record,
    signature: &[u8],
) -> Result<SignedRecord, StoreFault>
    ensures { Gives (λ signed. signed) result
        (signed_record key.now (honest_record key.now version tables.now) rec.now signature.now) }
{
    let due = record_of(key, version, tables);
    if *rec != due {
        return Err(StoreFault::WrongRecord {
            want: due,
            got: *rec,
        });
    }
    if !is_signed(key, rec, signature) {
        return Err(StoreFault::BadSignature);
    }
    Ok(SignedRecord::new(alloc, rec, signature)?)
}

/// Keeps a version behind the earlier ones, and lets go of the oldest where these are too many.
/// Where memory runs out they stay as they were.
fn keep_version(earlier: &mut Vec<KeptVersion>, version: KeptVersion) -> Result<(), AllocError>
    requires { length earlier.old.items ≤ max_earlier }
    ensures kept { OnOk result (earlier.new.items ≡ latest (earlier.old.items ++ version ∷ [])) }
    ensures left { OnErr result (earlier.new.items ≡ earlier.old.items) }
{
    earlier.push(version)?;
    if earlier.len() == KEPT_VERSIONS {
        earlier.remove(0);
    }
    Ok(())
}

/// Keeps the version that is installed, if one is, since another takes its place.
pub(crate) fn keep_installed(
    alloc: Global,
    installed: &Option<SignedRecord>,
    tables: &StoredTables,
    earlier: &mut Vec<KeptVersion>,
) -> Result<(), AllocError>
    requires { length earlier.old.items ≤ max_earlier }
    ensures kept { OnOk result (earlier.new.items
        ≡ earlier_behind installed.now tables.now earlier.old.items) }
    ensures left { OnErr result (earlier.new.items ≡ earlier.old.items) }
{
    match installed {
        Some(installed) => {
            let version = KeptVersion {
                signed: installed.share()?,
                tables: tables.share(alloc)?,
            };
            keep_version(earlier, version)
        }
        None => Ok(()),
    }
}
