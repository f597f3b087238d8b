//! The tests of what comes before a reply's trees.
ghost use Rattle.std.specs.Prelude.{◌≡◌, []};
ghost use Rattle.vo_spec.specs.Records.{FitsCatalog};
ghost use Rattle.vo_spec.specs.Checks.{catalog_fault};
ghost use Rattle.held_replies.specs.Judging.{head_fault};
ghost use Rattle.held_replies.specs.Testing.{bare_reply};

use crate::record_faults::record_fault;
use lms_sign::PublicKey;
use version_record::catalog_digest;
use vo_spec::{Catalog, CheckFault, Record};

/// Refuses another catalog than that of the record.
fn catalog_fault(rec: &Record, catalog: &Catalog) -> Option<CheckFault>
    requires { FitsCatalog catalog.now }
    ensures { result ≡ catalog_fault (bare_reply rec.now [] catalog.now) }
{
    let want = rec.catalog;
    let got = catalog_digest(catalog);
    if want == got {
        return None;
    }
    Some(CheckFault::WrongCatalog { want, got })
}

/// The first test that refuses a reply by its record, the record's signature or its catalog, in
/// this order. It takes no memory, and is given no allocator.
pub fn head_fault(
    key: &PublicKey,
    least: u64,
    rec: &Record,
    signature: &[u8],
    catalog: &Catalog,
) -> Option<CheckFault>
    requires { FitsCatalog catalog.now }
    ensures { result ≡ head_fault key.now least
        (bare_reply rec.now signature.now catalog.now) }
{
    match record_fault(key, least, rec, signature) {
        Some(fault) => Some(fault),
        None => catalog_fault(rec, catalog),
    }
}
