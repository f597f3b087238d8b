//! The tests of a reply's record: whose it is, how it is signed, and how old it is.
ghost use Rattle.std.specs.Prelude.{◌≡◌, []};
ghost use Rattle.vo_spec.specs.Records.{no_tables};
ghost use Rattle.vo_spec.specs.Checks.{key_fault, leaf_fault, signature_fault, age_fault};
ghost use Rattle.held_replies.specs.Judging.{record_fault};
ghost use Rattle.held_replies.specs.Testing.{bare_reply};

use lms_sign::{PublicKey, verify};
use version_record::record_bytes;
use vo_spec::{CheckFault, Record};

fn key_fault(key: &PublicKey, rec: &Record) -> Option<CheckFault>
    ensures { result ≡ key_fault key.now (bare_reply rec.now [] no_tables) }
{
    let want = key.id();
    if rec.id == *want {
        return None;
    }
    Some(CheckFault::WrongKey {
        want: *want,
        got: rec.id,
    })
}

/// A signature too short to name a leaf passes here.
fn leaf_fault(key: &PublicKey, rec: &Record, signature: &[u8]) -> Option<CheckFault>
    ensures { result ≡ leaf_fault key.now (bare_reply rec.now signature.now no_tables) }
{
    let version = rec.version;
    match key.leaf_of(signature) {
        Some(q) if q != version => Some(CheckFault::WrongLeaf { version, q }),
        _ => None,
    }
}

fn signature_fault(key: &PublicKey, rec: &Record, signature: &[u8]) -> Option<CheckFault>
    ensures { result ≡ signature_fault key.now (bare_reply rec.now signature.now no_tables) }
{
    if verify(key, &record_bytes(rec), signature) {
        None
    } else {
        Some(CheckFault::BadSignature)
    }
}

fn age_fault(least: u64, rec: &Record) -> Option<CheckFault>
    ensures { result ≡ age_fault least (bare_reply rec.now [] no_tables) }
{
    let got = rec.version;
    if got < least {
        Some(CheckFault::Stale { least, got })
    } else {
        None
    }
}

/// The first of these tests that refuses a reply with this record and signature.
pub(crate) fn record_fault(
    key: &PublicKey,
    least: u64,
    rec: &Record,
    signature: &[u8],
) -> Option<CheckFault>
    ensures { result ≡ record_fault key.now least (bare_reply rec.now signature.now no_tables) }
{
    if let Some(fault) = key_fault(key, rec) {
        return Some(fault);
    }
    if let Some(fault) = leaf_fault(key, rec, signature) {
        return Some(fault);
    }
    if let Some(fault) = signature_fault(key, rec, signature) {
        return Some(fault);
    }
    age_fault(least, rec)
}
