//! Replies to queries, by what is installed.
ghost use Rattle.std.specs.Prelude.{◌≡◌, ◌≤◌, IfOk, length};
ghost use Rattle.vo_spec.specs.Conditions.{query_of};
ghost use Rattle.vo_spec.specs.Journals.{max_signature};
ghost use Rattle.vo_spec.specs.Records.{FitsRecord, magic_of};
ghost use Rattle.vo_spec.specs.Replies.{FitsReply, reply_bytes};
ghost use Rattle.vo_spec.specs.Honest.{catalog_of, honest_reply};
ghost use Rattle.vo_format.specs.View.{reply_of};
ghost use Rattle.vo_store.specs.StoreState.{oldest_of};
ghost use Rattle.vo_store.specs.Calls.{Gives, kept_at, reply_by_kept, signed_reply, within_limit};
ghost use Rattle.vo_store.specs.HonestStores.{AreHonest, IsAnswering};

use crate::fault::StoreFault;
use crate::kept_version::{KEPT_VERSIONS, KeptVersion};
use crate::proving::proofs_for;
use crate::signed_record::SignedRecord;
use std::alloc::{AllocError, Global};
use stored_tables::StoredTables;
use vo_format::{Reply, write_reply};
use vo_spec::{MAX_REPLY, QueryText};

/// The reply by a version's record and its tables.
#[tactic(auto, unfolding(vo_spec::specs::Honest::honest_reply))]
fn reply_by_tables<'t>(
    alloc: Global,
    installed: &'t SignedRecord,
    tables: &'t StoredTables,
    query: &QueryText,
) -> Result<Reply<'t>, AllocError>
    requires signed { FitsRecord installed.now.rec }
    requires short { length installed.now.signature ≤ max_signature }
    requires honest { AreHonest tables.now }
    requires magic { installed.now.rec.magic ≡ magic_of (catalog_of tables.now) }
    ensures value { IfOk result (λ reply. reply_of reply ≡ honest_reply (query_of query.now)
        installed.now.rec installed.now.signature tables.now) }
    ensures fits { IfOk result (λ reply. FitsReply (reply_of reply)) }
{
    let catalog = tables.catalog(alloc)?;
    let trees = proofs_for(alloc, tables, &catalog, query)?;
    Ok(Reply {
        rec: installed.rec,
        signature: installed.signature.as_slice(),
        catalog,
        trees,
    })
}

/// A reply as bytes, which have a limit.
fn bytes_of(alloc: Global, reply: &Reply<'_>) -> Result<Vec<u8>, StoreFault>
    requires { FitsReply (reply_of reply.now) }
    ensures { Gives (λ bytes. bytes.items) result
        (within_limit (reply_bytes (reply_of reply.now))) }
{
    let bytes = write_reply(alloc, reply)?;
    if bytes.len() > MAX_REPLY {
        return Err(StoreFault::TooLarge {
            length: bytes.len() as u64,
        });
    }
    Ok(bytes)
}

/// The bytes of the reply by a version's record and its tables.
pub(crate) fn answer_by_tables(
    alloc: Global,
    installed: &SignedRecord,
    tables: &StoredTables,
    query: &QueryText,
) -> Result<Vec<u8>, StoreFault>
    requires signed { FitsRecord installed.now.rec }
    requires short { length installed.now.signature ≤ max_signature }
    requires honest { AreHonest tables.now }
    requires magic { installed.now.rec.magic ≡ magic_of (catalog_of tables.now) }
    ensures { Gives (λ bytes. bytes.items) result
        (signed_reply (query_of query.now) installed.now tables.now) }
{
    match reply_by_tables(alloc, installed, tables, query) {
        Ok(reply) => bytes_of(alloc, &reply),
        Err(_) => Err(StoreFault::Memory),
    }
}

/// The first version that a store keeps where this one is installed.
pub(crate) fn oldest_version(newest: u64) -> u64
    ensures { result ≡ oldest_of newest }
{
    newest.saturating_sub(KEPT_VERSIONS as u64 - 1)
}

/// The bytes of the reply by the version at a place of those that are kept, the installed one
/// behind the earlier ones.
pub(crate) fn answer_by_kept(
    alloc: Global,
    earlier: &[KeptVersion],
    installed: &SignedRecord,
    tables: &StoredTables,
    place: usize,
    query: &QueryText,
) -> Result<Vec<u8>, StoreFault>
    requires { IsAnswering (kept_at earlier.now installed.now tables.now place) }
    ensures { Gives (λ bytes. bytes.items) result (reply_by_kept (query_of query.now)
        (kept_at earlier.now installed.now tables.now place)) }
{
    match earlier.get(place) {
        Some(kept) => answer_by_tables(alloc, &kept.signed, &kept.tables, query),
        None => answer_by_tables(alloc, installed, tables, query),
    }
}
