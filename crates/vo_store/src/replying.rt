//! The reply of a store that loads a journal.
ghost use Rattle.std.specs.Prelude.{◌≡◌, ℕ, ◌+◌, ◌<◌, Err, IfOk, IfSome, IsSome, List, Result, Some, length, take};
ghost use Rattle.std.specs.List.{AllByRecursion};
ghost use Rattle.vo_spec.specs.Conditions.{query_of};
ghost use Rattle.vo_spec.specs.Honest.{reply_of};
ghost use Rattle.vo_spec.specs.Journals.{FitsEntry, last_version};
ghost use Rattle.vo_spec.specs.Owners.{IsUnloadableAt};
ghost use Rattle.vo_spec.specs.Replies.{Reply, reply_bytes};
ghost use Rattle.owner_state.specs.Departing.{trees_at};
ghost use Rattle.vo_store.specs.declared.fault.StoreFault.{StoreFault};
ghost use Rattle.vo_store.specs.Calls.{Gives, within_limit};
ghost use Rattle.vo_store.specs.Replying.{HaveMagic, IsNoVersion, IsReplyAt, IsReplyBy, IsTooLarge, IsTooLargeAt, Replies, RepliesAt};

use crate::answering::{answer_by_tables, oldest_version};
use crate::fault::{ReplyFault, StoreFault};
use crate::signed_record::SignedRecord;
use lms_sign::PublicKey;
use owner_state::{JournalReadFault, LoadableJournal, read_loadable};
use std::alloc::Global;
use vo_spec::QueryText;

/// The reply to the query of a store of this key that loads the journal.
pub fn reply_by(
    alloc: Global,
    key: PublicKey,
    journal: &[u8],
    query: &QueryText,
) -> Result<Vec<u8>, ReplyFault>
    ensures replies { IfOk result (λ bytes.
        IsReplyBy key journal.now (query_of query.now) bytes.items) }
    ensures bad { (index : ℕ) → result ≡ Err (ReplyFault.BadJournal index)
        → IsUnloadableAt key journal.now index }
    ensures large { (size : ℕ) → result ≡ Err (ReplyFault.TooLarge size)
        → IsTooLarge key journal.now (query_of query.now) size }
    ensures kept { (version oldest newest : ℕ)
        → result ≡ Err (ReplyFault.NoVersion version oldest newest) → ⊥ }
{
    match read_loadable(alloc, &key, journal, None) {
        Ok(read) => reply_by_last(alloc, &read, query),
        Err(JournalReadFault::BadAt { index }) => Err(ReplyFault::BadJournal { index }),
        Err(JournalReadFault::Memory) => Err(ReplyFault::Memory),
    }
}

/// The reply to the query by a version that a store of this key keeps once it has loaded the
/// journal.
pub fn reply_at(
    alloc: Global,
    key: PublicKey,
    journal: &[u8],
    version: u64,
    query: &QueryText,
) -> Result<Vec<u8>, ReplyFault>
    ensures replies { IfOk result (λ bytes.
        IsReplyAt key journal.now version (query_of query.now) bytes.items) }
    ensures bad { (index : ℕ) → result ≡ Err (ReplyFault.BadJournal index)
        → IsUnloadableAt key journal.now index }
    ensures large { (size : ℕ) → result ≡ Err (ReplyFault.TooLarge size)
        → IsTooLargeAt key journal.now version (query_of query.now) size }
    ensures kept { (wanted oldest newest : ℕ)
        → result ≡ Err (ReplyFault.NoVersion wanted oldest newest)
        → (wanted ≡ version) × IsNoVersion key journal.now version oldest newest }
{
    match read_loadable(alloc, &key, journal, Some(version)) {
        Ok(read) => reply_by_kept(alloc, &read, version, query),
        Err(JournalReadFault::BadAt { index }) => Err(ReplyFault::BadJournal { index }),
        Err(JournalReadFault::Memory) => Err(ReplyFault::Memory),
    }
}

/// The reply by the last entry.
fn reply_by_last(
    alloc: Global,
    read: &LoadableJournal<'_>,
    query: &QueryText,
) -> Result<Vec<u8>, ReplyFault>
    requires fit { AllByRecursion FitsEntry read.now.entries }
    requires magic { HaveMagic read.now.entries }
    requires some { 0 < length read.now.entries }
    requires tables { IfSome read.now.tables (λ tables.
        tables ≡ trees_at (last_version read.now.entries) read.now.entries) }
    requires there { IsSome read.now.tables }
    ensures { (r : Reply) → reply_of (query_of query.now) read.now.entries ≡ Some r
        → Replies result (within_limit (reply_bytes r)) }
{
    reply_by_entry(alloc, read, read.entries.len() as u64 - 1, query)
}

/// The reply by the entry of a version, if a store keeps that.
fn reply_by_kept(
    alloc: Global,
    read: &LoadableJournal<'_>,
    version: u64,
    query: &QueryText,
) -> Result<Vec<u8>, ReplyFault>
    requires fit { AllByRecursion FitsEntry read.now.entries }
    requires magic { HaveMagic read.now.entries }
    requires some { 0 < length read.now.entries }
    requires tables { IfSome read.now.tables (λ tables.
        tables ≡ trees_at version read.now.entries) }
    requires there { version < length read.now.entries → IsSome read.now.tables }
    ensures { RepliesAt version (query_of query.now) read.now.entries result }
{
    let newest = read.entries.len() as u64 - 1;
    let oldest = oldest_version(newest);
    if version < oldest || newest < version {
        return Err(ReplyFault::NoVersion {
            version,
            oldest,
            newest,
        });
    }
    reply_by_entry(alloc, read, version, query)
}

/// The reply by the entry of a version.
fn reply_by_entry(
    alloc: Global,
    read: &LoadableJournal<'_>,
    version: u64,
    query: &QueryText,
) -> Result<Vec<u8>, ReplyFault>
    requires fit { AllByRecursion FitsEntry read.now.entries }
    requires magic { HaveMagic read.now.entries }
    requires within { version < length read.now.entries }
    requires tables { IfSome read.now.tables (λ tables.
        tables ≡ trees_at version read.now.entries) }
    requires there { IsSome read.now.tables }
    ensures { (r : Reply) → reply_of (query_of query.now) (take (version + 1) read.now.entries)
        ≡ Some r → Replies result (within_limit (reply_bytes r)) }
{
    let entry = &read.entries.as_slice()[version as usize];
    let signed = SignedRecord::new(alloc, entry.rec(), entry.signature())?;
    match &read.tables {
        Some(tables) => reply_of_answer(answer_by_tables(alloc, &signed, tables, query)),
        None => unreachable!(),
    }
}

/// An answer by tables as the answer of a journal.
fn reply_of_answer(answer: Result<Vec<u8>, StoreFault>) -> Result<Vec<u8>, ReplyFault>
    ensures { (expected : Result (List ℕ) StoreFault) → Gives (λ bytes. bytes.items) answer expected
        → Replies result expected }
{
    match answer {
        Ok(reply) => Ok(reply),
        Err(StoreFault::TooLarge { length }) => Err(ReplyFault::TooLarge { length }),
        // By tables nothing else is lacking.
        Err(_) => Err(ReplyFault::Memory),
    }
}
