//! The audit of a reply: its reading, the journal, the client's check, and the verdict, in this
//! order.
ghost use Rattle.std.specs.Prelude.{◌≡◌, ◌⊎◌, ℕ, List, Err, IfOk};
ghost use Rattle.vo_spec.specs.Conditions.{query_of};
ghost use Rattle.vo_spec.specs.Replies.{FitsReply};
ghost use Rattle.owner_roots.specs.Owners.{IsOwned, OwnedAuditOf};
ghost use Rattle.owner_state.specs.Departing.{Departs};
ghost use Rattle.held_replies.specs.Reading.{ReadsReply};
ghost use Rattle.vo_format.specs.View.{reply_of};
ghost use Rattle.vo_audit.specs.Auditing.{IsReadAt, AuditsReply, audit_fault, version_of};
ghost use Rattle.vo_audit.specs.Showing.{AreFound, Shows, ShowsOf};

use crate::verdicts::verdict_on;
use held_replies::{judge, read_within};
use lms_sign::PublicKey;
use owner_state::{JournalReadFault, OwnedJournal, read_owned};
use std::alloc::Global;
use vo_format::Reply;
use vo_spec::{AuditFault, CheckFault, QueryText, Verdict};

/// The version whose tables are wanted of the journal.
fn version_of(read: &Result<Reply<'_>, CheckFault>) -> u64
    ensures { result ≡ version_of read.now }
{
    match read {
        Ok(reply) => reply.rec.version,
        Err(_) => 0,
    }
}

fn audit_fault(fault: CheckFault) -> AuditFault
    ensures { result ≡ audit_fault fault }
{
    match fault {
        CheckFault::Memory => AuditFault::Memory,
        fault => AuditFault::Refused(fault),
    }
}

/// The verdict on a reply that was read, by a journal that was.
fn audit_reply(
    alloc: Global,
    key: &PublicKey,
    owned: &OwnedJournal<'_>,
    query: &QueryText,
    reply: &Reply<'_>,
) -> Result<Verdict, AuditFault>
    requires read { IsReadAt reply.now.rec.version owned.now }
    requires fits { FitsReply (reply_of reply.now) }
    ensures verdict { AuditsReply key.now owned.now.entries (query_of query.now)
        (reply_of reply.now) result }
    ensures shown { IfOk result (λ verdict. Shows verdict (AreFound (query_of query.now)
        (reply_of reply.now) owned.now.entries owned.now.departure)) }
{
    let answer = match judge(alloc, key, 0, query, reply) {
        Ok(answer) => answer,
        Err(fault) => return Err(audit_fault(fault)),
    };
    match verdict_on(alloc, owned, query, reply, &answer) {
        Ok(verdict) => Ok(verdict),
        Err(_) => Err(AuditFault::Memory),
    }
}

/// The verdict on bytes, or what refuses them unread, by a journal that was read with the tables of
/// their version.
pub(crate) fn audit_read(
    alloc: Global,
    key: &PublicKey,
    owned: &OwnedJournal<'_>,
    query: &QueryText,
    read: Result<Reply<'_>, CheckFault>,
) -> Result<Verdict, AuditFault>
    requires read { IfOk read (λ reply. IsReadAt reply.rec.version owned.now) }
    requires fits { IfOk read (λ reply. FitsReply (reply_of reply)) }
    ensures verdict { (journal bytes : List ℕ) → IsOwned key.now journal owned.now.entries
        → ReadsReply bytes read.entry → (result ≡ Err AuditFault.Memory)
        ⊎ OwnedAuditOf key.now journal (query_of query.now) bytes result }
    ensures shown { (journal bytes : List ℕ) → IsOwned key.now journal owned.now.entries
        → Departs key.now owned.now.entries owned.now.departure → ReadsReply bytes read.entry
        → IfOk result (λ verdict. ShowsOf key.now journal (query_of query.now) bytes verdict) }
{
    match read {
        Ok(reply) => audit_reply(alloc, key, owned, query, &reply),
        Err(fault) => Err(audit_fault(fault)),
    }
}

/// The verdict on the bytes as a reply to the query, by the bytes as the journal of the key's
/// owner. A bad journal is told before anything of the reply.
pub fn audit(
    alloc: Global,
    key: &PublicKey,
    journal: &[u8],
    query: &QueryText,
    reply: &[u8],
) -> Result<Verdict, AuditFault>
    ensures verdict { (result ≡ Err AuditFault.Memory)
        ⊎ OwnedAuditOf key.now journal.now (query_of query.now) reply.now result }

    // What a collision is of: catalogs, trees of a table, or the proofs of the first entry behind
    // which the owner's catalog isn't the honest one.
    ensures shown { IfOk result (λ verdict.
        ShowsOf key.now journal.now (query_of query.now) reply.now verdict) }
{
    let read = read_within(alloc, reply);
    match read_owned(alloc, key, journal, version_of(&read)) {
        Ok(owned) => audit_read(alloc, key, &owned, query, read),
        Err(JournalReadFault::BadAt { index }) => Err(AuditFault::BadJournal { index }),
        Err(JournalReadFault::Memory) => Err(AuditFault::Memory),
    }
}
