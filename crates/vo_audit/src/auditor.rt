//! Audits of several replies by a journal that is read once.
ghost use Rattle.std.specs.Prelude.{◌≡◌, IfOk, IsTrue};

use crate::auditing::{audit, audit_read};
use held_replies::read_within;
use lms_sign::PublicKey;
use owner_state::{JournalReadFault, OwnedJournal, read_owned};
use std::alloc::Global;
use std::marker::Model;
use vo_format::Reply;
use vo_spec::{AuditFault, CheckFault, QueryText, Verdict};

/// An auditor with the journal of a key's owner, which is read with the tables of one version: by
/// them replies of this version are audited.
#[derive(Drop)]
pub struct Auditor<'b> {
    key: PublicKey,
    journal: &'b [u8],
    version: u64,
    owned: OwnedJournal<'b>,
}

impl<'b> Model for Auditor<'b> {
    ghost use Rattle.vo_audit.specs.Auditors.{AuditorState, IsReadOf};

    ghost Value = { AuditorState };

    ghost view = { λ a. record { key = a.key; journal = a.journal.now } };

    ghost invariant = { λ a.
        IsReadOf (record { key = a.key; journal = a.journal.now }) a.version a.owned };
}

/// Whether the reply is of this version, or was refused unread.
fn is_read_for(read: &Result<Reply<'_>, CheckFault>, version: u64) -> bool
    ensures { IsTrue result → IfOk read.now (λ reply. reply.rec.version ≡ version) }
{
    match read {
        Ok(reply) => reply.rec.version == version,
        Err(_) => true,
    }
}

impl<'b> Auditor<'b> {
    ghost use Rattle.std.specs.Prelude.{◌≡◌, ◌⊎◌, ℕ, Err, IfOk};
    ghost use Rattle.vo_spec.specs.Conditions.{query_of};
    ghost use Rattle.owner_roots.specs.Owners.{IsBadAt, OwnedAuditOf};
    ghost use Rattle.vo_audit.specs.Showing.{ShowsOf};

    /// An auditor by the bytes as the journal of the key's owner, for replies of this version.
    pub fn new(
        alloc: Global,
        key: PublicKey,
        journal: &'b [u8],
        version: u64,
    ) -> Result<Auditor<'b>, JournalReadFault>
        ensures key { IfOk result (λ auditor. auditor.key ≡ key) }
        ensures journal { IfOk result (λ auditor. auditor.journal ≡ journal.now) }
        ensures bad { (index : ℕ) → result ≡ Err (JournalReadFault.BadAt index)
            → IsBadAt key journal.now index }
    {
        match read_owned(alloc, &key, journal, version) {
            Ok(owned) => Ok(Auditor {
                key,
                journal,
                version,
                owned,
            }),
            Err(fault) => Err(fault),
        }
    }

    /// The verdict on the bytes as a reply to the query. For one of another version the journal is
    /// read once more.
    pub fn audit(
        &self,
        alloc: Global,
        query: &QueryText,
        reply: &[u8],
    ) -> Result<Verdict, AuditFault>
        ensures verdict { (result ≡ Err AuditFault.Memory) ⊎ OwnedAuditOf self.now.key
            self.now.journal (query_of query.now) reply.now result }
        ensures shown { IfOk result (λ verdict. ShowsOf self.now.key self.now.journal
            (query_of query.now) reply.now verdict) }
    {
        let read = read_within(alloc, reply);
        if !is_read_for(&read, self.version) {
            return audit(alloc, &self.key, self.journal, query, reply);
        }
        audit_read(alloc, &self.key, &self.owned, query, read)
    }
}
