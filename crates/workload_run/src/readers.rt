//! The readers of replies: a client, and an auditor with the owner's journal.
ghost use Rattle.std.specs.Prelude.{◌≡◌, ◌↔◌, ℕ, List, IfOk, IsTrue, OnOk};
ghost use Rattle.vo_spec.specs.declared.checks.Answer.{Answer as PlainAnswer};
ghost use Rattle.vo_spec.specs.declared.records.Entry.{Entry};
ghost use Rattle.vo_spec.specs.Conditions.{query_of};
ghost use Rattle.owner_roots.specs.Owners.{IsOwned};
ghost use Rattle.workload_run.specs.Readers.{IsAnswer, IsExact};

use lms_sign::PublicKey;
use std::alloc::{AllocError, Global};
use vo_audit::{Auditor, JournalReadFault};
use vo_check::Client;
use vo_spec::{Answer, AuditFault, CheckFault, QueryText, Verdict};

#[derive(Drop)]
pub(crate) struct Readers<'b> {
    pub client: Client,
    pub auditor: Auditor<'b>,
}

/// Readers of an owner's replies of this version, with its journal.
pub(crate) fn readers_of<'b>(
    alloc: Global,
    key: PublicKey,
    journal: &'b [u8],
    version: u64,
) -> Result<Readers<'b>, AllocError>
    requires { (es : List Entry) × IsOwned key journal.now es }
    ensures client_key { IfOk result (λ readers. readers.client.key ≡ key) }
    ensures least { IfOk result (λ readers. readers.client.least ≡ 0) }
    ensures auditor_key { IfOk result (λ readers. readers.auditor.key ≡ key) }
    ensures journal { IfOk result (λ readers. readers.auditor.journal ≡ journal.now) }
{
    let client = Client::new(key, 0);
    match Auditor::new(alloc, key, journal, version) {
        Ok(auditor) => Ok(Readers { client, auditor }),
        Err(JournalReadFault::Memory) => Err(AllocError),
        Err(JournalReadFault::BadAt { .. }) => unreachable!(),
    }
}

/// Whether the fault is want of memory.
fn is_check_memory(fault: &CheckFault) -> bool
    ensures { IsTrue result ↔ (fault.now ≡ CheckFault.Memory) }
{
    match fault {
        CheckFault::Memory => true,
        _ => false,
    }
}

/// Whether the fault is want of memory.
fn is_audit_memory(fault: &AuditFault) -> bool
    ensures { IsTrue result ↔ (fault.now ≡ AuditFault.Memory) }
{
    match fault {
        AuditFault::Memory => true,
        _ => false,
    }
}

/// The client's answer.
pub(crate) fn check(
    alloc: Global,
    client: &mut Client,
    query: &QueryText,
    reply: &[u8],
) -> Result<Answer, AllocError>
    requires { (answer : PlainAnswer)
        × IsAnswer client.old.key client.old.least (query_of query.now) reply.now answer }
    ensures answer { (answer : PlainAnswer)
        → IsAnswer client.old.key client.old.least (query_of query.now) reply.now answer
        → IfOk result (λ given. given ≡ answer) }
    ensures least { IfOk result (λ given. client.new.least ≡ given.version) }
    ensures key { client.new.key ≡ client.old.key }
{
    match client.check(alloc, query, reply) {
        Ok(answer) => Ok(answer),
        Err(fault) => {
            if is_check_memory(&fault) {
                return Err(AllocError);
            }
            unreachable!()
        }
    }
}

/// Whether the audit says that the reply is exact.
pub(crate) fn is_exact(
    alloc: Global,
    auditor: &Auditor<'_>,
    query: &QueryText,
    reply: &[u8],
) -> Result<bool, AllocError>
    requires { (version : ℕ) × IsExact auditor.now.key auditor.now.journal (query_of query.now)
        reply.now version }
    ensures { IfOk result (λ exact. IsTrue exact) }
{
    match auditor.audit(alloc, query, reply) {
        Ok(Verdict::Exact { .. }) => Ok(true),
        Ok(_) => Ok(false),
        Err(fault) => {
            if is_audit_memory(&fault) {
                return Err(AllocError);
            }
            unreachable!()
        }
    }
}
