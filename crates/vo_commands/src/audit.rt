//! `audit`: the verdict of an auditor with the owner's journal on a reply.
ghost use Rattle.std.specs.Prelude.{◌≡◌, [], ◌∷◌, IfSome, Some};
ghost use Rattle.outside.specs.Outputs.{Output};
ghost use Rattle.vo_spec.specs.Conditions.{query_of};
ghost use Rattle.vo_commands.specs.Expected.{audit_expected, Expected, Allows, OfQuery, with_file, reply_limit, Audits};
ghost use Rattle.vo_commands.specs.Lines.{audit_output};
ghost use Rattle.vo_commands.specs.Reports.{Answers, StaysInside};
ghost use Rattle.vo_commands.specs.Taking.{TakesFiles, One, Along};

use crate::files::{take_file, take_key};
use crate::limits::{JOURNAL_LIMIT, REPLY_LIMIT};
use crate::refusals::bad_entry;
use crate::reply_refusals::reply_refusal;
use crate::report::{Report, Stop};
use crate::texts::query_in;
use crate::verdicts::verdict_report;
use lms_sign::PublicKey;
use outside::Shelf;
use std::alloc::Global;
use vo_audit::audit as audit_reply;
use vo_spec::{AuditFault, QueryText, Verdict};

/// The verdict on the reply, or why there is none.
pub fn audit<F: Shelf>(
    alloc: Global,
    files: &mut F,
    key: &str,
    journal: &str,
    query: &str,
    reply: &str,
) -> Result<Report, Stop>
    ensures known { IfSome (F.contents files.old)
        (λ known. Answers (audit_expected key.now journal.now query.now reply.now known) result) }
    ensures files { TakesFiles F.contents F.faults F.misses
        (Along (audit_expected key.now journal.now query.now reply.now)) files.old files.new
        result }
{
    let key = take_key(alloc, files, key)?;
    let journal = take_file(alloc, files, journal, JOURNAL_LIMIT)?;
    audit_query(alloc, files, &key, &journal, query, reply)
}

/// The same by the bytes of the journal.
fn audit_query<F: Shelf>(
    alloc: Global,
    files: &mut F,
    key: &PublicKey,
    journal: &[u8],
    query: &str,
    reply: &str,
) -> Result<Report, Stop>
    ensures known { IfSome (F.contents files.old)
        (λ known. Answers (OfQuery query.now
        (λ q. with_file known reply.now reply_limit
        (λ bytes. Audits key.now journal.now q bytes))) result) }
    ensures files { TakesFiles F.contents F.faults F.misses (Along (λ known.
        OfQuery query.now (λ q. with_file known reply.now reply_limit
        (λ bytes. Audits key.now journal.now q bytes)))) files.old files.new result }
{
    let query = query_in(alloc, query)?;
    let report = audit_file(alloc, files, key, journal, &query, reply);
    // By a call: how a query is let go of is then spelled out nowhere here.
    drop(query);
    report
}

/// The same of the reply in a file.
fn audit_file<F: Shelf>(
    alloc: Global,
    files: &mut F,
    key: &PublicKey,
    journal: &[u8],
    query: &QueryText,
    reply: &str,
) -> Result<Report, Stop>
    ensures known { IfSome (F.contents files.old)
        (λ known. Answers (with_file known reply.now reply_limit
        (λ bytes. Audits key.now journal.now (query_of query.now) bytes)) result) }
    ensures files { TakesFiles F.contents F.faults F.misses (One reply.now) files.old files.new
        result }
{
    let reply = take_file(alloc, files, reply, REPLY_LIMIT)?;
    audit_report(alloc, key, journal, query, &reply)
}

fn audit_report(
    alloc: Global,
    key: &PublicKey,
    journal: &[u8],
    query: &QueryText,
    reply: &[u8],
) -> Result<Report, Stop>
    ensures known { Answers (Audits key.now journal.now (query_of query.now) reply.now) result }
    ensures inside { StaysInside result }
{
    let verdict = audit_reply(alloc, key, journal, query, reply);
    let report = report_of(alloc, &verdict);
    drop(verdict);
    report
}

/// What is printed of what an auditor says of a reply.
pub(crate) fn report_of(
    alloc: Global,
    verdict: &Result<Verdict, AuditFault>,
) -> Result<Report, Stop>
    ensures known { (expected : Expected)
        → ((output : Output) → audit_output verdict.now ≡ Some output → Allows expected output)
        → Answers expected result }
    ensures inside { StaysInside result }
{
    match verdict {
        Ok(verdict) => Ok(verdict_report(alloc, verdict)?),
        Err(AuditFault::BadJournal { index }) => Err(Stop::Refused(bad_entry(alloc, *index)?)),
        Err(AuditFault::Refused(fault)) => Err(reply_refusal(alloc, "refused:", fault)),
        Err(AuditFault::Memory) => Err(Stop::Memory),
    }
}
