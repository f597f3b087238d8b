//! `audit --seed`: the verdict to the key's owner, who has its seed.
ghost use Rattle.std.specs.Prelude.{◌≡◌, ℕ, List, [], ◌∷◌, Contains, IfNone, IfOk, IfSome, IsTrue, Ok, Some};
ghost use Rattle.outside.specs.Outputs.{Output};
ghost use Rattle.cli_args.specs.Shapes.{plain_shape};
ghost use Rattle.vo_spec.specs.declared.records.Entry.{Entry};
ghost use Rattle.vo_spec.specs.declared.checks.Verdict.TheVariants.{Unsigned};
ghost use Rattle.vo_spec.specs.Conditions.{query_of};
ghost use Rattle.vo_spec.specs.Journals.{IsJournal};
ghost use Rattle.vo_spec.specs.Secret.{Secret, public_of_secret};
ghost use Rattle.vo_spec.specs.Keys.{leaf_of, lms_valid};
ghost use Rattle.vo_spec.specs.Records.{record_bytes};
ghost use Rattle.vo_commands.specs.Expected.{explain_expected, with_same_key, records_of, OfQuery, with_file, with_seed, reply_limit, Explains, IsToldToOwner};
ghost use Rattle.vo_commands.specs.Lines.{audit_output};
ghost use Rattle.vo_commands.specs.Reports.{Answers, StaysInside, output_of};
ghost use Rattle.vo_commands.specs.Taking.{TakesFiles, One, Along};

use crate::audit::report_of;
use crate::explanations::{UnsignedRecord, forged_report};
use crate::files::{take_file, take_key, take_seed};
use crate::limits::{JOURNAL_LIMIT, REPLY_LIMIT};
use crate::piece::Word;
use crate::refusals::refusal_report;
use crate::report::{Report, Status, Stop};
use crate::texts::query_in;
use cli_args::OwnerAudit;
use lms_forge::explain as explain_signature;
use lms_sign::{PublicKey, SecretKey};
use outside::Shelf;
use owner_state::{EntriesFault, LentEntry, read_entries};
use std::alloc::{AllocError, Global};
use vo_audit::audit as audit_reply;
use vo_spec::{AuditFault, QueryText, Record, Verdict};

/// The verdict on the reply, or why there is none; of a record that the journal lacks also what
/// explains that its signature is valid.
pub fn explain<F: Shelf>(
    alloc: Global,
    files: &mut F,
    audit: &OwnerAudit<'_>,
) -> Result<Report, Stop>
    ensures known { IfSome (F.contents files.old)
        (λ known. Answers (explain_expected audit.now.key.now audit.now.journal.now
        audit.now.query.now audit.now.reply.now audit.now.seed.now (plain_shape audit.now.shape)
        known) result) }
    ensures files { TakesFiles F.contents F.faults F.misses
        (Along (explain_expected audit.now.key.now audit.now.journal.now
        audit.now.query.now audit.now.reply.now audit.now.seed.now (plain_shape audit.now.shape)))
        files.old files.new result }
{
    let key = take_key(alloc, files, audit.key)?;
    let journal = take_file(alloc, files, audit.journal, JOURNAL_LIMIT)?;
    explain_query(alloc, files, &key, &journal, audit)
}

/// The same by the bytes of the journal.
fn explain_query<F: Shelf>(
    alloc: Global,
    files: &mut F,
    key: &PublicKey,
    journal: &[u8],
    audit: &OwnerAudit<'_>,
) -> Result<Report, Stop>
    ensures known { IfSome (F.contents files.old)
        (λ known. Answers (OfQuery audit.now.query.now
        (λ q. with_file known audit.now.reply.now reply_limit
        (λ bytes. with_seed known audit.now.seed.now (plain_shape audit.now.shape)
        (with_same_key key.now (λ secret. Explains secret journal.now q bytes))))) result) }
    ensures files { TakesFiles F.contents F.faults F.misses (Along (λ known.
        OfQuery audit.now.query.now (λ q. with_file known audit.now.reply.now reply_limit
        (λ bytes. with_seed known audit.now.seed.now (plain_shape audit.now.shape)
        (with_same_key key.now (λ secret. Explains secret journal.now q bytes)))))) files.old files.new
        result }
{
    let query = query_in(alloc, audit.query)?;
    let report = explain_files(alloc, files, key, journal, &query, audit);
    // By a call: how a query is let go of is then spelled out nowhere here.
    drop(query);
    report
}

/// The same of the reply and the seed in two files.
fn explain_files<F: Shelf>(
    alloc: Global,
    files: &mut F,
    key: &PublicKey,
    journal: &[u8],
    query: &QueryText,
    audit: &OwnerAudit<'_>,
) -> Result<Report, Stop>
    ensures known { IfSome (F.contents files.old)
        (λ known. Answers (with_file known audit.now.reply.now reply_limit
        (λ bytes. with_seed known audit.now.seed.now (plain_shape audit.now.shape)
        (with_same_key key.now (λ secret. Explains secret journal.now (query_of query.now) bytes))))
        result) }
    ensures files { TakesFiles F.contents F.faults F.misses (Along (λ known.
        with_file known audit.now.reply.now reply_limit
        (λ bytes. with_seed known audit.now.seed.now (plain_shape audit.now.shape)
        (with_same_key key.now (λ secret. Explains secret journal.now (query_of query.now) bytes)))))
        files.old files.new result }
{
    let reply = take_file(alloc, files, audit.reply, REPLY_LIMIT)?;
    let secret = take_seed(alloc, files, audit.seed, audit.shape)?;
    explain_reply(alloc, key, journal, query, &reply, &secret)
}

/// The same by the owner's key, if it is that one.
fn explain_reply(
    alloc: Global,
    key: &PublicKey,
    journal: &[u8],
    query: &QueryText,
    reply: &[u8],
    secret: &SecretKey,
) -> Result<Report, Stop>
    ensures known { Answers (with_same_key key.now
        (λ secret. Explains secret journal.now (query_of query.now) reply.now) secret.now) result }
    ensures inside { StaysInside result }
{
    if secret.public().bytes(alloc)? != key.bytes(alloc)? {
        let words = [Word::Phrase("seed of another key")];
        return Err(Stop::Refused(refusal_report(alloc, Status::RefusedInput, &words)?));
    }
    owner_report(alloc, secret, journal, query, reply)
}

fn owner_report(
    alloc: Global,
    secret: &SecretKey,
    journal: &[u8],
    query: &QueryText,
    reply: &[u8],
) -> Result<Report, Stop>
    ensures known { Answers (Explains secret.now journal.now (query_of query.now) reply.now) result }
    ensures inside { StaysInside result }
{
    let verdict = audit_reply(alloc, &secret.public(), journal, query, reply);
    let report = match unsigned_in(&verdict) {
        Some(unsigned) => Ok(forgery_report(alloc, secret, journal, &unsigned)?),
        None => report_of(alloc, &verdict),
    };
    drop(verdict);
    report
}

/// What an audit found that the journal lacks, if that is its verdict.
fn unsigned_in(verdict: &Result<Verdict, AuditFault>) -> Option<UnsignedRecord<'_>>
    ensures some { IfSome result (λ found. verdict.now
        ≡ Ok (Unsigned found.rec.now found.signature.now found.last)) }
    ensures none { IfNone result ((secret : Secret) (journal : List ℕ) (output : Output)
        → audit_output verdict.now ≡ Some output
        → IsToldToOwner secret journal verdict.now output) }
{
    match verdict {
        Ok(
            Verdict::Unsigned {
                rec,
                signature,
                last,
            },
        ) => Some(UnsignedRecord {
            rec,
            signature: signature.as_slice(),
            last: *last,
        }),
        _ => None,
    }
}

/// Of a record that the journal lacks also what explains that its signature is valid.
fn forgery_report(
    alloc: Global,
    secret: &SecretKey,
    journal: &[u8],
    unsigned: &UnsignedRecord<'_>,
) -> Result<Report, AllocError>
    requires valid { IsTrue (lms_valid (public_of_secret secret.now)
        (record_bytes unsigned.now.rec.now) unsigned.now.signature.now) }
    requires leaf { leaf_of (public_of_secret secret.now) unsigned.now.signature.now
        ≡ Some unsigned.now.rec.now.version }
    requires absent { (es : List Entry) × IsJournal journal.now es
        × (Contains (records_of es) unsigned.now.rec.now → ⊥) }
    ensures { IfOk result (λ report. IsToldToOwner secret.now journal.now
        (Ok (Unsigned unsigned.now.rec.now unsigned.now.signature.now unsigned.now.last))
        (output_of report)) }
{
    let signed = signed_records(alloc, journal)?;
    let found = explain_signature(alloc, secret, &signed, unsigned.rec, unsigned.signature)?;
    let report = forged_report(alloc, unsigned, &found);
    drop(found);
    report
}

/// The records of a journal's entries.
fn signed_records(alloc: Global, journal: &[u8]) -> Result<Vec<Record>, AllocError>
    requires { (es : List Entry) × IsJournal journal.now es }
    ensures { IfOk result (λ records. (es : List Entry) → IsJournal journal.now es
        → records.items ≡ records_of es) }
{
    let entries = match read_entries(alloc, journal) {
        Ok(entries) => entries,
        Err(EntriesFault::Memory) => return Err(AllocError),
        Err(EntriesFault::Damaged { .. }) => unreachable!(),
    };
    let records = records_of(alloc, entries.as_slice());
    drop(entries);
    records
}

fn records_of(alloc: Global, entries: &[LentEntry<'_>]) -> Result<Vec<Record>, AllocError>
    ensures { IfOk result (λ records. records.items ≡ records_of entries.now) }
{
    let mut records = Vec::with_capacity(alloc, entries.len())?;
    for entry in entries {
        records.push(*entry.rec())?;
    }
    Ok(records)
}
