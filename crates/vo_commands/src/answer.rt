//! `answer`: the reply of a store to a query.
ghost use Rattle.std.specs.Prelude.{◌≡◌, ◌<◌, ◌≤◌, ℕ, List, [], ◌∷◌, length, Err, IfOk, IfSome};
ghost use Rattle.vo_spec.specs.Conditions.{query_of};
ghost use Rattle.vo_spec.specs.Owners.{IsUnloadableAt};
ghost use Rattle.vo_spec.specs.Replies.{max_reply};
ghost use Rattle.vo_commands.specs.Expected.{answer_expected, HasReplyFor, LacksVersion, OfQuery, Replies};
ghost use Rattle.vo_commands.specs.Lines.{no_version};
ghost use Rattle.vo_commands.specs.Reports.{Answers, StaysInside, output_of};
ghost use Rattle.vo_commands.specs.Taking.{TakesFiles, Along};

use crate::files::{take_file, take_key};
use crate::limits::JOURNAL_LIMIT;
use crate::piece::Word;
use crate::refusals::{bad_entry, refusal_report};
use crate::report::{Report, Status, Stop};
use crate::texts::query_in;
use lms_sign::PublicKey;
use outside::Shelf;
use std::alloc::{AllocError, Global};
use vo_spec::QueryText;
use vo_store::{ReplyFault, reply_at, reply_by};

/// The one reply to the query by the journal: by the version that is asked for, or by the last.
pub fn answer<F: Shelf>(
    alloc: Global,
    files: &mut F,
    key: &str,
    journal: &str,
    query: &str,
    at: Option<u64>,
) -> Result<Report, Stop>
    ensures known { IfSome (F.contents files.old)
        (λ known. Answers (answer_expected key.now journal.now query.now at known) result) }
    ensures files { TakesFiles F.contents F.faults F.misses (Along
        (answer_expected key.now journal.now query.now at)) files.old files.new result }
{
    let key = take_key(alloc, files, key)?;
    let journal = take_file(alloc, files, journal, JOURNAL_LIMIT)?;
    answer_query(alloc, key, &journal, query, at)
}

/// The same by the bytes of the journal.
fn answer_query(
    alloc: Global,
    key: PublicKey,
    journal: &[u8],
    query: &str,
    at: Option<u64>,
) -> Result<Report, Stop>
    ensures known { Answers (OfQuery query.now (λ q. Replies key journal.now at q)) result }
    ensures inside { StaysInside result }
{
    let query = query_in(alloc, query)?;
    let report = reply_report(alloc, key, journal, &query, at);
    // By a call: how a query is let go of is then spelled out nowhere here.
    drop(query);
    report
}

fn reply_report(
    alloc: Global,
    key: PublicKey,
    journal: &[u8],
    query: &QueryText,
    at: Option<u64>,
) -> Result<Report, Stop>
    ensures known { Answers (Replies key journal.now at (query_of query.now)) result }
    ensures inside { StaysInside result }
{
    match reply_for(alloc, key, journal, query, at) {
        Ok(bytes) => Ok(Report {
            status: Status::Done,
            bytes,
        }),
        Err(ReplyFault::BadJournal { index }) => Err(Stop::Refused(bad_entry(alloc, index)?)),
        Err(ReplyFault::TooLarge { length }) => {
            let words = [Word::Phrase("too large"), Word::Number(length)];
            Err(Stop::Refused(refusal_report(alloc, Status::RefusedReply, &words)?))
        }
        Err(
            ReplyFault::NoVersion {
                version,
                oldest,
                newest,
            },
        ) => {
            let report = version_refusal(alloc, version, oldest, newest)?;
            Err(Stop::Refused(report))
        }
        Err(ReplyFault::Memory) => Err(Stop::Memory),
    }
}

/// The reply of a store that has loaded the journal.
fn reply_for(
    alloc: Global,
    key: PublicKey,
    journal: &[u8],
    query: &QueryText,
    at: Option<u64>,
) -> Result<Vec<u8>, ReplyFault>
    ensures replies { IfOk result (λ bytes. HasReplyFor key journal.now at (query_of query.now)
        bytes.items × (length bytes.items ≤ max_reply)) }
    ensures bad { (index : ℕ) → result ≡ Err (ReplyFault.BadJournal index)
        → IsUnloadableAt key journal.now index }
    ensures large { (size : ℕ) → result ≡ Err (ReplyFault.TooLarge size)
        → (bytes : List ℕ) × HasReplyFor key journal.now at (query_of query.now) bytes
        × (size ≡ length bytes) × (max_reply < size) }
    ensures lacks { (version oldest newest : ℕ)
        → result ≡ Err (ReplyFault.NoVersion version oldest newest)
        → LacksVersion key journal.now at version oldest newest }
{
    match at {
        None => reply_by(alloc, key, journal, query),
        Some(version) => reply_at(alloc, key, journal, version, query),
    }
}

/// The version isn't one of those from the oldest to the newest, which a store keeps.
fn version_refusal(
    alloc: Global,
    version: u64,
    oldest: u64,
    newest: u64,
) -> Result<Report, AllocError>
    ensures { IfOk result (λ report. output_of report ≡ no_version version oldest newest) }
{
    let words = [
        Word::Phrase("no version"),
        Word::Number(version),
        Word::Number(oldest),
        Word::Number(newest),
    ];
    refusal_report(alloc, Status::RefusedReply, &words)
}
