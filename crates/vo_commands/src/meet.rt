//! `meet`: two replies to one query against each other.
ghost use Rattle.std.specs.Prelude.{◌≡◌, ◌≢◌, ◌⊎◌, ℕ, List, [], ◌∷◌, Err, Some, IfSome};
ghost use Rattle.outside.specs.Outputs.{Output};
ghost use Rattle.vo_spec.specs.Conditions.{Query, query_of};
ghost use Rattle.reply_meeting.specs.Meetings.{RepliesMeet};
ghost use Rattle.reply_meeting.specs.Views.{met_of};
ghost use Rattle.vo_commands.specs.declared.report.Stop.TheVariants.{Outside};
ghost use Rattle.vo_commands.specs.Expected.{Allows, Expected, meet_expected, with_file, reply_limit, Meets};
ghost use Rattle.vo_commands.specs.Lines.{meet_output};
ghost use Rattle.vo_commands.specs.Reports.{Answers, StaysInside};
ghost use Rattle.vo_commands.specs.Taking.{TakesFiles, Along};

use crate::files::{take_file, take_key};
use crate::limits::REPLY_LIMIT;
use crate::meetings::meeting_report;
use crate::reply_refusals::reply_refusal;
use crate::report::{Report, Stop};
use crate::texts::query_in;
use lms_sign::PublicKey;
use outside::Shelf;
use reply_meeting::{MeetFault, MetReplies, meet_replies};
use std::alloc::Global;
use vo_spec::QueryText;

/// What the two replies are to each other, or which of them is refused.
pub fn meet<F: Shelf>(
    alloc: Global,
    files: &mut F,
    key: &str,
    query: &str,
    first: &str,
    second: &str,
) -> Result<Report, Stop>
    ensures known { IfSome (F.contents files.old)
        (λ known. Answers (meet_expected key.now query.now first.now second.now known) result) }
    ensures files { TakesFiles F.contents F.faults F.misses
        (Along (meet_expected key.now query.now first.now second.now)) files.old files.new
        result }
{
    let key = take_key(alloc, files, key)?;
    let query = query_in(alloc, query)?;
    let report = meet_files(alloc, files, &key, &query, first, second);
    // By a call: how a query is let go of is then spelled out nowhere here.
    drop(query);
    report
}

/// The same of the replies in two files.
fn meet_files<F: Shelf>(
    alloc: Global,
    files: &mut F,
    key: &PublicKey,
    query: &QueryText,
    first: &str,
    second: &str,
) -> Result<Report, Stop>
    ensures known { IfSome (F.contents files.old)
        (λ known. Answers (with_file known first.now reply_limit
        (λ one. with_file known second.now reply_limit
        (λ other. Meets key.now (query_of query.now) one other))) result) }
    ensures files { TakesFiles F.contents F.faults F.misses (Along (λ known.
        with_file known first.now reply_limit (λ one. with_file known second.now reply_limit
        (λ other. Meets key.now (query_of query.now) one other)))) files.old files.new result }
{
    let first = take_file(alloc, files, first, REPLY_LIMIT)?;
    let second = take_file(alloc, files, second, REPLY_LIMIT)?;
    meet_report(alloc, key, query, &first, &second)
}

fn meet_report(
    alloc: Global,
    key: &PublicKey,
    query: &QueryText,
    first: &[u8],
    second: &[u8],
) -> Result<Report, Stop>
    ensures known { Answers (Meets key.now (query_of query.now) first.now second.now) result }
    ensures inside { StaysInside result }
{
    let met = meet_replies(alloc, key, query, first, second);
    let report = report_of(alloc, &met);
    drop(met);
    report
}

/// What is printed of what two replies come to.
fn report_of(alloc: Global, met: &Result<MetReplies<'_>, MeetFault>) -> Result<Report, Stop>
    ensures known { (key : List ℕ) (q : Query) (first second : List ℕ)
        → (met.now ≡ Err MeetFault.Memory) ⊎ RepliesMeet key q first second (met_of met.now)
        → Answers (Meets key q first second) result }
    ensures inside { StaysInside result }
{
    match met {
        Ok(met) => Ok(meeting_report(alloc, met)?),
        Err(fault) => Err(refusal_of(alloc, fault)),
    }
}

/// Which of the two replies is refused, and why.
fn refusal_of(alloc: Global, fault: &MeetFault) -> Stop
    ensures known { (expected : Expected)
        → ((output : Output) → meet_output (Err fault.now) ≡ Some output
        → Allows expected output) → Answers expected (Err result) }
    ensures inside { result ≢ Outside }
{
    match fault {
        MeetFault::First(fault) => reply_refusal(alloc, "refused first:", fault),
        MeetFault::Second(fault) => reply_refusal(alloc, "refused second:", fault),
        MeetFault::Memory => Stop::Memory,
    }
}
