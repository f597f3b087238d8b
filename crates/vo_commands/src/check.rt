//! `check`: the answer that a client takes from a reply, or why it refuses it.
ghost use Rattle.std.specs.Prelude.{◌≡◌, ◌⊎◌, ℕ, List, [], ◌∷◌, None, Some, Err, IfSome};
ghost use Rattle.outside.specs.Outputs.{Output};
ghost use Rattle.vo_spec.specs.Checks.{CheckOf};
ghost use Rattle.vo_spec.specs.Conditions.{Query, query_of};
ghost use Rattle.vo_commands.specs.Expected.{Allows, Expected, check_expected, with_file, reply_limit, Checks};
ghost use Rattle.vo_commands.specs.Lines.{asked_output, check_output};
ghost use Rattle.vo_commands.specs.Reports.{Answers, StaysInside};
ghost use Rattle.vo_commands.specs.Taking.{TakesFiles, One, Along};

use crate::answers::answer_report;
use crate::files::{take_file, take_key};
use crate::limits::REPLY_LIMIT;
use crate::piece::Word;
use crate::refusals::refusal_report;
use crate::reply_refusals::reply_refusal;
use crate::report::{Report, Status, Stop};
use crate::texts::query_in;
use lms_sign::PublicKey;
use outside::Shelf;
use std::alloc::Global;
use vo_check::Client;
use vo_spec::{Answer, CheckFault, QueryText};

/// The answer that a client of the key accepts, of no version below `least`, or why it refuses the
/// reply.
pub fn check<F: Shelf>(
    alloc: Global,
    files: &mut F,
    key: &str,
    query: &str,
    reply: &str,
    least: u64,
) -> Result<Report, Stop>
    ensures known { IfSome (F.contents files.old)
        (λ known. Answers (check_expected key.now query.now reply.now least known) result) }
    ensures files { TakesFiles F.contents F.faults F.misses (Along
        (check_expected key.now query.now reply.now least)) files.old files.new result }
{
    let key = take_key(alloc, files, key)?;
    let query = query_in(alloc, query)?;
    let report = check_file(alloc, files, key, least, &query, reply);
    // By a call: how a query is let go of is then spelled out nowhere here.
    drop(query);
    report
}

/// The same of the reply in a file.
fn check_file<F: Shelf>(
    alloc: Global,
    files: &mut F,
    key: PublicKey,
    least: u64,
    query: &QueryText,
    reply: &str,
) -> Result<Report, Stop>
    ensures known { IfSome (F.contents files.old)
        (λ known. Answers (with_file known reply.now reply_limit
        (λ bytes. Checks key None least (query_of query.now) bytes)) result) }
    ensures files { TakesFiles F.contents F.faults F.misses (One reply.now) files.old files.new
        result }
{
    let reply = take_file(alloc, files, reply, REPLY_LIMIT)?;
    check_report(alloc, key, least, query, &reply)
}

/// The answer that a client of the key accepts from these bytes, or why it refuses them.
fn check_report(
    alloc: Global,
    key: PublicKey,
    least: u64,
    query: &QueryText,
    reply: &[u8],
) -> Result<Report, Stop>
    ensures known { Answers (Checks key None least (query_of query.now) reply.now) result }
    ensures inside { StaysInside result }
{
    let mut client = Client::new(key, least);
    client_report(alloc, None, client.check(alloc, query, reply))
}

/// What is printed of what a client says of a reply, of which a version was asked for, or none.
pub fn client_report(
    alloc: Global,
    at: Option<u64>,
    answer: Result<Answer, CheckFault>,
) -> Result<Report, Stop>
    ensures known { (key : List ℕ) (least : ℕ) (q : Query) (reply : List ℕ)
        → (answer ≡ Err CheckFault.Memory) ⊎ CheckOf key least q reply answer
        → Answers (Checks key at least q reply) result }
    ensures inside { StaysInside result }
{
    let report = report_of(alloc, at, &answer);
    drop(answer);
    report
}

fn report_of(
    alloc: Global,
    at: Option<u64>,
    answer: &Result<Answer, CheckFault>,
) -> Result<Report, Stop>
    ensures known { (expected : Expected)
        → ((output : Output) → check_output at answer.now ≡ Some output → Allows expected output)
        → Answers expected result }
    ensures inside { StaysInside result }
{
    match answer {
        Ok(answer) => accepted_report(alloc, at, answer),
        Err(fault) => Err(reply_refusal(alloc, "refused:", fault)),
    }
}

/// An answer that a client accepts; where another version was asked for, it is refused.
fn accepted_report(alloc: Global, at: Option<u64>, answer: &Answer) -> Result<Report, Stop>
    ensures known { (expected : Expected) → Allows expected (asked_output at answer.now)
        → Answers expected result }
    ensures inside { StaysInside result }
{
    match at {
        Some(version) if version != answer.version => {
            let words = [
                Word::Phrase("version"),
                Word::Number(version),
                Word::Number(answer.version),
            ];
            Err(Stop::Refused(refusal_report(alloc, Status::RefusedReply, &words)?))
        }
        _ => Ok(answer_report(alloc, answer)?),
    }
}
