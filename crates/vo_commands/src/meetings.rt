//! What `meet` prints of two replies that a client accepts.
ghost use Rattle.std.specs.Prelude.{◌≡◌, IfOk};
ghost use Rattle.vo_format.specs.View.{reply_of};
ghost use Rattle.vo_commands.specs.Lines.{apart_output, same_output, two_records_output, meeting_output};
ghost use Rattle.vo_commands.specs.Reports.{output_of};

use crate::lines::{push_words, words_line};
use crate::piece::Word;
use crate::report::{Report, Status};
use crate::verdicts::{collision_report, push_signed};
use reply_meeting::{Meeting, MetReplies};
use std::alloc::{AllocError, Global};
use vo_format::Reply;

/// What the replies are to each other, in one line or more.
pub fn meeting_report(alloc: Global, met: &MetReplies<'_>) -> Result<Report, AllocError>
    ensures { IfOk result (λ report. output_of report
        ≡ meeting_output (reply_of met.now.first) (reply_of met.now.second) met.now.meeting) }
{
    match &met.meeting {
        Meeting::Apart { v1, v2 } => apart_report(alloc, *v1, *v2),
        Meeting::TwoRecords => two_records_report(alloc, &met.first, &met.second),
        Meeting::Same => same_report(alloc, met.first.rec.version),
        Meeting::Collides(found) => collision_report(alloc, found),
    }
}

fn apart_report(alloc: Global, v1: u64, v2: u64) -> Result<Report, AllocError>
    ensures { IfOk result (λ report. output_of report ≡ apart_output v1 v2) }
{
    let words = [Word::Phrase("apart"), Word::Number(v1), Word::Number(v2)];
    let bytes = words_line(alloc, &words)?;
    Ok(Report {
        status: Status::Done,
        bytes,
    })
}

fn same_report(alloc: Global, version: u64) -> Result<Report, AllocError>
    ensures { IfOk result (λ report. output_of report ≡ same_output version) }
{
    let bytes = words_line(alloc, &[Word::Phrase("same"), Word::Number(version)])?;
    Ok(Report {
        status: Status::Done,
        bytes,
    })
}

/// Two records of one version, each signed: whoever has the owner's secret key signed both.
fn two_records_report(
    alloc: Global,
    first: &Reply<'_>,
    second: &Reply<'_>,
) -> Result<Report, AllocError>
    ensures { IfOk result (λ report. output_of report
        ≡ two_records_output (reply_of first.now) (reply_of second.now)) }
{
    let mut bytes = Vec::new(alloc);
    push_words(alloc, &mut bytes, &[Word::Phrase("two records")])?;
    push_signed(alloc, &mut bytes, &first.rec, first.signature)?;
    push_signed(alloc, &mut bytes, &second.rec, second.signature)?;
    Ok(Report {
        status: Status::Unsigned,
        bytes,
    })
}
