//! Two readers who asked one query of one owner's tables.
ghost use Rattle.std.specs.Prelude.{◌≡◌, ◌⊎◌, ◌↔◌, IsTrue, IfOk, Err};
ghost use Rattle.vo_spec.specs.Conditions.{query_of};
ghost use Rattle.vo_spec.specs.Replies.{FitsReply};
ghost use Rattle.vo_format.specs.View.{reply_of};
ghost use Rattle.reply_meeting.specs.Accepting.{HasPassed};
ghost use Rattle.reply_meeting.specs.Meetings.{IsMeeting, MeetOf, RepliesMeet, first_fault as first_refused, second_fault as second_refused};
ghost use Rattle.reply_meeting.specs.Views.{met_of};

use crate::accepting::read_accepted;
use crate::comparing::compare_replies;
use crate::meeting::{MeetFault, Meeting, MetReplies};
use lms_sign::PublicKey;
use std::alloc::{AllocError, Global};
use vo_format::Reply;
use vo_spec::{CheckFault, QueryText, Record};

fn is_record(rec: &Record, other: &Record) -> bool
    ensures { IsTrue result ↔ (rec.now ≡ other.now) }
{
    *rec == *other
}

/// What two replies that were accepted are to each other.
fn meeting_of(
    alloc: Global,
    query: &QueryText,
    first: &Reply<'_>,
    second: &Reply<'_>,
) -> Result<Meeting, AllocError>
    requires fits { FitsReply (reply_of first.now) }
    requires second_fits { FitsReply (reply_of second.now) }
    requires passed { HasPassed (query_of query.now) (reply_of first.now) }
    requires second_passed { HasPassed (query_of query.now) (reply_of second.now) }
    ensures { IfOk result
        (λ meeting. IsMeeting (reply_of first.now) (reply_of second.now) meeting) }
{
    if first.rec.version != second.rec.version {
        return Ok(Meeting::Apart {
            v1: first.rec.version,
            v2: second.rec.version,
        });
    }
    if !is_record(&first.rec, &second.rec) {
        return Ok(Meeting::TwoRecords);
    }
    match compare_replies(alloc, query, first, second)? {
        None => Ok(Meeting::Same),
        Some(found) => Ok(Meeting::Collides(found)),
    }
}

/// What two readers learn who put their replies to one query side by side, with the owner's key
/// alone: why the first of the replies is refused, or the second, or else what they are to each
/// other.
pub fn meet(
    alloc: Global,
    key: &PublicKey,
    query: &QueryText,
    first: &[u8],
    second: &[u8],
) -> Result<Meeting, MeetFault>
    ensures { (result ≡ Err MeetFault.Memory)
        ⊎ MeetOf key.now (query_of query.now) first.now second.now result }
{
    match meet_replies(alloc, key, query, first, second) {
        Ok(met) => Ok(met.meeting),
        Err(fault) => Err(fault),
    }
}

/// The same, and the two replies, which lend what is evidence: two records of one version, each
/// with its signature.
pub fn meet_replies<'b>(
    alloc: Global,
    key: &PublicKey,
    query: &QueryText,
    first: &'b [u8],
    second: &'b [u8],
) -> Result<MetReplies<'b>, MeetFault>
    ensures { (result ≡ Err MeetFault.Memory)
        ⊎ RepliesMeet key.now (query_of query.now) first.now second.now (met_of result) }
{
    let one = match read_accepted(alloc, key, query, first) {
        Ok(reply) => reply,
        Err(fault) => return Err(first_fault(fault)),
    };
    let other = match read_accepted(alloc, key, query, second) {
        Ok(reply) => reply,
        Err(fault) => return Err(second_fault(fault)),
    };
    match meeting_of(alloc, query, &one, &other) {
        Ok(meeting) => Ok(MetReplies {
            first: one,
            second: other,
            meeting,
        }),
        Err(_) => Err(MeetFault::Memory),
    }
}

fn first_fault(fault: CheckFault) -> MeetFault
    ensures { result ≡ first_refused fault }
{
    match fault {
        CheckFault::Memory => MeetFault::Memory,
        fault => MeetFault::First(fault),
    }
}

fn second_fault(fault: CheckFault) -> MeetFault
    ensures { result ≡ second_refused fault }
{
    match fault {
        CheckFault::Memory => MeetFault::Memory,
        fault => MeetFault::Second(fault),
    }
}
