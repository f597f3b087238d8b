//! The reading of a reply that a client of the key takes.
ghost use Rattle.vo_spec.specs.Conditions.{query_of};
ghost use Rattle.reply_meeting.specs.Accepting.{ReadsAccepted};

use held_replies::{judge, read_within};
use lms_sign::PublicKey;
use std::alloc::Global;
use vo_format::Reply;
use vo_spec::{CheckFault, QueryText};

/// The reply that the bytes are, or why a client of the key, who takes any version, refuses it.
#[tactic(auto, using(crate::proofs::AcceptedReplies::refused_unread, crate::proofs::AcceptedReplies::refused, crate::proofs::AcceptedReplies::accepted))]
pub(crate) fn read_accepted<'b>(
    alloc: Global,
    key: &PublicKey,
    query: &QueryText,
    bytes: &'b [u8],
) -> Result<Reply<'b>, CheckFault>
    ensures { ReadsAccepted key.now (query_of query.now) bytes.now result }
{
    let reply = match read_within(alloc, bytes) {
        Ok(reply) => reply,
        Err(fault) => return Err(fault),
    };
    match judge(alloc, key, 0, query, &reply) {
        Ok(_) => Ok(reply),
        Err(fault) => Err(fault),
    }
}
