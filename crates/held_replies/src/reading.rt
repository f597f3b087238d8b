//! The check of a reply that is held whole: its reading within the limit, and what it answers.
ghost use Rattle.std.specs.Prelude.{◌≡◌, ◌⊎◌, Err};
ghost use Rattle.vo_spec.specs.Checks.{CheckOf};
ghost use Rattle.vo_spec.specs.Conditions.{query_of};
ghost use Rattle.held_replies.specs.Reading.{ReadsReply};

use crate::judging::judge;
use lms_sign::PublicKey;
use std::alloc::Global;
use vo_format::{ReadFault, Reply, read_reply};
use vo_spec::{Answer, CheckFault, MAX_REPLY, QueryText};

/// The reply that the bytes are, or why a client refuses them unread.
#[tactic(auto, unfolding(vo_spec::specs::Checks::CheckOf))]
pub fn read_within<'b>(alloc: Global, bytes: &'b [u8]) -> Result<Reply<'b>, CheckFault>
    ensures { ReadsReply bytes.now result }
{
    if bytes.len() > MAX_REPLY {
        return Err(CheckFault::TooLong {
            length: bytes.len() as u64,
        });
    }
    match read_reply(alloc, bytes) {
        Ok(reply) => Ok(reply),
        Err(ReadFault::BadForm) => Err(CheckFault::BadForm),
        Err(ReadFault::Memory) => Err(CheckFault::Memory),
    }
}

/// What a client of this key, who takes no version below `least`, says of the bytes that came for
/// the query.
#[tactic(auto, unfolding(vo_spec::specs::Checks::CheckOf))]
pub fn judge_bytes(
    alloc: Global,
    key: &PublicKey,
    least: u64,
    query: &QueryText,
    bytes: &[u8],
) -> Result<Answer, CheckFault>
    ensures { (result ≡ Err CheckFault.Memory)
        ⊎ CheckOf key.now least (query_of query.now) bytes.now result }
{
    match read_within(alloc, bytes) {
        Ok(reply) => judge(alloc, key, least, query, &reply),
        Err(fault) => Err(fault),
    }
}
