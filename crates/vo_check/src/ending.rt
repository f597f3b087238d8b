//! What a client says of a reply once its last piece came.
ghost use Rattle.std.specs.Prelude.{◌≡◌, ◌⊎◌, ◌≤◌, ◌<◌, ◌^◌, ◌-◌, ℕ, List, None, Err, true, length};
ghost use Rattle.vo_spec.specs.Bytes.{IsBytes};
ghost use Rattle.vo_spec.specs.Checks.{CheckOf};
ghost use Rattle.vo_spec.specs.Conditions.{query_of};
ghost use Rattle.vo_spec.specs.Replies.{max_reply};
ghost use Rattle.reply_stream.specs.Lengths.{count_up_to_most};
ghost use Rattle.vo_check.specs.Streaming.{IsStreamed};
ghost use Rattle.vo_check.specs.Checkings.{StandsBehind, SuitsQuery, is_out_of_memory};

use crate::client::Client;
use crate::progress::{OpenReply, Progress};
use crate::streamed::judge_streamed;
use reply_stream::ReplyLength;
use std::alloc::Global;
use vo_spec::{Answer, CheckFault, QueryText};

/// The answer of a check that is so far, behind as many bytes as were counted.
pub(crate) fn end_progress(
    alloc: Global,
    client: &Client,
    query: &QueryText,
    count: &ReplyLength,
    progress: Progress,
) -> Result<Answer, CheckFault>
    requires { SuitsQuery (query_of query.now) progress }
    ensures answers { (bytes : List ℕ) → IsBytes bytes → length bytes < 2 ^ 64
        → count.now ≡ count_up_to_most (length bytes)
        → StandsBehind (query_of query.now) progress bytes → (result ≡ Err CheckFault.Memory)
        ⊎ CheckOf client.now.key client.now.least (query_of query.now) bytes result }
    ensures beyond { count.now ≡ 2 ^ 64 - 1 → (result ≡ Err CheckFault.Memory)
        ⊎ (result ≡ Err (CheckFault.TooLong (2 ^ 64 - 1))) }
    ensures out { is_out_of_memory progress ≡ true → result ≡ Err CheckFault.Memory }
{
    match count.excess() {
        Some(length) => {
            let fault = excess_fault(&progress, length);
            drop(progress);
            Err(fault)
        },
        None => end_within(alloc, client, query, progress),
    }
}

/// The fault of a reply of so many bytes, which are over the limit.
fn excess_fault(progress: &Progress, length: u64) -> CheckFault
    ensures fault { (result ≡ CheckFault.Memory) ⊎ (result ≡ CheckFault.TooLong length) }
    ensures out { is_out_of_memory progress.now ≡ true → result ≡ CheckFault.Memory }
{
    match progress {
        Progress::OutOfMemory => CheckFault::Memory,
        _ => CheckFault::TooLong { length },
    }
}

/// The answer of a check behind no more bytes than a reply may have.
fn end_within(
    alloc: Global,
    client: &Client,
    query: &QueryText,
    progress: Progress,
) -> Result<Answer, CheckFault>
    requires { SuitsQuery (query_of query.now) progress }
    ensures answers { (bytes : List ℕ) → IsBytes bytes → length bytes ≤ max_reply
        → StandsBehind (query_of query.now) progress bytes → (result ≡ Err CheckFault.Memory)
        ⊎ CheckOf client.now.key client.now.least (query_of query.now) bytes result }
    ensures out { is_out_of_memory progress ≡ true → result ≡ Err CheckFault.Memory }
{
    match progress {
        Progress::Trees(reply) => end_reply(alloc, client, query, reply),
        Progress::Buffered(held) => client.answer_whole(alloc, query, &held),
        Progress::Head(_) => Err(CheckFault::BadForm),
        // Whatever stands so was counted over the limit.
        Progress::TooLong => Err(CheckFault::BadForm),
        Progress::OutOfMemory => Err(CheckFault::Memory),
    }
}

fn end_reply(
    alloc: Global,
    client: &Client,
    query: &QueryText,
    reply: OpenReply,
) -> Result<Answer, CheckFault>
    requires { IsStreamed (query_of query.now) }
    ensures { (bytes : List ℕ) → IsBytes bytes → length bytes ≤ max_reply
        → StandsBehind (query_of query.now) (Progress.Trees reply) bytes
        → (result ≡ Err CheckFault.Memory)
        ⊎ CheckOf client.now.key client.now.least (query_of query.now) bytes result }
{
    let OpenReply { head, trees } = reply;
    match trees.end() {
        Some(trees) => judge_streamed(alloc, client.key(), client.least(), query, &head, &trees),
        None => Err(CheckFault::BadForm),
    }
}
