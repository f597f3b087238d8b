//! The steps of a check whose bytes come in pieces.
ghost use Rattle.std.specs.Prelude.{◌≡◌, ◌<◌, ◌++◌, ℕ, List, [], None, Some, Ok, true, false, length, IsErr, IsOk, IfOk, OnOk, OnErr};
ghost use Rattle.vo_spec.specs.Conditions.{Query, query_of};
ghost use Rattle.vo_spec.specs.Bytes.{IsBytes};
ghost use Rattle.vo_spec.specs.Replies.{IsNoReply, max_reply};
ghost use Rattle.reply_stream.specs.Heads.{head_at};
ghost use Rattle.reply_stream.specs.HeadFronts.{IsHeadFront};
ghost use Rattle.vo_check.specs.Streaming.{IsStreamed};
ghost use Rattle.vo_check.specs.Checkings.{HasHead, StandsBehind, StaysWithin, WantsRow, is_of_head, is_out_of_memory};

use crate::progress::{OpenReply, Progress, put};
use crate::streaming::is_streamed;
use crate::targets::target_for;
use reply_stream::{Head, HeadStream, TreesStream};
use std::alloc::{AllocError, Global};
use std::mem;
use vo_spec::QueryText;

/// Where the check of a reply to this query begins.
pub(crate) fn first_progress(alloc: Global, query: &QueryText) -> Progress
    ensures stands { StandsBehind (query_of query.now) result [] }
    ensures within { StaysWithin result [] }
    ensures out { is_out_of_memory result ≡ false }
{
    if is_streamed(query) {
        Progress::Head(HeadStream::new(alloc))
    } else {
        Progress::Buffered(Vec::new(alloc))
    }
}

/// Lets go of what was read of a reply over the limit, of which only the length counts.
pub(crate) fn forget_reply(progress: &mut Progress)
    ensures stands { (q : Query) (bytes : List ℕ) → max_reply < length bytes
        → StandsBehind q progress.new bytes }
    ensures within { (bytes : List ℕ) → StaysWithin progress.new bytes }
    ensures out { is_out_of_memory progress.new ≡ is_out_of_memory progress.old }
{
    if !matches!(progress, Progress::OutOfMemory) {
        put(progress, Progress::TooLong);
    }
}

/// Takes the piece that comes next.
pub(crate) fn feed_progress(
    progress: &mut Progress,
    alloc: Global,
    query: &QueryText,
    piece: &[u8],
) -> Result<(), AllocError>
    ensures stands { OnOk result ((bytes : List ℕ)
        → StandsBehind (query_of query.now) progress.old bytes
        → StandsBehind (query_of query.now) progress.new (bytes ++ piece.now)) }
    ensures out { OnOk result (is_out_of_memory progress.new ≡ is_out_of_memory progress.old) }
    ensures err { OnErr result (progress.new ≡ Progress.OutOfMemory) }
    ensures dead { (bytes : List ℕ) → IsBytes bytes
        → StandsBehind (query_of query.now) progress.old bytes → IsStreamed (query_of query.now)
        → HasHead bytes → ((more : List ℕ) → IsBytes more → IsNoReply (bytes ++ more))
        → IsOk result }
    ensures memory { (bytes : List ℕ) → StandsBehind (query_of query.now) progress.old bytes
        → IsStreamed (query_of query.now) → HasHead bytes → IsErr result
        → WantsRow (query_of query.now) bytes piece.now }
    ensures front { (bytes : List ℕ) → StandsBehind (query_of query.now) progress.old bytes
        → IsStreamed (query_of query.now) → (HasHead bytes → ⊥) → IsErr result
        → IsHeadFront bytes }
{
    match feed_behind_head(progress, alloc, piece) {
        Ok(true) => Ok(()),
        Ok(false) => feed_head(progress, alloc, query, piece),
        Err(error) => {
            put(progress, Progress::OutOfMemory);
            Err(error)
        },
    }
}

/// Takes a piece where the progress stands, unless that is of a head, and says whether it did. The
/// progress of trees is large, and isn't moved for a piece.
fn feed_behind_head(
    progress: &mut Progress,
    alloc: Global,
    piece: &[u8],
) -> Result<bool, AllocError>
    ensures stands { result ≡ Ok true → (q : Query) (bytes : List ℕ)
        → StandsBehind q progress.old bytes → StandsBehind q progress.new (bytes ++ piece.now) }
    ensures out { result ≡ Ok true
        → is_out_of_memory progress.new ≡ is_out_of_memory progress.old }
    ensures head { result ≡ Ok false
        → (progress.new ≡ progress.old) × (is_of_head progress.old ≡ true) }
    ensures dead { (q : Query) (bytes : List ℕ) → IsBytes bytes → IsStreamed q
        → StandsBehind q progress.old bytes
        → ((more : List ℕ) → IsBytes more → IsNoReply (bytes ++ more)) → IsOk result }
    ensures memory { (q : Query) (bytes : List ℕ) → IsStreamed q
        → StandsBehind q progress.old bytes → IsErr result → WantsRow q bytes piece.now }
{
    match progress {
        Progress::Head(_) => Ok(false),
        Progress::Trees(reply) => {
            reply.trees.feed(alloc, piece)?;
            Ok(true)
        },
        Progress::Buffered(held) => {
            held.extend_from_slice(piece)?;
            Ok(true)
        },
        Progress::TooLong => Ok(true),
        Progress::OutOfMemory => Ok(true),
    }
}

/// Takes a piece of the head, and where that ends in it, of the trees.
fn feed_head(
    progress: &mut Progress,
    alloc: Global,
    query: &QueryText,
    piece: &[u8],
) -> Result<(), AllocError>
    requires { is_of_head progress.old ≡ true }
    ensures stands { OnOk result ((bytes : List ℕ)
        → StandsBehind (query_of query.now) progress.old bytes
        → StandsBehind (query_of query.now) progress.new (bytes ++ piece.now)) }
    ensures out { OnOk result (is_out_of_memory progress.new ≡ is_out_of_memory progress.old) }
    ensures err { OnErr result (progress.new ≡ Progress.OutOfMemory) }
    ensures before { (q : Query) (bytes : List ℕ) → StandsBehind q progress.old bytes
        → HasHead bytes → ⊥ }
    ensures front { IsErr result → (bytes : List ℕ)
        → StandsBehind (query_of query.now) progress.old bytes → IsHeadFront bytes }
{
    match mem::replace(progress, Progress::OutOfMemory) {
        Progress::Head(stream) => {
            put(progress, progress_behind(stream, alloc, query, piece)?);
            Ok(())
        },
        _ => unreachable!(),
    }
}

/// What a piece leaves that is of the head, and where that ends in it, of the trees.
fn progress_behind(
    mut stream: HeadStream,
    alloc: Global,
    query: &QueryText,
    piece: &[u8],
) -> Result<Progress, AllocError>
    ensures stands { IfOk result (λ next. (bytes : List ℕ)
        → StandsBehind (query_of query.now) (Progress.Head stream) bytes
        → StandsBehind (query_of query.now) next (bytes ++ piece.now)) }
    ensures out { IfOk result (λ next. is_out_of_memory next ≡ false) }
    ensures front { IsErr result → (bytes : List ℕ)
        → StandsBehind (query_of query.now) (Progress.Head stream) bytes → IsHeadFront bytes }
{
    let left = stream.feed(alloc, piece)?;
    if stream.head().is_none() {
        return Ok(Progress::Head(stream));
    }
    match stream.end() {
        Some(head) => open_reply(alloc, query, head, left),
        None => unreachable!(),
    }
}

/// Begins the trees behind a head, of which these bytes came.
fn open_reply(
    alloc: Global,
    query: &QueryText,
    head: Head,
    left: &[u8],
) -> Result<Progress, AllocError>
    ensures stands { IfOk result (λ next. (bytes : List ℕ) → IsStreamed (query_of query.now)
        → ((more : List ℕ) → head_at (bytes ++ more) ≡ Some (head, left.now ++ more))
        → StandsBehind (query_of query.now) next bytes) }
    ensures out { IfOk result (λ next. is_out_of_memory next ≡ false) }
{
    let mut trees = TreesStream::new(target_for(alloc, query, head.catalog())?);
    let fed = trees.feed(alloc, left);
    unless_out_of_memory(Progress::Trees(OpenReply { head, trees }), fed)
}

/// What was fed, unless that found no memory.
fn unless_out_of_memory<T: Drop>(state: T, fed: Result<(), AllocError>) -> Result<T, AllocError>
    ensures ok { OnOk fed (result ≡ Ok state) }
    ensures err { OnErr fed (IsErr result) }
{
    fed?;
    Ok(state)
}
