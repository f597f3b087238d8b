//! Answers to queries.
ghost use Rattle.std.specs.Prelude.{◌≡◌, Some, IfOk, option_map};
ghost use Rattle.vo_spec.specs.Conditions.{query_of};
ghost use Rattle.store_requests.specs.Bodies.{query_at_in};
ghost use Rattle.store_requests.specs.Texts.{query_in};
ghost use Rattle.vo_store.specs.Calls.{Gives};
ghost use Rattle.vo_wire.specs.Answering.{FitsFrame, answer_by, query_answer, query_at_answer, reply_answer, frame_answer};

use crate::answers::{NO_QUERY, refusal_by, refusal_frame};
use link_frames::{Frame, FrameKind};
use std::alloc::{AllocError, Global};
use store_requests::{read_query, read_query_at};
use vo_store::{QueryText, Store, StoreFault};

/// The answer to the query of a version that a body is; none where it begins with no version.
pub(crate) fn answer_query_at(
    alloc: Global,
    store: &Store,
    body: &[u8],
) -> Result<Option<Frame>, AllocError>
    ensures answer { IfOk result (λ answer. frame_answer answer
        ≡ option_map (query_at_answer store.now) (query_at_in body.now)) }
    ensures fits { IfOk result FitsFrame }
{
    match read_query_at(body) {
        Some(asked) => answer_query(alloc, store, Some(asked.version), asked.text),
        None => Ok(None),
    }
}

/// The answer to the query that a text is, which may be none, by the version that the store stands
/// at, or by this one.
pub(crate) fn answer_query(
    alloc: Global,
    store: &Store,
    at: Option<u64>,
    text: &[u8],
) -> Result<Option<Frame>, AllocError>
    ensures answer { IfOk result
        (λ answer. frame_answer answer ≡ Some (query_answer store.now at (query_in text.now))) }
    ensures fits { IfOk result FitsFrame }
{
    match read_query(alloc, text) {
        Ok(Some(query)) => reply(alloc, store, at, &query),
        Ok(None) => refusal_frame(alloc, NO_QUERY),
        Err(error) => Err(error),
    }
}

/// The reply to a query.
fn reply(
    alloc: Global,
    store: &Store,
    at: Option<u64>,
    query: &QueryText,
) -> Result<Option<Frame>, AllocError>
    ensures answer { IfOk result
        (λ answer. frame_answer answer
        ≡ Some (reply_answer (answer_by store.now at (query_of query.now)))) }
    ensures fits { IfOk result FitsFrame }
{
    match answer_by(alloc, store, at, query) {
        Ok(body) => Ok(Some(Frame {
            kind: FrameKind::Reply,
            body,
        })),
        Err(fault) => refusal_by(alloc, fault),
    }
}

/// What the store says to a query, asked of the version that it stands at, or of this one.
fn answer_by(
    alloc: Global,
    store: &Store,
    at: Option<u64>,
    query: &QueryText,
) -> Result<Vec<u8>, StoreFault>
    ensures { Gives (λ bytes. bytes.items) result (answer_by store.now at (query_of query.now)) }
{
    match at {
        Some(version) => store.answer_at(alloc, version, query),
        None => store.answer(alloc, query),
    }
}
