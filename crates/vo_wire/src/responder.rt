//! A store as what answers requests.
ghost use Rattle.std.specs.Prelude.{◌≡◌, None, IfOk, IfSome, OnErr};
ghost use Rattle.vo_wire.specs.Answering.{FitsFrame, frame_answer, reply_to, next_after};

use crate::loan::{LentStore, Loan, StoreServer};
use crate::queries::{answer_query, answer_query_at};
use crate::statuses::answer_status;
use crate::versions::{answer_install, answer_proposal};
use link_frames::{Frame, FrameKind, Responder};
use std::alloc::{AllocError, Global};
use vo_store::Store;

impl<K: Loan> Responder for StoreServer<'_, K> {
    ghost use Rattle.vo_store.specs.StoreState.{StoreState};
    ghost use Rattle.vo_wire.specs.Answering.{reply_to, next_after};

    ghost State = { StoreState };

    ghost state = { λ server. server.lent.store.now };

    ghost reply = { reply_to };

    ghost next = { next_after };

    fn answer(
        &mut self,
        alloc: Global,
        kind: FrameKind,
        body: &[u8],
    ) -> Result<Option<Frame>, AllocError> {
        self.lent.answer(alloc, kind, body)
    }
}

impl LentStore<'_> {
    /// The answer of the store that is lent.
    fn answer(
        &mut self,
        alloc: Global,
        kind: FrameKind,
        body: &[u8],
    ) -> Result<Option<Frame>, AllocError>
        ensures same { self.new.store.ghost_name ≡ self.old.store.ghost_name }
        ensures answer { IfOk result
            (λ answer. frame_answer answer ≡ reply_to self.old.store.now kind body.now) }
        ensures fits { IfOk result FitsFrame }
        ensures next { IfOk result (λ answer. IfSome answer
            (λ _. self.new.store.now ≡ next_after self.old.store.now kind body.now)) }
        ensures none { IfOk result (λ answer. answer ≡ None
            → self.new.store.now ≡ self.old.store.now) }
        ensures err { OnErr result (self.new.store.now ≡ self.old.store.now) }
    {
        answer_request(alloc, self.store, kind, body)
    }
}

/// The answer to a request, by its kind.
#[tactic(auto, unfolding(crate::specs::Answering::reply_to, crate::specs::Answering::next_after))]
fn answer_request(
    alloc: Global,
    store: &mut Store,
    kind: FrameKind,
    body: &[u8],
) -> Result<Option<Frame>, AllocError>
    ensures answer { IfOk result
        (λ answer. frame_answer answer ≡ reply_to store.old kind body.now) }
    ensures fits { IfOk result FitsFrame }
    ensures next { IfOk result (λ answer. IfSome answer
        (λ _. store.new ≡ next_after store.old kind body.now)) }
    ensures none { IfOk result (λ answer. answer ≡ None → store.new ≡ store.old) }
    ensures err { OnErr result (store.new ≡ store.old) }
{
    match kind {
        FrameKind::Query => answer_query(alloc, store, None, body),
        FrameKind::Status => answer_status(alloc, store, body),
        FrameKind::Propose => answer_proposal(alloc, store, body),
        FrameKind::Install => answer_install(alloc, store, body),
        FrameKind::QueryAt => answer_query_at(alloc, store, body),
        _ => Ok(None),
    }
}
