//! The check of a reply whose bytes come in pieces.
ghost use Rattle.std.specs.Prelude.{◌≡◌, ◌⊎◌, ◌≤◌, ◌<◌, ◌^◌, ◌+◌, ◌-◌, ◌++◌, ℕ, List, None, Some, Ok, Err, true, false, length, min, IsErr, IsOk, IfOk, OnOk, OnErr};
ghost use Rattle.vo_spec.specs.Bytes.{IsBytes};
ghost use Rattle.vo_spec.specs.Checks.{CheckOf};
ghost use Rattle.vo_spec.specs.Conditions.{query_of};
ghost use Rattle.vo_spec.specs.Replies.{IsNoReply, max_reply};
ghost use Rattle.reply_stream.specs.Heads.{head_at};
ghost use Rattle.reply_stream.specs.HeadFronts.{IsHeadFront};
ghost use Rattle.held_replies.specs.Accepting.{IsSignedReply};
ghost use Rattle.reply_stream.specs.ReplyHeads.{ReplyHead, head_size};
ghost use Rattle.reply_stream.specs.ReplyParts.{reply_parts};
ghost use Rattle.reply_stream.specs.ReplyTrees.{first_count};
ghost use Rattle.reply_stream.specs.declared.trees_summary.TreesSummary.{TreesSummary as PlainSummary};
ghost use Rattle.vo_check.specs.Streamed.{plan_for};
ghost use Rattle.vo_check.specs.Streaming.{IsBuffered, IsStreamed};
ghost use Rattle.vo_check.specs.Checkings.{HasHead, HoldsNeeded, WantsRow, with_piece, without_memory};

use crate::client::Client;
use crate::ending::end_progress;
use crate::feeding::{feed_progress, forget_reply};
use crate::holding::held_in;
use crate::progress::Progress;
use reply_stream::ReplyLength;
use running_hash::{ByteLog, Piece};
use std::alloc::{AllocError, Global};
use std::marker::Model;
use vo_spec::{Answer, CheckFault, QueryText};

/// A reply to a query, checked as it comes. Of a reply to a query without a join or a limit it holds
/// what comes before the trees, the rows that the query needs, and no more of the trees than a stack of
/// ten nodes and a token; of others the pieces up to the limit.
#[derive(Drop)]
pub struct Checking<'q> {
    pub(crate) query: &'q QueryText,
    pub(crate) count: ReplyLength,
    pub(crate) progress: Progress,
    pub(crate) log: ByteLog,
}

impl<'q> Model for Checking<'q> {
    ghost use Rattle.std.specs.Prelude.{◌≡◌, length};
    ghost use Rattle.vo_spec.specs.Bytes.{IsBytes};
    ghost use Rattle.vo_spec.specs.Conditions.{query_of};
    ghost use Rattle.reply_stream.specs.Lengths.{count_up_to_most};
    ghost use Rattle.std.specs.Coded.{codes};
    ghost use Rattle.vo_spec.specs.contracts.queries.Cond as cond;
    ghost use Rattle.vo_check.specs.Checkings.{CheckingModel, StandsBehind, StaysWithin, is_out_of_memory};

    ghost Value = { CheckingModel };

    ghost coded = { Prim.hlevel (codes, cond.the_row.coded) };

    ghost view = { λ checking. record {
      query = checking.query.now;
      bytes = checking.log.bytes;
      is_out_of_memory = is_out_of_memory checking.progress;
    } };

    ghost invariant = { λ checking. IsBytes checking.log.bytes
        × (checking.count ≡ count_up_to_most (length checking.log.bytes))
        × StandsBehind (query_of checking.query.now) checking.progress checking.log.bytes
        × StaysWithin checking.progress checking.log.bytes };
}

impl Checking<'_> {
    /// Takes the piece that comes next.
    pub fn feed(&mut self, alloc: Global, piece: &[u8]) -> Result<(), AllocError>
        ensures ok { OnOk result (self.new ≡ with_piece self.old piece.now) }
        ensures err { OnErr result (self.new ≡ without_memory self.old piece.now) }

        // Of a reply over the limit only the length is counted.
        ensures over { max_reply < length self.old.bytes + length piece.now → IsOk result }

        // Up to the catalog's last byte memory runs out only where the bytes so far are the front
        // of a head.
        ensures head { IsStreamed (query_of self.old.query) → (HasHead self.old.bytes → ⊥)
            → IsErr result → IsHeadFront self.old.bytes }

        // Behind it memory runs out only while the bytes so far can still become a reply,
        ensures dead { IsStreamed (query_of self.old.query) → HasHead self.old.bytes
            → ((more : List ℕ) → IsBytes more → IsNoReply (self.old.bytes ++ more))
            → IsOk result }

        // and only at a byte of a row that the query needs, as the bytes say.
        ensures memory { IsStreamed (query_of self.old.query) → HasHead self.old.bytes → IsErr result
            → WantsRow (query_of self.old.query) self.old.bytes piece.now }
    {
        self.count.add(piece);
        self.log = self.log.with_piece(&Piece { bytes: piece });
        if self.count.excess().is_some() {
            forget_reply(&mut self.progress);
            return Ok(());
        }
        feed_progress(&mut self.progress, alloc, self.query, piece)
    }

    /// How many bytes of the reply are held: those of its head, the keys of the rows that were
    /// found, their values as they are encoded, and a token that isn't whole; or all pieces of a
    /// reply that is kept. Rows are counted one by one.
    pub fn held(&self) -> usize
        // Up to the catalog's last byte these are all that came, or none where they can't be a
        // head.
        ensures front { IsStreamed (query_of self.now.query) → (HasHead self.now.bytes → ⊥)
            → length self.now.bytes ≤ max_reply → self.now.is_out_of_memory ≡ false
            → (result ≡ length self.now.bytes)
            ⊎ ((result ≡ 0) × ((more : List ℕ) → head_at (self.now.bytes ++ more) ≡ None)) }

        // Behind it they are no more than the head, the rows that the query needs, as far as they
        // came, and a token.
        ensures needed { IsStreamed (query_of self.now.query) → HasHead self.now.bytes
            → HoldsNeeded (query_of self.now.query) self.now.bytes result }

        // Of a whole reply they are the head and all rows that were found, or more.
        ensures found { IsStreamed (query_of self.now.query) → (head : ReplyHead)
            (trees : PlainSummary)
            → reply_parts (plan_for (query_of self.now.query)) self.now.bytes ≡ Some (head, trees)
            → length self.now.bytes ≤ max_reply → self.now.is_out_of_memory ≡ false
            → min (head_size head + first_count trees.first) (2 ^ 64 - 1) ≤ result }

        // Of a reply that is kept they are all,
        ensures kept { IsBuffered (query_of self.now.query) → length self.now.bytes ≤ max_reply
            → self.now.is_out_of_memory ≡ false → result ≡ length self.now.bytes }

        // and of one over the limit none, nor where a piece found no memory.
        ensures over { max_reply < length self.now.bytes → result ≡ 0 }
        ensures out { self.now.is_out_of_memory ≡ true → result ≡ 0 }
    {
        held_in(&self.progress)
    }

    /// What the client says of the reply that the pieces are, joined. It takes no older version
    /// from then on. A reply of more bytes than can be counted is as long as can be.
    pub fn end(self, alloc: Global, client: &mut Client) -> Result<Answer, CheckFault>
        ensures answers { length self.entry.bytes < 2 ^ 64 → (result ≡ Err CheckFault.Memory)
            ⊎ CheckOf client.old.key client.old.least (query_of self.entry.query)
            self.entry.bytes result }
        ensures beyond { 2 ^ 64 ≤ length self.entry.bytes → (result ≡ Err CheckFault.Memory)
            ⊎ (result ≡ Err (CheckFault.TooLong (2 ^ 64 - 1))) }

        // Where a piece found no memory, that is the answer.
        ensures out { self.entry.is_out_of_memory ≡ true → result ≡ Err CheckFault.Memory }
        ensures accepted { IfOk result (λ answer.
            IsSignedReply client.old.key client.old.least self.entry.bytes answer.version) }
        ensures least { IfOk result (λ answer. client.new.least ≡ answer.version) }
        ensures key { client.new.key ≡ client.old.key }
        ensures kept { OnErr result (client.new ≡ client.old) }
    {
        let Checking {
            query,
            count,
            progress,
            ..
        } = self;
        let answer = end_progress(alloc, client, query, &count, progress);
        client.keep_version(&answer);
        answer
    }
}
