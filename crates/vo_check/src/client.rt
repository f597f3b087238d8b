//! A client: the key that it trusts, and the least version that it still takes.
ghost use Rattle.std.specs.Prelude.{◌≡◌, ◌⊎◌, IfOk, OnErr, Err};
ghost use Rattle.vo_spec.specs.Conditions.{query_of};
ghost use Rattle.vo_spec.specs.Checks.{CheckOf};
ghost use Rattle.held_replies.specs.Accepting.{IsSignedReply};
ghost use Rattle.vo_check.specs.Checkings.{no_bytes_of};

use crate::checking::Checking;
use crate::feeding::first_progress;
use crate::streaming::is_streamed;
use held_replies::judge_bytes;
use lms_sign::PublicKey;
use reply_stream::ReplyLength;
use running_hash::ByteLog;
use std::alloc::Global;
use vo_spec::{Answer, CheckFault, QueryText};

/// A client of an owner's tables.
#[derive(Debug, Drop)]
pub struct Client {
    key: PublicKey,
    least: u64,
}

impl Client {
    /// A client of this key's owner, who takes no version below `least`.
    pub fn new(key: PublicKey, least: u64) -> Client
        ensures key { result.key ≡ key }
        ensures least { result.least ≡ least }
    {
        Client { key, least }
    }

    /// The least version that the client takes.
    pub fn least(&self) -> u64
        ensures { result ≡ self.now.least }
    {
        self.least
    }

    /// The key that the client trusts.
    pub(crate) fn key(&self) -> &PublicKey
        ensures { result.now ≡ self.now.key }
    {
        &self.key
    }

    /// The check of a reply to this query, of which no bytes came yet.
    pub fn begin<'q>(&self, alloc: Global, query: &'q QueryText) -> Checking<'q>
        ensures { result ≡ no_bytes_of query.now }
    {
        Checking {
            query,
            count: ReplyLength::new(),
            progress: first_progress(alloc, query),
            log: ByteLog::empty(),
        }
    }

    /// The answer of a reply to the query, or the first test that refuses it. The client takes no
    /// older version from then on.
    pub fn check(
        &mut self,
        alloc: Global,
        query: &QueryText,
        reply: &[u8],
    ) -> Result<Answer, CheckFault>
        ensures answers { (result ≡ Err CheckFault.Memory)
            ⊎ CheckOf self.old.key self.old.least (query_of query.now) reply.now result }
        ensures accepted { IfOk result (λ answer.
            IsSignedReply self.old.key self.old.least reply.now answer.version) }
        ensures least { IfOk result (λ answer. self.new.least ≡ answer.version) }
        ensures key { self.new.key ≡ self.old.key }
        ensures kept { OnErr result (self.new ≡ self.old) }
    {
        // The pieces would be kept, and these are at hand.
        if !is_streamed(query) {
            return self.check_whole(alloc, query, reply);
        }
        let mut checking = self.begin(alloc, query);
        // Where this finds no memory, the end says so.
        let _ = checking.feed(alloc, reply);
        checking.end(alloc, self)
    }

    /// The same by the part trees of the reply, all of which are held. It is what replies to
    /// queries with a join or a limit are checked by.
    pub fn check_whole(
        &mut self,
        alloc: Global,
        query: &QueryText,
        reply: &[u8],
    ) -> Result<Answer, CheckFault>
        ensures answers { (result ≡ Err CheckFault.Memory)
            ⊎ CheckOf self.old.key self.old.least (query_of query.now) reply.now result }
        ensures accepted { IfOk result (λ answer.
            IsSignedReply self.old.key self.old.least reply.now answer.version) }
        ensures least { IfOk result (λ answer. self.new.least ≡ answer.version) }
        ensures key { self.new.key ≡ self.old.key }
        ensures kept { OnErr result (self.new ≡ self.old) }
    {
        let answer = self.answer_whole(alloc, query, reply);
        self.keep_version(&answer);
        answer
    }

    /// What the client says of the reply by all of its part trees.
    pub(crate) fn answer_whole(
        &self,
        alloc: Global,
        query: &QueryText,
        reply: &[u8],
    ) -> Result<Answer, CheckFault>
        ensures { (result ≡ Err CheckFault.Memory)
            ⊎ CheckOf self.now.key self.now.least (query_of query.now) reply.now result }
    {
        judge_bytes(alloc, &self.key, self.least, query, reply)
    }

    /// Takes no version below that of the answer from now on.
    pub(crate) fn keep_version(&mut self, answer: &Result<Answer, CheckFault>)
        ensures least { IfOk answer.now (λ answer. self.new.least ≡ answer.version) }
        ensures key { self.new.key ≡ self.old.key }
        ensures kept { OnErr answer.now (self.new ≡ self.old) }
    {
        if let Ok(answer) = answer {
            self.least = answer.version;
        }
    }
}
