//! Calls of replies and proofs.
ghost use Rattle.std.specs.Prelude.{map};
ghost use Rattle.vo_spec.specs.Replies.{FitsProofs, FitsReply};
ghost use Rattle.mb_tree.specs.View.{part_of};
ghost use Rattle.vo_format.specs.View.{reply_of};

use crate::arguments::{array_of, number_of};
use crate::keys::read_key;
use crate::records::read_fault;
use line_pieces::{NoAnswer, query_in};
use lms_sign::PublicKey;
use std::alloc::Global;
use vo_format::{
    PartTree, Reply, begin_proofs, read_proofs, read_reply, write_proofs, write_reply,
};
use vo_spec::QueryText;
use vo_store::{ReplyFault, reply_at, reply_by};

/// A reply's version, its signature's length, its number of trees, and its bytes again.
pub fn reply(alloc: Global, strings: &[Vec<u8>]) -> Result<String, NoAnswer> {
    let [bytes] = strings else {
        return Err(NoAnswer::NoSuchLine);
    };
    match read_reply(alloc, bytes) {
        Ok(reply) => {
            let text = reply_text(alloc, &reply);
            drop(reply);
            text
        }
        Err(fault) => read_fault(alloc, fault),
    }
}

fn reply_text(alloc: Global, reply: &Reply<'_>) -> Result<String, NoAnswer>
    requires { FitsReply (reply_of reply.now) }
{
    let version = reply.rec.version;
    let length = reply.signature.len();
    let trees = reply.trees.len();
    let bytes = hex::encode(alloc, write_reply(alloc, reply)?)?;
    Ok(format!(in alloc; "{version} {length} {trees} {bytes}")?)
}

/// How many trees proofs have, and their bytes again.
pub fn proofs(alloc: Global, strings: &[Vec<u8>]) -> Result<String, NoAnswer> {
    let [bytes] = strings else {
        return Err(NoAnswer::NoSuchLine);
    };
    match read_proofs(alloc, bytes) {
        Ok(trees) => {
            let text = proofs_text(alloc, &trees);
            drop(trees);
            text
        }
        Err(fault) => read_fault(alloc, fault),
    }
}

fn proofs_text(alloc: Global, trees: &[PartTree<'_>]) -> Result<String, NoAnswer>
    requires { FitsProofs (map part_of trees.now) }
{
    let bytes = hex::encode(alloc, write_proofs(alloc, trees)?)?;
    Ok(format!(in alloc; "{} {bytes}", trees.len())?)
}

/// What the proofs of so many trees begin with.
pub fn begin(alloc: Global, strings: &[Vec<u8>]) -> Result<String, NoAnswer> {
    let [count] = strings else {
        return Err(NoAnswer::NoSuchLine);
    };
    let mut bytes = Vec::new(alloc);
    begin_proofs(&mut bytes, u16::from_be_bytes(array_of::<2>(count)?))?;
    Ok(hex::encode(alloc, bytes)?)
}

/// The reply to a query of the store of a key that loads a journal.
pub fn answer_by(alloc: Global, strings: &[Vec<u8>]) -> Result<String, NoAnswer> {
    let [key, query, journal] = strings else {
        return Err(NoAnswer::NoSuchLine);
    };
    let key = read_key(key)?;
    let query = query_in(alloc, query)?;
    let answer = answer_to(alloc, key, &query, journal);
    drop(query);
    answer
}

fn answer_to(
    alloc: Global,
    key: PublicKey,
    query: &QueryText,
    journal: &[u8],
) -> Result<String, NoAnswer> {
    reply_line(alloc, reply_by(alloc, key, journal, query))
}

fn reply_line(alloc: Global, reply: Result<Vec<u8>, ReplyFault>) -> Result<String, NoAnswer> {
    match reply {
        Ok(reply) => Ok(hex::encode(alloc, reply)?),
        Err(ReplyFault::BadJournal { index }) => Ok(format!(in alloc; "(BadJournal {index})")?),
        Err(ReplyFault::TooLarge { length }) => Ok(format!(in alloc; "(TooLarge {length})")?),
        Err(
            ReplyFault::NoVersion {
                version,
                oldest,
                newest,
            },
        ) => Ok(format!(in alloc; "(NoVersion {version} {oldest} {newest})")?),
        Err(ReplyFault::Memory) => Err(NoAnswer::Memory),
    }
}

/// The reply to a query by a version that the store of a key keeps once it has loaded a journal.
pub fn answer_at(alloc: Global, strings: &[Vec<u8>]) -> Result<String, NoAnswer> {
    let [key, query, journal, version] = strings else {
        return Err(NoAnswer::NoSuchLine);
    };
    let key = read_key(key)?;
    let version = number_of(version)?;
    let query = query_in(alloc, query)?;
    let reply = reply_at(alloc, key, journal, version, &query);
    drop(query);
    reply_line(alloc, reply)
}
