//! Two clients of an owner, and what is said of one event after the other.
ghost use Rattle.std.specs.Prelude.{◌<◌, All, IfOk};
ghost use Rattle.vo_spec.specs.Batches.{FitsBatch};
ghost use Rattle.vo_world.specs.Steps.{FitsEvent};

use crate::{Event, Said, World, run_schedule, schedules_are_sound};
use batch_format::read_batch;
use lms_sign::{OtsType, SecretKey};
use sql_text::parse_query;
use std::alloc::{AllocError, Global};
use std::test::Fail;
use vo_spec::{Batch, List, QueryText};
use vo_store::{ReplyFault, reply_at, reply_by};

// CREATE TABLE t (id BIGINT, name TEXT, PRIMARY KEY (id))
const CREATE: &[u8] = b"\x00\x01\x01\x01t\x02\x02id\x01\x04name\x02\x02id";
// INSERT INTO t VALUES (1, 'ann')
const INSERT: &[u8] = b"\x00\x01\x03\x01t\x02\x01\x00\x00\x00\x00\x00\x00\x00\x01\x02\x00\x03ann";
// DROP TABLE u
const DROP: &[u8] = b"\x00\x01\x02\x01u";

const NO_PROOFS: &[u8] = b"VOU1\x00\x00";

const EMPTY_LEAF: &[u8] = b"VOU1\x00\x01\x01\x00";

/// What happens.
#[derive(Clone, Copy)]
enum Happening {
    /// A commit of a batch by these proofs.
    Commit(&'static [u8], &'static [u8]),
    /// A stop that leaves the journal without so many bytes at its end.
    Stop(usize),
    /// The first client gets a reply.
    First(Reply),
    /// The second one does.
    Second(Reply),
}

/// The honest reply by the table's version, or by the one before.
#[derive(Clone, Copy)]
enum Reply {
    Newer,
    Older,
}

/// What happens, and how what is said of it begins.
const ROWS: [(Happening, &str); 9] = [
    (Happening::Commit(CREATE, NO_PROOFS), "Committed(1)"),
    (Happening::Commit(INSERT, EMPTY_LEAF), "Committed(2)"),
    // Once more by the same proofs.
    (
        Happening::Commit(INSERT, EMPTY_LEAF),
        "Denied(ProofRoot { index: 0,",
    ),
    (
        Happening::First(Reply::Newer),
        "Accepted(Answer { version: 2,",
    ),
    (Happening::Stop(1), "NoImage"),
    (Happening::Stop(0), "Reopened(3)"),
    (
        Happening::First(Reply::Older),
        "Refused(Stale { least: 2, got: 1 })",
    ),
    (
        Happening::Second(Reply::Older),
        "Accepted(Answer { version: 1,",
    ),
    (
        Happening::Commit(DROP, NO_PROOFS),
        "Denied(Command { index: 0, fault: NoTable })",
    ),
];

/// The journal of both batches, and the replies to a query of all rows before and behind the second.
#[derive(Drop)]
struct Served {
    journal: Vec<u8>,
    older: Vec<u8>,
    newer: Vec<u8>,
}

fn batch_in(alloc: Global, bytes: &[u8]) -> Result<Batch, AllocError>
    ensures { IfOk result (λ batch. FitsBatch batch.commands) }
{
    read_batch(alloc, bytes).or(Err(AllocError))
}

fn query(alloc: Global) -> Result<QueryText, AllocError> {
    parse_query(alloc, "SELECT * FROM t").or(Err(AllocError))
}

/// The reply to a query of all rows by the world's journal.
fn reply_of(alloc: Global, key: &SecretKey, world: &World) -> Result<Vec<u8>, AllocError> {
    let query = query(alloc)?;
    let reply = reply_by(alloc, key.public(), world.journal(), &query);
    drop(query);
    reply.or(Err(AllocError))
}

fn commit(alloc: Global, world: &mut World, batch: &[u8], proofs: &[u8]) -> Result<(), AllocError> {
    let batch = batch_in(alloc, batch)?;
    let says = world.commit(alloc, &batch, proofs);
    drop(batch);
    drop(says?);
    Ok(())
}

fn commit_both(alloc: Global, key: &SecretKey, world: &mut World) -> Result<Served, AllocError> {
    commit(alloc, world, CREATE, NO_PROOFS)?;
    let older = reply_of(alloc, key, world)?;
    commit(alloc, world, INSERT, EMPTY_LEAF)?;
    Ok(Served {
        journal: Vec::from_slice(alloc, world.journal())?,
        older,
        newer: reply_of(alloc, key, world)?,
    })
}

/// What an owner of this key serves.
fn begin_and_commit(alloc: Global, key: &SecretKey) -> Result<Served, AllocError> {
    let mut world = World::new(alloc, key.copy(alloc)?, 0)?;
    let served = commit_both(alloc, key, &mut world);
    drop(world);
    served
}

/// Whether a version of what is served has this reply.
fn replies_at(
    alloc: Global,
    key: &SecretKey,
    served: &Served,
    version: u64,
    due: &[u8],
) -> Result<bool, AllocError> {
    let query = query(alloc)?;
    let reply = reply_at(alloc, key.public(), &served.journal, version, &query);
    drop(query);
    match reply {
        Ok(reply) => Ok(reply.as_slice() == due),
        Err(_) => Ok(false),
    }
}

/// Whether what is served has no version 3.
fn has_no_third(alloc: Global, key: &SecretKey, served: &Served) -> Result<bool, AllocError> {
    let query = query(alloc)?;
    let reply = reply_at(alloc, key.public(), &served.journal, 3, &query);
    drop(query);
    let due = ReplyFault::NoVersion {
        version: 3,
        oldest: 0,
        newest: 2,
    };
    Ok(reply.err() == Some(due))
}

/// Whether each version of what is served has the reply of a store that stopped there.
fn versions_are_kept(alloc: Global, key: &SecretKey) -> Result<bool, AllocError> {
    let served = begin_and_commit(alloc, key)?;
    let older = replies_at(alloc, key, &served, 1, &served.older);
    let newer = replies_at(alloc, key, &served, 2, &served.newer);
    let no_third = has_no_third(alloc, key, &served);
    drop(served);
    Ok(older? && newer? && no_third?)
}

fn bytes_of(alloc: Global, bytes: &[u8]) -> Result<List<u8>, AllocError> {
    Ok(List::from_vec(Vec::from_slice(alloc, bytes)?))
}

fn commit_event(alloc: Global, batch: &[u8], proofs: &[u8]) -> Result<Event, AllocError>
    ensures { IfOk result (FitsEvent 2) }
{
    let proofs = bytes_of(alloc, proofs)?;
    Ok(Event::Commit {
        batch: batch_in(alloc, batch)?,
        proofs,
    })
}

fn receive_event(alloc: Global, client: usize, bytes: &[u8]) -> Result<Event, AllocError>
    requires { client < 2 }
    ensures { IfOk result (FitsEvent 2) }
{
    let bytes = bytes_of(alloc, bytes)?;
    Ok(Event::Receive {
        client,
        query: query(alloc)?,
        bytes,
    })
}

fn reply_in(served: &Served, reply: Reply) -> &[u8] {
    match reply {
        Reply::Newer => &served.newer,
        Reply::Older => &served.older,
    }
}

fn event_of(alloc: Global, happening: Happening, served: &Served) -> Result<Event, AllocError>
    ensures { IfOk result (FitsEvent 2) }
{
    match happening {
        Happening::Commit(batch, proofs) => commit_event(alloc, batch, proofs),
        Happening::Stop(lost) => {
            let left = served.journal.len().saturating_sub(lost);
            let image = bytes_of(alloc, &served.journal[..left])?;
            Ok(Event::Crash { image })
        }
        Happening::First(reply) => receive_event(alloc, 0, reply_in(served, reply)),
        Happening::Second(reply) => receive_event(alloc, 1, reply_in(served, reply)),
    }
}

fn events(alloc: Global, served: &Served) -> Result<Vec<Event>, AllocError>
    ensures { IfOk result (λ events. All (FitsEvent 2) events.items) }
{
    let mut events = Vec::new(alloc);
    for (happening, _) in &ROWS {
        events.push(event_of(alloc, *happening, served)?)?;
    }
    Ok(events)
}

/// Whether what is said of the events is what is due.
fn are_due(alloc: Global, said: &[Said]) -> Result<bool, AllocError> {
    let mut are_due = said.len() == ROWS.len();
    for ((_, due), says) in ROWS.iter().zip(said) {
        let text = format!(in alloc; "{says:?}")?;
        are_due = are_due && text.starts_with(*due);
    }
    Ok(are_due)
}

/// Whether the world has come to what was served, and to both of the replies that were accepted.
fn has_come_to(world: &World, served: &Served) -> bool {
    let counts = (
        world.client_count(),
        world.entries().len(),
        world.released_records().len(),
    );
    let accepted = world.accepted_replies();
    let versions = accepted.iter().map(|reply| (reply.client, reply.version));
    counts == (2, 3, 3)
        && world.journal() == served.journal.as_slice()
        && versions.eq([(0, 2), (1, 1)])
}

/// Whether the events come to what is due.
fn come_to_what_is_due(alloc: Global, key: SecretKey) -> Result<bool, AllocError> {
    let served = begin_and_commit(alloc, &key)?;
    let events = events(alloc, &served)?;
    let (world, said) = run_schedule(alloc, key, 2, events)?;
    let are_due = are_due(alloc, &said);
    let has_come = has_come_to(&world, &served);
    drop((world, said, served));
    Ok(are_due? && has_come)
}

#[test]
fn events_in_a_row(rt: HostRuntime) -> Result<(), Fail> {
    let key = SecretKey::make(rt.alloc(), [7; 16], [8; 32], OtsType::W4, 5)?;
    schedules_are_sound();
    assert!(rt; come_to_what_is_due(rt.alloc(), key)?);
    Ok(())
}

#[test]
fn earlier_versions_are_answered(rt: HostRuntime) -> Result<(), Fail> {
    let key = SecretKey::make(rt.alloc(), [7; 16], [8; 32], OtsType::W4, 5)?;
    let are_kept = versions_are_kept(rt.alloc(), &key);
    drop(key);
    assert!(rt; are_kept?);
    Ok(())
}
