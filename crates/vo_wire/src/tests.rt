//! Served connections of an empty store, and of one that an owner fills, and a reply that is
//! checked as it comes.
use crate::{
    End, WireFault, ask_at_into, ask_into, fetch_at_into, fetch_into, install_link, propose_link,
    serve_link, status_link,
};
use lms_sign::{OtsType, PublicKey, SecretKey};
use outside::{MemNet, Net, Never};
use owner_state::Owner;
use std::alloc::{AllocError, Global};
use std::test::Fail;
use store_requests::read_query;
use vo_check::{Checking, Client};
use vo_spec::{
    Answer, Batch, CheckFault, Digest, List, Magic, Outcome, QueryFault, QueryText, Record,
};
use vo_store::Store;

/// Requests of one query: of the newest version, of version 0 and of version 1.
const ASKS: &[u8] = b"\x00\x00\x00\x10\x01SELECT * FROM t";

const ASKS_VERSION_0: &[u8] =
    b"\x00\x00\x00\x18\x05\x00\x00\x00\x00\x00\x00\x00\x00SELECT * FROM t";

const ASKS_VERSION_1: &[u8] =
    b"\x00\x00\x00\x18\x05\x00\x00\x00\x00\x00\x00\x00\x01SELECT * FROM t";

/// A network of one connection to come.
fn network(alloc: Global, coming: &[u8]) -> Result<MemNet<Never>, AllocError> {
    let coming = Vec::from_slice(alloc, coming)?;
    let connections = vec![in alloc; coming]?;
    Ok(MemNet::new(alloc, connections, Never)?.in_pieces(3))
}

/// How serving the next connection ended.
fn served_end(alloc: Global, store: &mut Store, net: &mut MemNet<Never>) -> Option<End> {
    match net.next() {
        Ok(()) => Some(serve_link(alloc, store, net)),
        Err(_) => None,
    }
}

/// A new store, whose key signs nothing.
fn empty_store(alloc: Global) -> Result<Store, Fail> {
    let mut key = [0; 56];
    key[3] = 5;
    key[7] = 4;
    Ok(Store::new(alloc, PublicKey::read(&key)?)?)
}

fn empty_store_ends_on(
    alloc: Global,
    net: &mut MemNet<Never>,
    end: End,
    sent: &[u8],
) -> Result<bool, Fail> {
    let mut store = empty_store(alloc)?;
    let found = served_end(alloc, &mut store, net);
    drop(store);
    Ok(found == Some(end) && net.sent() == sent)
}

/// Whether a connection to an empty store, on which this comes, ends so, and with this sent.
fn empty_store_ends(alloc: Global, coming: &[u8], end: End, sent: &[u8]) -> Result<bool, Fail> {
    let mut net = network(alloc, coming)?;
    let is_so = empty_store_ends_on(alloc, &mut net, end, sent);
    drop(net);
    is_so
}

#[test]
fn an_empty_store_refuses(rt: HostRuntime) -> Result<(), Fail> {
    // A status, a text that is no query, a query, and a batch of no commands.
    let coming = b"\x00\x00\x00\x01\x02\x00\x00\x00\x02\x01x\
        \x00\x00\x00\x10\x01SELECT * FROM t\x00\x00\x00\x03\x03\x00\x00";
    let due = b"\x00\x00\x00\x02\x82\x00\x00\x00\x00\x02\x8f\x01\
        \x00\x00\x00\x02\x8f\x02\x00\x00\x00\x02\x8f\x02";
    assert!(rt; empty_store_ends(rt.alloc(), coming, End::Closed, due)?);
    let no_batch = b"\x00\x00\x00\x03\x03\x00\x01\x00";
    assert!(rt; empty_store_ends(rt.alloc(), no_batch, End::BadFrame { length: 3 }, b"")?);
    Ok(())
}

#[test]
fn an_empty_store_has_no_version(rt: HostRuntime) -> Result<(), Fail> {
    // A text that is no query, and a query.
    let coming = b"\x00\x00\x00\x0a\x05\x00\x00\x00\x00\x00\x00\x00\x00x\
        \x00\x00\x00\x18\x05\x00\x00\x00\x00\x00\x00\x00\x00SELECT * FROM t";
    let due = b"\x00\x00\x00\x02\x8f\x01\x00\x00\x00\x02\x8f\x02";
    assert!(rt; empty_store_ends(rt.alloc(), coming, End::Closed, due)?);
    let no_text = b"\x00\x00\x00\x09\x05\x00\x00\x00\x00\x00\x00\x00\x00";
    assert!(rt; empty_store_ends(rt.alloc(), no_text, End::BadFrame { length: 9 }, b"")?);
    Ok(())
}

/// What an owner of this key puts: version 0 to install, a batch of no commands, and a status.
fn owner_requests_on(
    alloc: Global,
    net: &mut MemNet<Never>,
    key: &SecretKey,
) -> Result<Vec<u8>, AllocError> {
    let started = Owner::start(alloc, key)?;
    let _ = net.next();
    let _ = install_link(alloc, net, &started.1.rec, started.1.signature.as_slice());
    drop(started);
    let batch = Batch {
        commands: List::new(alloc),
    };
    let _ = propose_link(alloc, net, &batch);
    drop(batch);
    let _ = status_link(alloc, net);
    Vec::from_slice(alloc, net.sent())
}

fn owner_requests(alloc: Global, key: &SecretKey) -> Result<Vec<u8>, AllocError> {
    let mut net = network(alloc, b"")?;
    let requests = owner_requests_on(alloc, &mut net, key);
    drop(net);
    requests
}

/// A network on which these come.
fn owner_network(alloc: Global, key: &SecretKey) -> Result<MemNet<Never>, AllocError> {
    let requests = owner_requests(alloc, key)?;
    let net = network(alloc, &requests);
    drop(requests);
    net
}

fn are_answered(alloc: Global, key: PublicKey, net: &mut MemNet<Never>) -> Result<bool, Fail> {
    let mut store = Store::new(alloc, key)?;
    let end = served_end(alloc, &mut store, net);
    drop(store);
    // What was installed, the proofs, and the front of the standing.
    let front = b"\x00\x00\x00\x09\x84\x00\x00\x00\x00\x00\x00\x00\x00\
        \x00\x00\x00\x07\x83VOU1\x00\x00\
        \x00\x00\x00\x3e\x82\x01VREC";
    let answers = net.sent();
    let has_length = answers.len() == 13 + 11 + 66;
    Ok(end == Some(End::Closed) && has_length && answers.starts_with(front.as_slice()))
}

fn owner_is_answered(alloc: Global, key: &SecretKey) -> Result<bool, Fail> {
    let mut net = owner_network(alloc, key)?;
    let is_answered = are_answered(alloc, key.public(), &mut net);
    drop(net);
    is_answered
}

#[test]
fn an_owner_installs_and_proposes(rt: HostRuntime) -> Result<(), Fail> {
    let key = SecretKey::make(rt.alloc(), [7; 16], [8; 32], OtsType::W1, 5)?;
    let is_answered = owner_is_answered(rt.alloc(), &key);
    drop(key);
    assert!(rt; is_answered?);
    Ok(())
}

fn are_read(alloc: Global, net: &mut MemNet<Never>) -> bool {
    let rec = Record {
        magic: Magic::Vrec,
        id: [0; 16],
        version: 0,
        catalog: Digest::new([0; 32]),
    };
    let is_connected = net.next().is_ok();
    let is_empty = matches!(status_link(alloc, net), Ok(None));
    let faults = (
        status_link(alloc, net).err(),
        install_link(alloc, net, &rec, b"").err(),
        install_link(alloc, net, &rec, b"").err(),
    );
    let due = (
        Some(WireFault::BadFrame { length: 2 }),
        Some(WireFault::Refused { code: 4 }),
        Some(WireFault::Cut { got: 1 }),
    );
    is_connected && is_empty && faults == due
}

#[test]
fn answers_are_read(rt: HostRuntime) -> Result<(), Fail> {
    let coming = b"\x00\x00\x00\x02\x82\x00\x00\x00\x00\x02\x82\x05\x00\x00\x00\x02\x8f\x04\x00";
    let mut net = network(rt.alloc(), coming)?;
    let are_read = are_read(rt.alloc(), &mut net);
    drop(net);
    assert!(rt; are_read);
    Ok(())
}

/// What a store that the owner of this key has filled answers to a request.
fn answer_on(
    alloc: Global,
    store: &mut Store,
    net: &mut MemNet<Never>,
    request: &[u8],
) -> Result<Vec<u8>, AllocError> {
    let _ = served_end(alloc, store, net);
    let mut asking = network(alloc, request)?;
    let _ = served_end(alloc, store, &mut asking);
    let sent = Vec::from_slice(alloc, asking.sent());
    drop(asking);
    sent
}

fn answer_by_store(
    alloc: Global,
    key: PublicKey,
    net: &mut MemNet<Never>,
    request: &[u8],
) -> Result<Vec<u8>, AllocError> {
    let mut store = Store::new(alloc, key)?;
    let answer = answer_on(alloc, &mut store, net, request);
    drop(store);
    answer
}

fn answer(alloc: Global, key: &SecretKey, request: &[u8]) -> Result<Vec<u8>, AllocError> {
    let mut net = owner_network(alloc, key)?;
    let answer = answer_by_store(alloc, key.public(), &mut net, request);
    drop(net);
    answer
}

/// Whether this is an answer of version 0 that there is no such table.
fn is_wrong(answer: Result<Answer, CheckFault>) -> bool {
    match answer {
        Ok(answer) => {
            let is_table = matches!(answer.outcome, Outcome::Wrong(QueryFault::NoTable(_)));
            let is_first = answer.version == 0;
            drop(answer);
            is_table && is_first
        }
        Err(_) => false,
    }
}

/// How asking ended: of this version, or of the newest.
fn asking_end(
    alloc: Global,
    net: &mut MemNet<Never>,
    at: Option<u64>,
    checking: &mut Checking<'_>,
) -> Result<(), WireFault> {
    match at {
        Some(version) => ask_at_into(alloc, net, version, b"SELECT * FROM t", checking),
        None => ask_into(alloc, net, b"SELECT * FROM t", checking),
    }
}

/// The same over a connection that is made.
fn fetching_end(
    alloc: Global,
    net: &mut MemNet<Never>,
    at: Option<u64>,
    checking: &mut Checking<'_>,
) -> Result<(), WireFault> {
    match at {
        Some(version) => {
            fetch_at_into(alloc, net, "there", version, b"SELECT * FROM t", checking)
        }
        None => fetch_into(alloc, net, "there", b"SELECT * FROM t", checking),
    }
}

fn is_asked(
    alloc: Global,
    client: &mut Client,
    query: &QueryText,
    at: Option<u64>,
    net: &mut MemNet<Never>,
) -> bool {
    let mut checking = client.begin(alloc, query);
    let is_connected = net.next().is_ok();
    let is_asked = asking_end(alloc, net, at, &mut checking).is_ok();
    is_wrong(checking.end(alloc, client)) && is_connected && is_asked
}

fn is_fetched(
    alloc: Global,
    client: &mut Client,
    query: &QueryText,
    at: Option<u64>,
    net: &mut MemNet<Never>,
) -> bool {
    let mut checking = client.begin(alloc, query);
    let is_fetched = fetching_end(alloc, net, at, &mut checking).is_ok();
    is_wrong(checking.end(alloc, client)) && is_fetched
}

/// Whether a reply is taken over a connection that stands, and over one of its own, on which this
/// is asked.
fn is_checked_twice(
    alloc: Global,
    key: PublicKey,
    query: &QueryText,
    reply: &[u8],
    (at, asked): (Option<u64>, &[u8]),
) -> Result<bool, AllocError> {
    let mut client = Client::new(key, 0);
    let mut net = network(alloc, reply)?;
    let is_asked = is_asked(alloc, &mut client, query, at, &mut net);
    drop(net);
    let mut net = network(alloc, reply)?;
    let is_fetched = is_fetched(alloc, &mut client, query, at, &mut net);
    let is_put = net.sent() == asked;
    drop(net);
    Ok(is_asked && is_fetched && is_put)
}

fn is_checked_by(
    alloc: Global,
    key: PublicKey,
    query: &QueryText,
    reply: &[u8],
) -> Result<bool, AllocError> {
    let of_newest = is_checked_twice(alloc, key, query, reply, (None, ASKS))?;
    let of_version = is_checked_twice(alloc, key, query, reply, (Some(0), ASKS_VERSION_0))?;
    Ok(of_newest && of_version)
}

fn is_checked(alloc: Global, key: PublicKey, reply: &[u8]) -> Result<bool, AllocError> {
    match read_query(alloc, b"SELECT * FROM t")? {
        Some(query) => {
            let is_checked = is_checked_by(alloc, key, &query, reply);
            drop(query);
            is_checked
        }
        None => Ok(false),
    }
}

fn reply_is_checked(alloc: Global, key: &SecretKey) -> Result<bool, AllocError> {
    let reply = answer(alloc, key, ASKS)?;
    let is_checked = is_checked(alloc, key.public(), &reply);
    drop(reply);
    is_checked
}

#[test]
fn a_reply_is_checked_as_it_comes(rt: HostRuntime) -> Result<(), Fail> {
    let key = SecretKey::make(rt.alloc(), [7; 16], [8; 32], OtsType::W1, 5)?;
    let is_checked = reply_is_checked(rt.alloc(), &key);
    drop(key);
    assert!(rt; is_checked?);
    Ok(())
}

fn are_same_reply(alloc: Global, key: &SecretKey, newest: &[u8]) -> Result<bool, AllocError> {
    let of_version = answer(alloc, key, ASKS_VERSION_0)?;
    let are_same = of_version.as_slice() == newest && newest.len() > 6;
    drop(of_version);
    Ok(are_same)
}

/// Whether version 0 is replied to as the newest, which it is, and version 1 is refused.
fn versions_are_answered(alloc: Global, key: &SecretKey) -> Result<bool, AllocError> {
    let newest = answer(alloc, key, ASKS)?;
    let are_same = are_same_reply(alloc, key, &newest);
    drop(newest);
    let refusal = answer(alloc, key, ASKS_VERSION_1)?;
    let is_refused = refusal.as_slice() == b"\x00\x00\x00\x02\x8f\x07".as_slice();
    drop(refusal);
    Ok(are_same? && is_refused)
}

#[test]
fn a_version_is_asked(rt: HostRuntime) -> Result<(), Fail> {
    let key = SecretKey::make(rt.alloc(), [7; 16], [8; 32], OtsType::W1, 5)?;
    let are_answered = versions_are_answered(rt.alloc(), &key);
    drop(key);
    assert!(rt; are_answered?);
    Ok(())
}
