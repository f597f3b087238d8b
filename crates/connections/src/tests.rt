//! A server that refuses all requests, and the other side of a connection to one.
ghost use Rattle.std.specs.Prelude.{[], ◌∷◌, Some};
ghost use Rattle.link_frames.specs.declared.frame_kind.FrameKind.TheVariants.{Refusal};

use crate::{ServeFault, WireFault, fetch_into, serve_all};
use link_frames::{Frame, FrameKind, Responder};
use outside::{FailAt, Failure, MemNet, MemSink};
use std::alloc::{AllocError, Global};
use std::test::Fail;

/// What refuses all requests with one code.
#[derive(Drop)]
struct Refuser;

impl Responder for Refuser {
    ghost State = { Unit {0} };

    ghost state = { λ _. tt };

    ghost reply = { λ _ _ _. Some (Refusal, 2 ∷ []) };

    ghost next = { λ state _ _. state };

    fn answer(
        &mut self,
        alloc: Global,
        _kind: FrameKind,
        _body: &[u8],
    ) -> Result<Option<Frame>, AllocError> {
        let mut body = Vec::new(alloc);
        body.push(2)?;
        Ok(Some(Frame {
            kind: FrameKind::Refusal,
            body,
        }))
    }
}

/// The failures of one call, or none.
fn failures(alloc: Global, one: Option<Failure>) -> Result<FailAt, AllocError> {
    let mut all = Vec::new(alloc);
    if let Some(one) = one {
        all.push(one)?;
    }
    Ok(FailAt::new(all))
}

fn put_connection(
    alloc: Global,
    connections: &mut Vec<Vec<u8>>,
    coming: &[u8],
) -> Result<(), AllocError> {
    let bytes = Vec::from_slice(alloc, coming)?;
    Ok(connections.push(bytes)?)
}

fn connections(alloc: Global, coming: &[&[u8]]) -> Result<Vec<Vec<u8>>, AllocError> {
    let mut connections = Vec::new(alloc);
    for one in coming {
        put_connection(alloc, &mut connections, *one)?;
    }
    Ok(connections)
}

/// A network on which this comes, connection after connection.
fn network(
    alloc: Global,
    coming: &[&[u8]],
    failure: Option<Failure>,
) -> Result<MemNet<FailAt>, AllocError> {
    let failures = failures(alloc, failure)?;
    let connections = connections(alloc, coming)?;
    MemNet::new(alloc, connections, failures)
}

/// How serving ended, how many connections were made, what the first one was sent, and the output.
type Served<'a> = (Result<(), ServeFault>, usize, &'a [u8], &'a [u8]);

fn are_served_on(
    alloc: Global,
    net: &mut MemNet<FailAt>,
    failure: Option<Failure>,
    count: u32,
    due: Served<'_>,
) -> Result<bool, AllocError> {
    let mut out = MemSink::new(alloc, failures(alloc, failure)?);
    let end = serve_all(alloc, &mut Refuser, net, &mut out, count);
    let is_due = (end, net.past().len(), first_sent(net), out.contents()) == due;
    drop(out);
    Ok(is_due)
}

fn first_sent(net: &MemNet<FailAt>) -> &[u8] {
    match net.past().first() {
        Some(sent) => sent.as_slice(),
        None => b"none".as_slice(),
    }
}

/// Whether serving this many of three connections goes as it should: one of a request, one of a
/// frame of length 0, and one of half a length.
fn are_served(
    alloc: Global,
    on_link: Option<Failure>,
    on_output: Option<Failure>,
    count: u32,
    due: Served<'_>,
) -> Result<bool, AllocError> {
    let coming = [
        b"\x00\x00\x00\x01\x02".as_slice(),
        b"\x00\x00\x00\x00",
        b"\x00\x00",
    ];
    let mut net = network(alloc, &coming, on_link)?;
    let are_served = are_served_on(alloc, &mut net, on_output, count, due);
    drop(net);
    are_served
}

#[test]
fn each_connection_has_its_line(rt: HostRuntime) -> Result<(), Fail> {
    let refusal = b"\x00\x00\x00\x02\x8f\x02".as_slice();
    let lines = b"connection 1 closed\nconnection 2 bad frame 0\nconnection 3 cut 2\n".as_slice();
    let cut_lines = b"connection 1 closed\nconnection 2".as_slice();
    let of_output = Some(Failure { call: 1, after: 12 });
    let of_link = Some(Failure { call: 1, after: 0 });
    for (on_link, on_output, count, due) in [
        (None, None, 3, (Ok(()), 3, refusal, lines)),
        // no further connection
        (None, None, 4, (Err(ServeFault::Network), 3, refusal, lines)),
        // an output that fails
        (
            None,
            of_output,
            3,
            (Err(ServeFault::Output), 2, refusal, cut_lines),
        ),
        // a link that fails
        (
            of_link,
            None,
            1,
            (
                Ok(()),
                1,
                b"".as_slice(),
                b"connection 1 fault\n".as_slice(),
            ),
        ),
    ] {
        let are_served = are_served(rt.alloc(), on_link, on_output, count, due)?;
        assert!(rt; are_served, "serving {count}");
    }
    Ok(())
}

fn is_fetched(alloc: Global, net: &mut MemNet<FailAt>) -> Result<bool, AllocError> {
    let mut reply = Vec::from_slice(alloc, b"of ")?;
    let end = fetch_into(net, "there", b"who", &mut reply);
    let due = (
        Ok(()),
        b"of ab".as_slice(),
        b"\x00\x00\x00\x04\x01who".as_slice(),
    );
    let is_due = (end, reply.as_slice(), net.sent()) == due;
    drop(reply);
    Ok(is_due)
}

#[test]
fn a_reply_is_fetched_behind_other_bytes(rt: HostRuntime) -> Result<(), Fail> {
    let coming = [b"\x00\x00\x00\x03\x81ab?".as_slice()];
    let mut net = network(rt.alloc(), &coming, None)?.in_pieces(1);
    let is_fetched = is_fetched(rt.alloc(), &mut net);
    drop(net);
    assert!(rt; is_fetched?);
    Ok(())
}

fn is_refused_or_cut(net: &mut MemNet<FailAt>, reply: &mut Vec<u8>) -> bool {
    let faults = (
        fetch_into(net, "there", b"who", reply).err(),
        fetch_into(net, "there", b"who", reply).err(),
        fetch_into(net, "there", b"who", reply).err(),
    );
    let due = (
        Some(WireFault::Refused { code: 7 }),
        Some(WireFault::Cut { got: 0 }),
        Some(WireFault::LinkFault),
    );
    faults == due && reply.is_empty()
}

#[test]
fn a_reply_is_refused_or_cut(rt: HostRuntime) -> Result<(), Fail> {
    let coming = [b"\x00\x00\x00\x02\x8f\x07".as_slice(), b""];
    let mut net = network(rt.alloc(), &coming, None)?;
    let mut reply = Vec::new(rt.alloc());
    let is_so = is_refused_or_cut(&mut net, &mut reply);
    drop(reply);
    drop(net);
    assert!(rt; is_so);
    Ok(())
}
