//! One process at both ends of a connection on the loopback.
use super::Tcp;
use outside::{Failed, Link, Net, PutFault};
use std::net::OpenListener;
use std::test::Fail;
use std::time::Duration;

#[test]
fn passes_bytes_each_way(rt: HostRuntime) -> Result<(), Fail> {
    let mut server = Tcp::new(&rt);
    let do_pass = server_passes_bytes(&rt, &mut server);
    drop(server);
    assert!(rt; do_pass?);
    Ok(())
}

fn server_passes_bytes(rt: &HostRuntime, server: &mut Tcp<'_, HostRuntime>) -> Result<bool, Fail> {
    let listening = server.listen("127.0.0.1:0", Some(7));
    let addr = address(rt, server)?;
    let mut client = Tcp::new(rt);
    let connected = (client.connect(&addr), server.next());
    drop(addr);
    let do_pass = (listening, connected) == (Ok(()), (Ok(()), Ok(())))
        && can_exchange_bytes(server, &mut client)
        && (server.faults, client.faults) == (0, 0);
    drop(client);
    Ok(do_pass)
}

fn address(rt: &HostRuntime, server: &Tcp<'_, HostRuntime>) -> Result<String, Fail> {
    let listener = server.listener.as_ref().ok_or("listening")?;
    let addr = listener.local_addr()?;
    Ok(format!(in rt.alloc(); "{addr}")?)
}

/// Whether the bytes that are put at one end come at the other, in their order and once, and then
/// the end.
fn can_exchange_bytes(
    server: &mut Tcp<'_, HostRuntime>,
    client: &mut Tcp<'_, HostRuntime>,
) -> bool {
    let asked = (client.put(b"ask"), receive::<3>(server));
    let sent = (
        server.put(b"told"),
        server.put(b" twice"),
        receive::<10>(client),
    );
    let thanked = (client.put(b"thanks"), receive::<6>(server));
    server.close();
    let closed = client.get(&mut [0u8; 4]);
    asked == (Ok(()), Ok(*b"ask"))
        && sent == (Ok(()), Ok(()), Ok(*b"told twice"))
        && thanked == (Ok(()), Ok(*b"thanks"))
        && closed == Ok(0)
}

/// The next bytes, taken four at a time.
fn receive<const N: usize>(tcp: &mut Tcp<'_, HostRuntime>) -> Result<[u8; N], Failed> {
    let mut bytes = [0u8; N];
    for piece in bytes.chunks_mut(4) {
        if tcp.get(piece)? != piece.len() {
            return Err(Failed);
        }
    }
    Ok(bytes)
}

#[test]
fn fails_without_a_connection(rt: HostRuntime) {
    let mut tcp = Tcp::new(&rt);
    let failed = (tcp.put(b"x"), tcp.next(), tcp.connect("no address"));
    let found = (failed, tcp.faults);
    drop(tcp);
    let due = (Err(PutFault::Failed), Err(Failed), Err(Failed));
    assert_eq!(rt; found, (due, 3));
}

/// Two ends of a connection, of which each waits for less than a second.
fn impatient_ends(rt: &HostRuntime) -> Result<(Tcp<'_, HostRuntime>, Tcp<'_, HostRuntime>), Fail> {
    let (mut server, mut client) = (Tcp::new(rt), Tcp::new(rt));
    server.patience = Duration::from_millis(600);
    client.patience = Duration::from_millis(600);
    let listening = server.listen("127.0.0.1:0", Some(7));
    let addr = address(rt, &server)?;
    let connected = (client.connect(&addr), server.next());
    drop(addr);
    if (listening, connected) != (Ok(()), (Ok(()), Ok(()))) {
        return Err("connected".into());
    }
    Ok((server, client))
}

#[test]
fn does_not_wait_for_ever(rt: HostRuntime) -> Result<(), Fail> {
    let (mut server, mut client) = impatient_ends(&rt)?;
    let got = client.get(&mut [0; 4]);
    let does_fail = fails_once_nothing_is_taken(&mut server);
    let faults = (server.faults, client.faults);
    drop(server);
    drop(client);
    assert_eq!(rt; (got, does_fail, faults), (Err(Failed), true, (1, 1)));
    Ok(())
}

/// Whether a piece fails that the other end doesn't take, once those before it fill what the system
/// keeps.
fn fails_once_nothing_is_taken(server: &mut Tcp<'_, HostRuntime>) -> bool {
    for _ in 0..100_000 {
        if server.put(&[0; 4096]) == Err(PutFault::Failed) {
            return true;
        }
    }
    false
}

#[test]
fn close_leaves_what_was_put(rt: HostRuntime) -> Result<(), Fail> {
    let (mut server, mut client) = impatient_ends(&rt)?;
    let asked = (client.put(&[1; 20_000]), receive::<4>(&mut server));
    let answered = server.put(b"answer");
    server.close();
    let found = (receive::<6>(&mut client), client.get(&mut [0; 4]));
    drop(server);
    drop(client);
    assert_eq!(rt; (asked, answered), ((Ok(()), Ok([1; 4])), Ok(())));
    assert_eq!(rt; found, (Ok(*b"answer"), Ok(0)));
    Ok(())
}
