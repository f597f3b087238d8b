//! Connections over TCP.
ghost use Rattle.std.specs.Prelude.{◌≡◌, None};

use crate::connection::Connection;
use crate::count::raise;
use crate::reasons::fail;
use crate::turn::PATIENCE_SECONDS;
use outside::{Failed, Link, Net, PutFault};
use std::fmt::Display;
use std::io::{self, ErrorKind};
use std::net::{Net as Sockets, OpenListener, TcpListener, ToSocketAddrs};
use std::thread;
use std::time::{Clock, Duration};

#[cfg(test)]
mod tests;

/// How often a connection that couldn't be taken is waited for again, and how long before each try.
const TRIES: u32 = 300;

const PAUSE_MILLIS: u64 = 100;

/// At most one connection, and the socket that listens for the next.
#[derive(Drop)]
pub struct Tcp<'r, R: Sockets> {
    rt: &'r R,
    patience: Duration,
    listener: Option<R::Listener>,
    connection: Option<Connection<R::Stream>>,
    faults: u64,
}

impl<'r, R: Sockets + Clock + Eprint> Tcp<'r, R> {
    pub fn new(rt: &'r R) -> Self {
        Tcp {
            rt,
            patience: Duration::from_secs(PATIENCE_SECONDS),
            listener: None,
            connection: None,
            faults: 0,
        }
    }

    fn begin(&mut self, connection: Connection<R::Stream>)
        ensures { self.new.faults ≡ self.old.faults }
    {
        self.close();
        self.connection = Some(connection);
    }
}

/// A connection to the first address of this name that answers.
fn connect<R: Sockets + Clock>(
    rt: &R,
    addr: &str,
    patience: Duration,
) -> io::Result<Connection<R::Stream>> {
    let mut last = io::Error::new(ErrorKind::InvalidInput, "it has no address");
    for addr in addr.to_socket_addrs(rt)? {
        match rt.connect_timeout(addr, patience) {
            Ok(stream) => return Connection::new(stream, addr, patience),
            Err(error) => last = error,
        }
    }
    Err(last)
}

/// The next connection. One that fails as it is taken says nothing of those behind it, and want of
/// open files may pass, so it is tried again for a while.
fn accept<R: Sockets + Clock>(
    rt: &R,
    listener: &R::Listener,
    patience: Duration,
) -> io::Result<Connection<R::Stream>> {
    let mut last = ErrorKind::TimedOut.into();
    for _ in 0..TRIES {
        match accept_once::<R>(listener, patience) {
            Ok(connection) => return Ok(connection),
            Err(error) => last = error,
        }
        thread::sleep(rt, Duration::from_millis(PAUSE_MILLIS));
    }
    Err(last)
}

fn accept_once<R: Sockets>(
    listener: &R::Listener,
    patience: Duration,
) -> io::Result<Connection<R::Stream>> {
    let (stream, peer) = listener.accept()?;
    Connection::new(stream, peer, patience)
}

impl<R: Sockets + Clock + Eprint> Link for Tcp<'_, R> {
    ghost wire = { λ _. None };

    ghost faults = { λ tcp. tcp.faults };

    ghost misses = { λ _. 0 };

    fn get(&mut self, into: &mut [u8]) -> Result<usize, Failed> {
        let Some(connection) = &mut self.connection else {
            return Err(raise(&mut self.faults));
        };
        match connection.get(self.rt, into) {
            Ok(count) => Ok(count),
            Err(error) => Err(fail(self.rt, connection.peer, error, &mut self.faults)),
        }
    }

    fn put(&mut self, piece: &[u8]) -> Result<(), PutFault> {
        let Some(connection) = &mut self.connection else {
            raise(&mut self.faults);
            return Err(PutFault::Failed);
        };
        match connection.put(self.rt, piece) {
            Ok(()) => Ok(()),
            Err(error) => {
                fail(self.rt, connection.peer, error, &mut self.faults);
                Err(PutFault::Failed)
            }
        }
    }
}

impl<R: Sockets + Clock + Eprint> Net for Tcp<'_, R> {
    fn connect(&mut self, addr: &str) -> Result<(), Failed> {
        match connect(self.rt, addr, self.patience) {
            Ok(connection) => {
                self.begin(connection);
                Ok(())
            }
            Err(error) => Err(fail(self.rt, addr, error, &mut self.faults)),
        }
    }

    fn listen(&mut self, addr: &str, version: Option<u64>) -> Result<(), Failed> {
        match TcpListener::bind(self.rt, addr) {
            Ok(listener) => {
                print_service(self.rt, &listener, addr, version);
                self.listener = Some(listener);
                Ok(())
            }
            Err(error) => Err(fail(self.rt, addr, error, &mut self.faults)),
        }
    }

    fn next(&mut self) -> Result<(), Failed> {
        let Some(listener) = &self.listener else {
            return Err(raise(&mut self.faults));
        };
        match accept(self.rt, listener, self.patience) {
            Ok(connection) => {
                self.begin(connection);
                Ok(())
            }
            Err(error) => Err(fail(self.rt, "the next connection", error, &mut self.faults)),
        }
    }

    fn close(&mut self) {
        if let Some(connection) = self.connection.take() {
            connection.end(self.rt);
        }
    }
}

/// Says where it listens, and what is served there: the system chooses the port where 0 is asked
/// for.
fn print_service<R: Eprint>(
    rt: &R,
    listener: &impl OpenListener,
    asked: &str,
    version: Option<u64>,
) {
    match listener.local_addr() {
        Ok(addr) => print_version(rt, addr, version),
        Err(_) => print_version(rt, asked, version),
    }
}

/// Says which version is served at this address, if one is.
fn print_version<R: Eprint, W: Display + Drop>(rt: &R, whose: W, version: Option<u64>) {
    let _ = match version {
        Some(version) => eprintln!(rt; "listening at {whose}, version {version}"),
        None => eprintln!(rt; "listening at {whose}, no version"),
    };
}
