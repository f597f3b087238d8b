//! A connection with another end that may say nothing, take nothing, or be slow.
ghost use Rattle.std.specs.Prelude.{◌≤◌, length, IfOk};

use crate::turn::{Turn, Way};
use std::io::{self, ErrorKind, Read, Write};
use std::net::{OpenStream, Shutdown, SocketAddr};
use std::time::{Clock, Duration, Instant};

/// How long the system waits at once, before it is seen how long the wait has been.
const SLICE_MILLIS: u64 = 250;

/// For how long, and in how many pieces of how many bytes, what still comes is taken at the end.
const LINGER_SECONDS: u64 = 2;

const MOST_PIECES: u32 = 1024;

const PIECE: usize = 4096;

#[derive(Drop)]
pub struct Connection<S> {
    stream: S,
    pub peer: SocketAddr,
    patience: Duration,
    turn: Turn,
    has_failed: bool,
}

impl<S: OpenStream + Read + Write + Drop> Connection<S> {
    /// Frames are short and wait for answers, so they are sent at once.
    pub fn new(stream: S, peer: SocketAddr, patience: Duration) -> io::Result<Self> {
        let slice = Duration::from_millis(SLICE_MILLIS);
        stream.set_read_timeout(Some(slice))?;
        stream.set_write_timeout(Some(slice))?;
        let _ = stream.set_nodelay(true);
        Ok(Connection {
            stream,
            peer,
            patience,
            turn: Turn::new(Way::Coming),
            has_failed: false,
        })
    }

    /// Takes the next bytes, and tells how many.
    pub fn get(&mut self, clock: &impl Clock, into: &mut [u8]) -> io::Result<usize>
        ensures some { IfOk result (λ n. n ≤ length into.old) }
    {
        let got = self.read(clock, into);
        self.has_failed |= got.is_err();
        got
    }

    /// Puts all of the piece.
    pub fn put(&mut self, clock: &impl Clock, piece: &[u8]) -> io::Result<()> {
        let put = self.write(clock, piece);
        self.has_failed |= put.is_err();
        put
    }

    fn read(&mut self, clock: &impl Clock, into: &mut [u8]) -> io::Result<usize>
        ensures some { IfOk result (λ n. n ≤ length into.old) }
    {
        self.begin(Way::Coming)?;
        let since = Instant::now(clock)?;
        for _ in 0..u64::MAX {
            match self.stream.read(into) {
                Ok(count) => {
                    self.turn.add(count, since.elapsed(clock)?);
                    return Ok(count);
                }
                Err(error) => self.wait_on(since.elapsed(clock)?, error)?,
            }
        }
        Err(ErrorKind::TimedOut.into())
    }

    fn write(&mut self, clock: &impl Clock, piece: &[u8]) -> io::Result<()> {
        let mut since = Instant::now(clock)?;
        let mut put = 0;
        for _ in 0..u64::MAX {
            if put >= piece.len() {
                return Ok(());
            }
            self.begin(Way::Going)?;
            match self.stream.write(&piece[put..]) {
                Ok(0) => return Err(ErrorKind::WriteZero.into()),
                Ok(count) => {
                    put += count;
                    self.turn.add(count, since.elapsed(clock)?);
                    since = Instant::now(clock)?;
                }
                Err(error) => self.wait_on(since.elapsed(clock)?, error)?,
            }
        }
        Err(ErrorKind::TimedOut.into())
    }

    /// Begins a turn where bytes went the other way, or goes on with it while it has time.
    fn begin(&mut self, way: Way) -> io::Result<()> {
        if self.turn.way != way {
            self.turn = Turn::new(way);
        }
        self.require_pace(Duration::from_secs(0))
    }

    /// Fails with the error, unless it only says that nothing has moved yet, and that may last
    /// longer.
    fn wait_on(&self, waiting: Duration, error: io::Error) -> io::Result<()> {
        if !is_no_move(error) {
            return Err(error);
        }
        if waiting >= self.patience {
            return Err(timed_out("nothing has moved for too long"));
        }
        self.require_pace(waiting)
    }

    fn require_pace(&self, waiting: Duration) -> io::Result<()> {
        if self.turn.is_too_slow(waiting, self.patience) {
            return Err(timed_out("the other end is too slow"));
        }
        Ok(())
    }

    /// Ends the connection, so that what was put still comes to the other end: were it closed while
    /// bytes are there that nobody took, the system would reset it, and an answer on its way would
    /// be lost. Where it has failed, nothing is on its way.
    pub fn end(mut self, clock: &impl Clock) {
        if !self.has_failed && self.stream.shutdown(Shutdown::Write).is_ok() {
            self.drain(clock);
        }
    }

    /// Takes what still comes, for a while.
    fn drain(&mut self, clock: &impl Clock) {
        let Ok(began) = Instant::now(clock) else {
            return;
        };
        let mut piece = [0; PIECE];
        for _ in 0..MOST_PIECES {
            match self.stream.read(&mut piece) {
                Ok(0) => return,
                Ok(_) => {}
                Err(error) if is_no_move(error) => {}
                Err(_) => return,
            }
            match began.elapsed(clock) {
                Ok(elapsed) if elapsed.as_secs() < LINGER_SECONDS => {}
                _ => return,
            }
        }
    }
}

fn timed_out(why: &str) -> io::Error {
    io::Error::new(ErrorKind::TimedOut, why)
}

/// Whether the call was only cut short, by its slice of time or by a signal.
fn is_no_move(error: io::Error) -> bool {
    matches!(error.kind(), ErrorKind::WouldBlock | ErrorKind::Interrupted)
}
