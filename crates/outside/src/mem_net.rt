//! Connections that are kept in memory.
ghost use Rattle.std.specs.Prelude.{◌≡◌, ℕ, ◌+◌, ◌<◌, ◌≤◌, ◌↔◌, ◌-◌, ◌^◌, min, cond, Some, true, false, [], ◌++◌, map, length, take, vec_len, vec_capacity, IsSome, IsTrue, IfOk, OnOk, OnErr, IsErr, IsErrOf};
ghost use Rattle.std.specs.VecDeque.{deque_len};
ghost use Rattle.outside.specs.Failure.{AnswersPut, UnlessWant, front_of};
ghost use Rattle.outside.specs.Miss.{CountsMiss};
ghost use Rattle.outside.specs.FaultRose.{FaultRose};
ghost use Rattle.outside.specs.Sink.{UnlessPutFails};
ghost use Rattle.outside.specs.ConnectionModel.{Gets, take_from, send_on, close_wire, open_next, has_next};

use crate::failures::Failures;
use crate::faults::{Failed, PutFault};
use crate::link::Link;
use crate::net::Net;
use std::alloc::{AllocError, Global};
use std::collections::VecDeque;
use std::mem;

/// Connections to come, each by the bytes that its peer sends. The addresses are not looked at.
#[derive(Drop)]
pub struct MemNet<P> {
    alloc: Global,
    /// What the peers of the connections to come send.
    queue: VecDeque<Vec<u8>>,
    /// Whether a connection stands.
    stands: bool,
    /// What its peer sends, of which `taken` bytes were taken.
    coming: Vec<u8>,
    taken: usize,
    /// What was put on it.
    sent: Vec<u8>,
    /// What was put on each connection before it.
    past: Vec<Vec<u8>>,
    /// How many bytes one `get` takes at most.
    most: usize,
    /// How often a connection was looked for and none was to come.
    misses: u64,
    failures: P,
    ghost begun: { taken ≤ vec_len coming },
    ghost some: { 0 < most },
    // What is put on each connection has its place in `past` from the start.
    ghost room: { vec_len past + cond stands 1 0 + deque_len queue ≤ vec_capacity past },
}

impl<P: Failures> MemNet<P> {
    ghost use Rattle.outside.specs.MemNet.{wire_of, misses_of, most_of, plan_of};
    ghost use Rattle.outside.specs.ConnectionModel.{with_queue};

    /// Takes the room for all that the connections need but the bytes put on them.
    pub fn new(alloc: Global, connections: Vec<Vec<u8>>, failures: P) -> Result<Self, AllocError>
        ensures wire { IfOk result
            (λ net. wire_of net ≡ with_queue (map (λ bytes. bytes.items) connections.items)) }
        ensures misses { IfOk result (λ net. misses_of net ≡ 0) }
        // One `get` takes all that comes and has a place.
        ensures most { IfOk result (λ net. most_of net ≡ 2 ^ 64 - 1) }
        ensures plan { IfOk result (λ net. plan_of net ≡ failures) }
    {
        let past = Vec::with_capacity(alloc, connections.len())?;
        Ok(MemNet {
            alloc,
            queue: VecDeque::from_vec(connections),
            stands: false,
            coming: Vec::new(alloc),
            taken: 0,
            sent: Vec::new(alloc),
            past,
            most: usize::MAX,
            misses: 0,
            failures,
        })
    }

    /// The same, where one `get` takes at most so many bytes.
    pub fn in_pieces(mut self, most: usize) -> Self
        requires { 0 < most }
        ensures wire { wire_of result ≡ wire_of self }
        ensures misses { misses_of result ≡ misses_of self }
        ensures most { most_of result ≡ most }
        ensures plan { plan_of result ≡ plan_of self }
    {
        self.most = most;
        self
    }

    /// What was put on the connection that stands.
    pub fn sent(&self) -> &[u8]
        ensures { result.now ≡ (wire_of self.now).sent }
    {
        self.sent.as_slice()
    }

    /// What was put on each connection that was closed.
    pub fn past(&self) -> &[Vec<u8>]
        ensures { map (λ bytes. bytes.items) result.now ≡ (wire_of self.now).past }
    {
        self.past.as_slice()
    }

    /// Opens the first connection to come.
    fn open_next(&mut self) -> Result<(), Failed>
        ensures ok { OnOk result (wire_of self.new ≡ open_next (wire_of self.old)) }
        ensures err { OnErr result (wire_of self.new ≡ wire_of self.old) }
        ensures none { (wire_of self.old).queue ≡ [] → IsErr result }

        ensures counts { P.count (plan_of self.old) + misses_of self.old
            ≤ P.count (plan_of self.new) + misses_of self.new }
        ensures cause { IsErr result
            → FaultRose (P.count (plan_of self.old) + misses_of self.old)
            (P.count (plan_of self.new) + misses_of self.new) }
        ensures quiet { OnOk result (P.count (plan_of self.new) + misses_of self.new
            ≡ P.count (plan_of self.old) + misses_of self.old) }
        ensures misses { CountsMiss (has_next (wire_of self.old)) (misses_of self.old)
            (misses_of self.new) }

        ensures due { IsTrue (has_next (wire_of self.old))
            → (IsErr result ↔ IsSome (P.due (plan_of self.old))) }
        ensures most { most_of self.new ≡ most_of self.old }
        ensures plan { plan_of self.new ≡ P.after (plan_of self.old) }
    {
        let failure = self.failures.next_call();
        if self.queue.is_empty() {
            self.misses = self.misses.saturating_add(1);
            return Err(Failed);
        }
        if failure.is_some() {
            return Err(Failed);
        }
        self.close();
        if let Some(coming) = self.queue.pop_front() {
            self.coming = coming;
            self.taken = 0;
            self.stands = true;
        }
        Ok(())
    }
}

impl<P: Failures> Link for MemNet<P> {
    ghost use Rattle.outside.specs.MemNet.{wire_of, misses_of, most_of, plan_of};

    ghost wire = { λ net. Some (wire_of net) };

    ghost faults = { λ net. P.count (plan_of net) + misses_of net };

    ghost misses = { misses_of };

    fn get(&mut self, into: &mut [u8]) -> Result<usize, Failed>
        ensures some { IfOk result (λ n. n ≤ length into.old) }
        ensures count { IfOk result (λ n. n
            ≡ min (min (length (wire_of self.old).coming) (length into.old)) (most_of self.old)) }
        ensures taken { IfOk result (λ n. Gets n (wire_of self.old).coming into.old into.new) }
        ensures ok { IfOk result (λ n. wire_of self.new ≡ take_from n (wire_of self.old)) }
        ensures err { OnErr result (wire_of self.new ≡ wire_of self.old) }
        ensures down { (wire_of self.old).stands ≡ false → IsErr result }

        ensures counts { P.count (plan_of self.old) + misses_of self.old
            ≤ P.count (plan_of self.new) + misses_of self.new }
        ensures cause { IsErr result
            → FaultRose (P.count (plan_of self.old) + misses_of self.old)
            (P.count (plan_of self.new) + misses_of self.new) }
        ensures quiet { OnOk result (P.count (plan_of self.new) + misses_of self.new
            ≡ P.count (plan_of self.old) + misses_of self.old) }
        ensures misses { CountsMiss (wire_of self.old).stands (misses_of self.old)
            (misses_of self.new) }

        ensures due { (wire_of self.old).stands ≡ true
            → (IsErr result ↔ IsSome (P.due (plan_of self.old))) }
        ensures most { most_of self.new ≡ most_of self.old }
        ensures plan { plan_of self.new ≡ P.after (plan_of self.old) }
    {
        let failure = self.failures.next_call();
        if !self.stands {
            self.misses = self.misses.saturating_add(1);
            return Err(Failed);
        }
        if failure.is_some() {
            return Err(Failed);
        }
        let rest = &self.coming.as_slice()[self.taken..];
        let count = rest.len().min(into.len()).min(self.most);
        into[..count].copy_from_slice(&rest[..count]);
        self.taken += count;
        Ok(count)
    }

    fn put(&mut self, piece: &[u8]) -> Result<(), PutFault>
        ensures ok { OnOk result (wire_of self.new ≡ send_on piece.now (wire_of self.old)) }
        ensures failed { IsErrOf result PutFault.Failed
            → ((n : ℕ) × (wire_of self.new ≡ send_on (take n piece.now) (wire_of self.old))) }
        ensures memory { IsErrOf result PutFault.Memory → wire_of self.new ≡ wire_of self.old }
        ensures down { (wire_of self.old).stands ≡ false → IsErrOf result PutFault.Failed }
        ensures unheard { (wire_of self.old).stands ≡ false → wire_of self.new ≡ wire_of self.old }

        ensures counts { P.count (plan_of self.old) + misses_of self.old
            ≤ P.count (plan_of self.new) + misses_of self.new }
        ensures cause { IsErrOf result PutFault.Failed
            → FaultRose (P.count (plan_of self.old) + misses_of self.old)
            (P.count (plan_of self.new) + misses_of self.new) }
        ensures quiet { UnlessPutFails result (P.count (plan_of self.new) + misses_of self.new
            ≡ P.count (plan_of self.old) + misses_of self.old) }
        ensures misses { CountsMiss (wire_of self.old).stands (misses_of self.old)
            (misses_of self.new) }

        // Of a piece that fails as much is put as its failure says. Want of memory is no call of
        // the plan.
        ensures front { (wire_of self.old).stands ≡ true → IsErrOf result PutFault.Failed
            → (wire_of self.new).sent ≡ (wire_of self.old).sent
            ++ front_of (P.due (plan_of self.old)) piece.now }
        ensures due { (wire_of self.old).stands ≡ true
            → AnswersPut (P.due (plan_of self.old)) result }
        ensures most { most_of self.new ≡ most_of self.old }
        ensures plan { UnlessWant result (plan_of self.new ≡ P.after (plan_of self.old)) }
        ensures unplanned { IsErrOf result PutFault.Memory → plan_of self.new ≡ plan_of self.old }
    {
        if !self.stands {
            let _ = self.failures.next_call();
            self.misses = self.misses.saturating_add(1);
            return Err(PutFault::Failed);
        }
        if self.sent.reserve(piece.len()).is_err() {
            return Err(PutFault::Memory);
        }
        match self.failures.next_call() {
            None => {
                self.sent.extend_from_slice(piece).unwrap();
                Ok(())
            }
            Some(after) => {
                let front = &piece[..piece.len().min(after)];
                self.sent.extend_from_slice(front).unwrap();
                Err(PutFault::Failed)
            }
        }
    }
}

impl<P: Failures> Net for MemNet<P> {
    ghost use Rattle.outside.specs.MemNet.{wire_of, misses_of, most_of, plan_of};

    fn connect(&mut self, _addr: &str) -> Result<(), Failed>
        ensures ok { OnOk result (wire_of self.new ≡ open_next (wire_of self.old)) }
        ensures err { OnErr result (wire_of self.new ≡ wire_of self.old) }
        ensures none { (wire_of self.old).queue ≡ [] → IsErr result }

        ensures counts { P.count (plan_of self.old) + misses_of self.old
            ≤ P.count (plan_of self.new) + misses_of self.new }
        ensures cause { IsErr result
            → FaultRose (P.count (plan_of self.old) + misses_of self.old)
            (P.count (plan_of self.new) + misses_of self.new) }
        ensures quiet { OnOk result (P.count (plan_of self.new) + misses_of self.new
            ≡ P.count (plan_of self.old) + misses_of self.old) }
        ensures misses { CountsMiss (has_next (wire_of self.old)) (misses_of self.old)
            (misses_of self.new) }

        ensures due { IsTrue (has_next (wire_of self.old))
            → (IsErr result ↔ IsSome (P.due (plan_of self.old))) }
        ensures most { most_of self.new ≡ most_of self.old }
        ensures plan { plan_of self.new ≡ P.after (plan_of self.old) }
    {
        self.open_next()
    }

    fn listen(&mut self, _addr: &str, _version: Option<u64>) -> Result<(), Failed>
        ensures kept { wire_of self.new ≡ wire_of self.old }

        ensures counts { P.count (plan_of self.old) + misses_of self.old
            ≤ P.count (plan_of self.new) + misses_of self.new }
        ensures cause { IsErr result
            → FaultRose (P.count (plan_of self.old) + misses_of self.old)
            (P.count (plan_of self.new) + misses_of self.new) }
        ensures quiet { OnOk result (P.count (plan_of self.new) + misses_of self.new
            ≡ P.count (plan_of self.old) + misses_of self.old) }
        ensures misses { misses_of self.new ≡ misses_of self.old }

        ensures due { IsErr result ↔ IsSome (P.due (plan_of self.old)) }
        ensures most { most_of self.new ≡ most_of self.old }
        ensures plan { plan_of self.new ≡ P.after (plan_of self.old) }
    {
        match self.failures.next_call() {
            None => Ok(()),
            Some(_) => Err(Failed),
        }
    }

    fn next(&mut self) -> Result<(), Failed>
        ensures ok { OnOk result (wire_of self.new ≡ open_next (wire_of self.old)) }
        ensures err { OnErr result (wire_of self.new ≡ wire_of self.old) }
        ensures none { (wire_of self.old).queue ≡ [] → IsErr result }

        ensures counts { P.count (plan_of self.old) + misses_of self.old
            ≤ P.count (plan_of self.new) + misses_of self.new }
        ensures cause { IsErr result
            → FaultRose (P.count (plan_of self.old) + misses_of self.old)
            (P.count (plan_of self.new) + misses_of self.new) }
        ensures quiet { OnOk result (P.count (plan_of self.new) + misses_of self.new
            ≡ P.count (plan_of self.old) + misses_of self.old) }
        ensures misses { CountsMiss (has_next (wire_of self.old)) (misses_of self.old)
            (misses_of self.new) }

        ensures due { IsTrue (has_next (wire_of self.old))
            → (IsErr result ↔ IsSome (P.due (plan_of self.old))) }
        ensures most { most_of self.new ≡ most_of self.old }
        ensures plan { plan_of self.new ≡ P.after (plan_of self.old) }
    {
        self.open_next()
    }

    fn close(&mut self)
        ensures closed { wire_of self.new ≡ close_wire (wire_of self.old) }
        ensures misses { misses_of self.new ≡ misses_of self.old }
        ensures most { most_of self.new ≡ most_of self.old }
        ensures plan { plan_of self.new ≡ plan_of self.old }
    {
        let sent = mem::replace(&mut self.sent, Vec::new(self.alloc));
        let stood = self.stands;
        self.stands = false;
        self.taken = 0;
        self.coming.clear();
        if stood {
            self.past.push(sent).unwrap();
        }
    }
}
