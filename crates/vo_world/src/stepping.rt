//! One event.
ghost use Rattle.std.specs.Prelude.{◌≡◌, length, IfOk, OnErr};
ghost use Rattle.vo_world.specs.Steps.{FitsEvent, Steps};

use crate::events::{AcceptedReply, Event, Said};
use crate::world::World;
use std::alloc::{AllocError, Global};

impl World {
    /// What the event makes of the world, and what is said of it. Where memory runs out, nothing has
    /// happened.
    pub fn step(&mut self, alloc: Global, event: Event) -> Result<Said, AllocError>
        requires { FitsEvent (length self.old.leasts) event }
        ensures ok { IfOk result (λ says. Steps self.old event says self.new) }
        ensures err { OnErr result (self.new ≡ self.old) }
        ensures clients { length self.new.leasts ≡ length self.old.leasts }
    {
        match event {
            Event::Commit { batch, proofs } => self.commit(alloc, &batch, proofs.as_slice()),
            Event::Crash { image } => self.crash(alloc, image),
            Event::Receive {
                client,
                query,
                bytes,
            } => self.receive(
                alloc,
                AcceptedReply {
                    client,
                    query,
                    bytes,
                    version: 0,
                },
            ),
        }
    }
}
