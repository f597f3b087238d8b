//! Any list of events, one after the other.
ghost use Rattle.std.specs.Prelude.{◌≡◌, ℕ, List, take, length, All, IfOk, OnErr};
ghost use Rattle.vo_world.specs.declared.events.Said.{Said as Says};
ghost use Rattle.vo_world.specs.Runs.{Runs};
ghost use Rattle.vo_world.specs.Soundness.{IsSound};
ghost use Rattle.vo_world.specs.Steps.{FitsEvent, start};

use crate::events::{Event, Said};
use crate::world::World;
use lms_sign::SecretKey;
use std::alloc::{AllocError, Global};

impl World {
    /// What the events make of the world, one after the other, and what is said of each. Where
    /// memory runs out, some of the first of them have happened.
    pub fn run(&mut self, alloc: Global, events: Vec<Event>) -> Result<Vec<Said>, AllocError>
        requires { All (FitsEvent (length self.old.leasts)) events.items }
        ensures ok { IfOk result (λ said. Runs self.old events.items said.items self.new) }
        ensures err { OnErr result ((count : ℕ) × (said : List Says)
            × Runs self.old (take count events.items) said self.new) }
    {
        let mut said = Vec::new(alloc);
        for event in events {
            said.push(self.step(alloc, event)?)?;
        }
        Ok(said)
    }
}

/// What comes of a list of events, from a world of so many clients on, and what is said of each.
pub fn run_schedule(
    alloc: Global,
    key: SecretKey,
    clients: usize,
    events: Vec<Event>,
) -> Result<(World, Vec<Said>), AllocError>
    requires { All (FitsEvent clients) events.items }
    ensures runs { IfOk result (λ ran. Runs (start key clients) events.items ran.1.items ran.0) }
    ensures sound { IfOk result (λ ran. IsSound ran.0) }
{
    let mut world = World::new(alloc, key, clients)?;
    let said = world.run(alloc, events)?;
    Ok((world, said))
}
