//! A client gets bytes as the reply to a query.
ghost use Rattle.std.specs.Prelude.{◌≡◌, ◌<◌, length, IfOk, OnErr};
ghost use Rattle.vo_world.specs.Steps.{Receives};

use crate::events::{AcceptedReply, Said};
use crate::releasing::gain;
use crate::world::World;
use std::alloc::{AllocError, Global};
use vo_spec::CheckFault;

impl World {
    /// The client of this number checks the bytes, and a reply that it accepts is kept with its
    /// version. The version that it comes with says nothing.
    pub(crate) fn receive(
        &mut self,
        alloc: Global,
        mut reply: AcceptedReply,
    ) -> Result<Said, AllocError>
        requires { reply.client < length self.old.leasts }
        ensures ok { IfOk result (λ says.
            Receives self.old reply.client reply.query reply.bytes says self.new) }
        ensures err { OnErr result (self.new ≡ self.old) }
    {
        let released = gain(alloc, &self.released, self.journal.entries())?;
        self.accepted.reserve(1)?;
        let moment = self.disk.moment();
        let client = &mut self.clients[reply.client];
        let answer = client.check(alloc, &reply.query, reply.bytes.as_slice());
        if let Err(CheckFault::Memory) = answer {
            drop(reply);
            return Err(AllocError);
        }
        self.released = released;
        self.since = moment;
        match answer {
            Ok(answer) => {
                reply.version = answer.version;
                self.accepted.push(reply).unwrap();
                Ok(Said::Accepted(answer))
            }
            Err(fault) => {
                drop(reply);
                Ok(Said::Refused(fault))
            }
        }
    }
}
