//! Output that is kept in memory.
ghost use Rattle.std.specs.Prelude.{◌≡◌, ℕ, ◌≤◌, Some, [], ◌++◌, take, OnOk, IsErrOf};
ghost use Rattle.outside.specs.Failure.{AnswersPut, UnlessWant, front_of};
ghost use Rattle.outside.specs.FaultRose.{FaultRose};
ghost use Rattle.outside.specs.Sink.{UnlessPutFails};

use crate::failures::Failures;
use crate::faults::PutFault;
use crate::sink::Sink;
use std::alloc::Global;

/// The bytes put so far.
#[derive(Debug, Drop)]
pub struct MemSink<P> {
    written: Vec<u8>,
    failures: P,
}

impl<P: Failures> MemSink<P> {
    ghost use Rattle.outside.specs.MemSink.{written_of, plan_of};

    pub fn new(alloc: Global, failures: P) -> Self
        ensures empty { written_of result ≡ [] }
        ensures plan { plan_of result ≡ failures }
    {
        MemSink {
            written: Vec::new(alloc),
            failures,
        }
    }

    pub fn contents(&self) -> &[u8]
        ensures { result.now ≡ written_of self.now }
    {
        self.written.as_slice()
    }
}

impl<P: Failures> Sink for MemSink<P> {
    ghost use Rattle.outside.specs.MemSink.{written_of, plan_of};

    ghost written = { λ sink. Some (written_of sink) };

    ghost faults = { λ sink. P.count (plan_of sink) };

    fn put(&mut self, piece: &[u8]) -> Result<(), PutFault>
        ensures ok { OnOk result (written_of self.new ≡ written_of self.old ++ piece.now) }
        ensures failed { IsErrOf result PutFault.Failed
            → ((n : ℕ) × (written_of self.new ≡ written_of self.old ++ take n piece.now)) }
        ensures memory { IsErrOf result PutFault.Memory
            → written_of self.new ≡ written_of self.old }

        ensures counts { P.count (plan_of self.old) ≤ P.count (plan_of self.new) }
        ensures cause { IsErrOf result PutFault.Failed
            → FaultRose (P.count (plan_of self.old)) (P.count (plan_of self.new)) }
        ensures quiet { UnlessPutFails result
            (P.count (plan_of self.new) ≡ P.count (plan_of self.old)) }

        // Of a piece that fails as much is put as its failure says. Want of memory is no call of
        // the plan.
        ensures front { IsErrOf result PutFault.Failed → written_of self.new
            ≡ written_of self.old ++ front_of (P.due (plan_of self.old)) piece.now }
        ensures due { AnswersPut (P.due (plan_of self.old)) result }
        ensures plan { UnlessWant result (plan_of self.new ≡ P.after (plan_of self.old)) }
        ensures unplanned { IsErrOf result PutFault.Memory → plan_of self.new ≡ plan_of self.old }
    {
        if self.written.reserve(piece.len()).is_err() {
            return Err(PutFault::Memory);
        }
        match self.failures.next_call() {
            None => {
                self.written.extend_from_slice(piece).unwrap();
                Ok(())
            }
            Some(after) => {
                let front = &piece[..piece.len().min(after)];
                self.written.extend_from_slice(front).unwrap();
                Err(PutFault::Failed)
            }
        }
    }
}
