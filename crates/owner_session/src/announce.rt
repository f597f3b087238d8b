//! Writing what a session says.
ghost use Rattle.std.specs.Prelude.{◌≡◌, ◌≤◌, IsErrOf};
ghost use Rattle.outside.specs.FaultRose.{FaultRose};
ghost use Rattle.owner_session.specs.Endings.{version_line};
ghost use Rattle.owner_session.specs.Runs.{PutsLine};

use crate::lines::version_line;
use crate::stop::SessionStop;
use outside::{PutFault, Sink};
use std::alloc::Global;

/// Writes that a version is installed.
pub fn announce<S: Sink>(alloc: Global, version: u64, out: &mut S) -> Result<(), SessionStop>
    ensures puts { PutsLine (version_line version) result (S.written out.old) (S.written out.new) }
    ensures counts { S.faults out.old ≤ S.faults out.new }
    ensures cause { IsErrOf result SessionStop.OutputFault
        → FaultRose (S.faults out.old) (S.faults out.new) }
    ensures quiet { (IsErrOf result SessionStop.OutputFault → ⊥)
        → S.faults out.new ≡ S.faults out.old }
{
    match version_line(alloc, version) {
        Ok(line) => put_line(out, &line),
        Err(_) => Err(SessionStop::Memory),
    }
}

fn put_line<S: Sink>(out: &mut S, line: &[u8]) -> Result<(), SessionStop>
    ensures puts { PutsLine line.now result (S.written out.old) (S.written out.new) }
    ensures counts { S.faults out.old ≤ S.faults out.new }
    ensures cause { IsErrOf result SessionStop.OutputFault
        → FaultRose (S.faults out.old) (S.faults out.new) }
    ensures quiet { (IsErrOf result SessionStop.OutputFault → ⊥)
        → S.faults out.new ≡ S.faults out.old }
{
    match out.put(line) {
        Ok(()) => Ok(()),
        Err(PutFault::Failed) => Err(SessionStop::OutputFault),
        Err(PutFault::Memory) => Err(SessionStop::Memory),
    }
}
