//! The last that is written, in one piece.
ghost use Rattle.std.specs.Prelude.{◌≡◌, ◌≢◌, ◌≤◌};
ghost use Rattle.outside.specs.FaultRose.{FaultRose};
ghost use Rattle.outside.specs.Outputs.{Writes};

use crate::{PutFault, Sink};

/// Writes these bytes, and gives the exit status that they come with: 3 where the output fails
/// whatever it was, and 4 where memory runs out.
pub fn write_output<S: Sink>(out: &mut S, status: u8, bytes: &[u8]) -> u8
    ensures wrote { Writes (record { status = status; bytes = bytes.now })
        (FaultRose (S.faults out.old) (S.faults out.new))
        result (S.written out.old) (S.written out.new) }
    ensures counts { S.faults out.old ≤ S.faults out.new }
    ensures quiet { result ≢ 3 → S.faults out.new ≡ S.faults out.old }
    ensures outside { status ≢ 3 → result ≡ 3 → FaultRose (S.faults out.old) (S.faults out.new) }
    ensures memory { status ≢ 4 → result ≡ 4 → S.written out.new ≡ S.written out.old }
{
    match out.put(bytes) {
        Ok(()) => status,
        Err(PutFault::Failed) => 3,
        Err(PutFault::Memory) => 4,
    }
}
