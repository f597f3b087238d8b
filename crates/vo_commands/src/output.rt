//! Output, in one piece, and the status that it ends with.
ghost use Rattle.std.specs.Prelude.{◌≡◌, ◌≢◌, ◌⊎◌, Ok, Err};
ghost use Rattle.outside.specs.FaultRose.{FaultRose};
ghost use Rattle.outside.specs.Outputs.{Writes};
ghost use Rattle.vo_commands.specs.Reports.{WritesOutcome, output_of, FailsOutside};

use crate::report::{Report, Stop};
use outside::{Sink, write_output};

/// Writes what a command came to.
pub fn print_outcome<S: Sink>(out: &mut S, outcome: Result<Report, Stop>) -> u8
    ensures wrote { WritesOutcome outcome (FaultRose (S.faults out.old) (S.faults out.new))
        result (S.written out.old) (S.written out.new) }
    ensures outside { result ≡ 3
        → FailsOutside outcome ⊎ FaultRose (S.faults out.old) (S.faults out.new) }
    ensures told { FailsOutside outcome → (result ≡ 3) ⊎ (result ≡ 4) }
    ensures quiet { result ≢ 3 → S.faults out.new ≡ S.faults out.old }
    ensures memory { result ≡ 4 → S.written out.new ≡ S.written out.old }
{
    match outcome {
        Ok(report) => print_report(out, &report),
        Err(Stop::Refused(report)) => print_report(out, &report),
        Err(Stop::Outside) => write_output(out, 3, b"fault: outside\n"),
        Err(Stop::Memory) => 4,
    }
}

/// Writes a report.
fn print_report<S: Sink>(out: &mut S, report: &Report) -> u8
    ensures wrote { Writes (output_of report.now) (FaultRose (S.faults out.old) (S.faults out.new))
        result (S.written out.old) (S.written out.new) }
    ensures outside { result ≡ 3 → FaultRose (S.faults out.old) (S.faults out.new) }
    ensures quiet { result ≢ 3 → S.faults out.new ≡ S.faults out.old }
    ensures memory { result ≡ 4 → S.written out.new ≡ S.written out.old }
{
    write_output(out, report.status.code(), &report.bytes)
}
