//! Failures of the system, counted, with its own reasons on standard error.
ghost use Rattle.std.specs.Prelude.{◌≡◌, ◌≤◌, IsErr, IsOk};
ghost use Rattle.outside.specs.FaultRose.{FaultRose};

use crate::count::raise;
use outside::Failed;
use std::fmt::Display;
use std::io;

/// Counts a call that failed, and says of which file or address it was, and why it did. Where
/// standard error fails too, nobody is left to be told.
pub fn fail<R: Eprint, W: Display + Drop>(
    rt: &R,
    whose: W,
    error: io::Error,
    faults: &mut u64,
) -> Failed
    ensures counts { faults.old ≤ faults.new }
    ensures rose { FaultRose faults.old faults.new }
{
    let _ = eprintln!(rt; "fault: {whose}: {error}");
    raise(faults)
}

/// What the system answered to a call on this file, an error counted and said.
pub fn count_fault<R: Eprint, T>(
    rt: &R,
    path: &str,
    faults: &mut u64,
    answer: io::Result<T>,
) -> Result<T, Failed>
    ensures counts { faults.old ≤ faults.new }
    ensures cause { IsErr result → FaultRose faults.old faults.new }
    ensures ok { IsOk answer → IsOk result }
    ensures quiet { IsOk result → faults.new ≡ faults.old }
{
    match answer {
        Ok(value) => Ok(value),
        Err(error) => Err(fail(rt, path, error, faults)),
    }
}
