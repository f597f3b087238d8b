//! Standard output.
ghost use Rattle.std.specs.Prelude.{None};

use crate::reasons::fail;
use outside::{PutFault, Sink};

#[cfg(test)]
mod tests;

/// What the program writes.
#[derive(Drop)]
pub struct StandardOutput<'r, R> {
    rt: &'r R,
    faults: u64,
}

impl<'r, R: Print + Eprint> StandardOutput<'r, R> {
    pub fn new(rt: &'r R) -> Self {
        StandardOutput { rt, faults: 0 }
    }
}

impl<R: Print + Eprint> Sink for StandardOutput<'_, R> {
    ghost written = { λ _. None };

    ghost faults = { λ output. output.faults };

    fn put(&mut self, piece: &[u8]) -> Result<(), PutFault> {
        match self.rt.write_all(piece) {
            Ok(()) => Ok(()),
            Err(error) => {
                fail(self.rt, "standard output", error, &mut self.faults);
                Err(PutFault::Failed)
            }
        }
    }
}
