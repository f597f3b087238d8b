//! Files that are kept in memory.
ghost use Rattle.std.specs.Prelude.{◌≡◌, ℕ, ◌+◌, ◌≤◌, ◌↔◌, Some, length, is_some, IsSome, IfOk, IsErrOf};
ghost use Rattle.outside.specs.Miss.{CountsMiss};
ghost use Rattle.outside.specs.FaultRose.{FaultRose};
ghost use Rattle.outside.specs.Shelf.{Takes, UnlessTakeFails};

use crate::failures::Failures;
use crate::faults::TakeFault;
use crate::shelf::Shelf;
use std::alloc::Global;

mod find;

use find::find;

/// A file and its name.
#[derive(Debug, Drop)]
pub struct NamedFile {
    pub name: String,
    pub bytes: Vec<u8>,
}

/// Files in a list. Where two have one name, the first counts.
#[derive(Debug, Drop)]
pub struct MemShelf<P> {
    files: Vec<NamedFile>,
    misses: u64,
    failures: P,
}

impl<P: Failures> MemShelf<P> {
    ghost use Rattle.outside.specs.MemShelf.{files_of, misses_of, plan_of};

    pub fn new(files: Vec<NamedFile>, failures: P) -> Self
        ensures files { files_of result ≡ files.items }
        ensures misses { misses_of result ≡ 0 }
        ensures plan { plan_of result ≡ failures }
    {
        MemShelf {
            files,
            misses: 0,
            failures,
        }
    }
}

impl<P: Failures> Shelf for MemShelf<P> {
    ghost use Rattle.outside.specs.MemShelf.{files_of, misses_of, plan_of, file_at};

    ghost contents = { λ shelf. Some (file_at (files_of shelf)) };

    ghost faults = { λ shelf. P.count (plan_of shelf) + misses_of shelf };

    ghost misses = { misses_of };

    fn take(&mut self, alloc: Global, name: &str, limit: u64) -> Result<Vec<u8>, TakeFault>
        ensures known { Takes (file_at (files_of self.old) name.now) limit result }
        ensures fits { IfOk result (λ taken. length taken.items ≤ limit) }
        ensures kept { files_of self.new ≡ files_of self.old }

        ensures counts { P.count (plan_of self.old) + misses_of self.old
            ≤ P.count (plan_of self.new) + misses_of self.new }
        ensures cause { IsErrOf result TakeFault.Failed
            → FaultRose (P.count (plan_of self.old) + misses_of self.old)
            (P.count (plan_of self.new) + misses_of self.new) }
        ensures quiet { UnlessTakeFails result (P.count (plan_of self.new) + misses_of self.new
            ≡ P.count (plan_of self.old) + misses_of self.old) }
        ensures misses { CountsMiss (is_some (file_at (files_of self.old) name.now))
            (misses_of self.old) (misses_of self.new) }

        ensures due { IsSome (file_at (files_of self.old) name.now)
            → (IsErrOf result TakeFault.Failed ↔ IsSome (P.due (plan_of self.old))) }
        ensures plan { plan_of self.new ≡ P.after (plan_of self.old) }
    {
        let failure = self.failures.next_call();
        let Some(bytes) = find(&self.files, name) else {
            self.misses = self.misses.saturating_add(1);
            return Err(TakeFault::Failed);
        };
        if failure.is_some() {
            return Err(TakeFault::Failed);
        }
        if bytes.len() as u64 > limit {
            return Err(TakeFault::TooLong);
        }
        match Vec::from_slice(alloc, bytes) {
            Ok(taken) => Ok(taken),
            Err(_) => Err(TakeFault::Memory),
        }
    }
}
