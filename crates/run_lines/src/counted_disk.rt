//! A disk whose calls are counted.
ghost use Rattle.std.specs.Prelude.{◌≡◌};

use outside::{Disk, Failed};
use std::alloc::AllocError;

/// A disk, and how many calls of it were made, but for those that only make room.
#[derive(Drop)]
pub struct CountedDisk<D> {
    pub disk: D,
    pub calls: u64,
}

impl<D> CountedDisk<D> {
    pub fn new(disk: D) -> Self {
        CountedDisk { disk, calls: 0 }
    }

    fn count_call(&mut self)
        ensures { self.new.disk ≡ self.old.disk }
    {
        self.calls = self.calls.saturating_add(1);
    }
}

impl<D: Disk> Disk for CountedDisk<D> {
    ghost drive = { λ counted. D.drive counted.disk };

    ghost room = { λ counted. D.room counted.disk };

    ghost faults = { λ counted. D.faults counted.disk };

    ghost sees = { λ counted. D.sees counted.disk };

    fn len(&mut self) -> Result<u64, Failed> {
        self.count_call();
        self.disk.len()
    }

    fn read(&mut self, at: u64, into: &mut [u8]) -> Result<(), Failed> {
        self.count_call();
        self.disk.read(at, into)
    }

    fn write_at(&mut self, at: u64, piece: &[u8]) -> Result<(), Failed> {
        self.count_call();
        self.disk.write_at(at, piece)
    }

    fn sync(&mut self) -> Result<(), Failed> {
        self.count_call();
        self.disk.sync()
    }

    fn reserve(&mut self, end: u64, bytes: u64, calls: u64) -> Result<(), AllocError> {
        self.disk.reserve(end, bytes, calls)
    }
}
