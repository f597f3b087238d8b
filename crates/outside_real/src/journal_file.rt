//! One file that is kept through crashes.
ghost use Rattle.std.specs.Prelude.{◌≡◌, None};

use crate::own_file::open_own_file;
use crate::reasons::count_fault;
use outside::{Disk, Failed};
use std::alloc::AllocError;
use std::fs::File;
use std::io;
use std::os::unix::fs::FileExt;
use std::rt::Files;

#[cfg(test)]
mod tests;

/// A file that is opened at the first call, made if it isn't there, and locked from then on.
#[derive(Drop)]
pub struct JournalFile<'r, R> {
    rt: &'r R,
    path: &'r str,
    file: Option<File>,
    // Whether a sync failed: a later one that succeeds says nothing of the bytes of that one.
    is_unsure: bool,
    faults: u64,
}

impl<'r, R: Files<File = File> + Eprint> JournalFile<'r, R> {
    pub fn new(rt: &'r R, path: &'r str) -> Self {
        JournalFile {
            rt,
            path,
            file: None,
            is_unsure: false,
            faults: 0,
        }
    }

    /// Puts down what was written.
    fn put_down(&mut self) -> io::Result<()>
        ensures { self.new.faults ≡ self.old.faults }
    {
        let file = open_file(self.rt, self.path, self.is_unsure, &mut self.file)?;
        let synced = file.sync_data();
        if synced.is_err() {
            self.is_unsure = true;
            let _ = eprintln!(self.rt;
                "{}: what the disk has of it is not known: start the machine again before this \
                 file is used, and compare it with each copy then",
                self.path
            );
        }
        synced
    }
}

/// The open file, while it is known what the disk has of it.
fn open_file<'f, R: Files<File = File>>(
    rt: &R,
    path: &str,
    is_unsure: bool,
    file: &'f mut Option<File>,
) -> io::Result<&'f File> {
    if is_unsure {
        return Err(io::Error::other("an earlier sync of it failed"));
    }
    if file.is_none() {
        *file = Some(open_own_file(rt, path)?);
    }
    file.as_ref().ok_or(io::ErrorKind::NotFound.into())
}

impl<R: Files<File = File> + Eprint> Disk for JournalFile<'_, R> {
    ghost drive = { λ _. None };

    ghost room = { λ _. None };

    ghost faults = { λ file. file.faults };

    ghost sees = { λ _. tt };

    fn len(&mut self) -> Result<u64, Failed> {
        let answer = open_file(self.rt, self.path, self.is_unsure, &mut self.file).and_then(
            |file| Ok(file.metadata()?.len()),
        );
        count_fault(self.rt, self.path, &mut self.faults, answer)
    }

    fn read(&mut self, at: u64, into: &mut [u8]) -> Result<(), Failed> {
        let answer = open_file(self.rt, self.path, self.is_unsure, &mut self.file).and_then(
            |file| file.read_exact_at(into, at),
        );
        count_fault(self.rt, self.path, &mut self.faults, answer)
    }

    fn write_at(&mut self, at: u64, piece: &[u8]) -> Result<(), Failed> {
        let answer = open_file(self.rt, self.path, self.is_unsure, &mut self.file).and_then(
            |file| file.write_all_at(piece, at),
        );
        count_fault(self.rt, self.path, &mut self.faults, answer)
    }

    fn sync(&mut self) -> Result<(), Failed> {
        let answer = self.put_down();
        count_fault(self.rt, self.path, &mut self.faults, answer)
    }

    /// The system makes room as it is written.
    fn reserve(&mut self, _end: u64, _bytes: u64, _calls: u64) -> Result<(), AllocError> {
        Ok(())
    }
}
