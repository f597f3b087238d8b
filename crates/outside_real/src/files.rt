//! The files of the working folder.
ghost use Rattle.std.specs.Prelude.{None};

use crate::reasons::fail;
use outside::{Shelf, TakeFault};
use std::alloc::Global;
use std::fs::OpenFile;
use std::io::Read;
use std::rt::Files;
use std::{fs, io};

#[cfg(test)]
mod tests;

/// How many bytes of a file are read at once.
const PAGE: usize = 4096;

/// Files by their paths, from the working folder on.
#[derive(Drop)]
pub struct FolderFiles<'r, R> {
    rt: &'r R,
    faults: u64,
}

impl<'r, R: Files + Eprint> FolderFiles<'r, R> {
    pub fn new(rt: &'r R) -> Self {
        FolderFiles { rt, faults: 0 }
    }
}

impl<R: Files + Eprint> Shelf for FolderFiles<'_, R> {
    ghost contents = { λ _. None };

    ghost faults = { λ files. files.faults };

    ghost misses = { λ _. 0 };

    fn take(&mut self, alloc: Global, name: &str, limit: u64) -> Result<Vec<u8>, TakeFault> {
        match read_front(self.rt, alloc, name, limit.saturating_add(1)) {
            Ok(bytes) if bytes.len() as u64 <= limit => Ok(bytes),
            Ok(_) => Err(TakeFault::TooLong),
            Err(error) if error.kind() == io::ErrorKind::OutOfMemory => Err(TakeFault::Memory),
            Err(error) => {
                fail(self.rt, name, error, &mut self.faults);
                Err(TakeFault::Failed)
            }
        }
    }
}

/// The first bytes of a file, at most so many.
fn read_front<R: Files>(rt: &R, alloc: Global, name: &str, most: u64) -> io::Result<Vec<u8>> {
    let file = fs::open(rt, name)?;
    let mut bytes = Vec::with_capacity(alloc, room_for(&file, most))?;
    read_pages(&mut file.take(most), &mut bytes)?;
    Ok(bytes)
}

/// Puts all that is left to read behind the bytes. It is read page by page: room to read more at
/// once would be filled with zeros first.
fn read_pages<R: Read>(reader: &mut R, bytes: &mut Vec<u8>) -> io::Result<()> {
    let mut page = [0; PAGE];
    for _ in 0..u64::MAX {
        match reader.read(&mut page) {
            Ok(0) => break,
            Ok(count) => bytes.extend_from_slice(&page[..count])?,
            Err(error) if error.kind() == io::ErrorKind::Interrupted => {}
            Err(error) => return Err(error),
        }
    }
    Ok(())
}

/// Room for the bytes that the system says a file has, up to so many, and for the read that finds
/// its end. The file may still have others, or no length of its own.
fn room_for(file: &impl OpenFile, most: u64) -> usize {
    match file.metadata() {
        Ok(metadata) => (metadata.len().min(most) as usize).saturating_add(1),
        Err(_) => 0,
    }
}
