//! Runs of the program with a disk that is a file of the folder.
use crate::calls::talk_text;
use crate::counted_disk::CountedDisk;
use crate::folder::{Attempt, Folder, RunEnd};
use line_pieces::NoAnswer;
use outside::{FailAt, Failure, MemDisk};
use std::alloc::{AllocError, Global};

/// A run, the file that its disk holds before and behind it, which calls of the disk fail, and the
/// crash that comes.
#[derive(Drop)]
pub struct DiskRun {
    pub file: String,
    pub failures: Vec<Failure>,
    pub crash: Option<Crash>,
    pub attempt: Attempt,
}

/// How many writes and syncs came before, and the bytes that stand where a crash lost some.
#[derive(Drop)]
pub struct Crash {
    pub moment: usize,
    pub lost: Vec<u8>,
}

/// Runs the program and keeps what its disk holds then, or what a crash leaves there. Says what a
/// run with a peer says, how many calls of the disk were made, and what is kept.
pub fn run_with_disk(alloc: Global, folder: &mut Folder, run: DiskRun) -> Result<String, NoAnswer> {
    let DiskRun {
        file,
        failures,
        crash,
        attempt,
    } = run;
    match run_on_file(alloc, folder, &file, failures, attempt) {
        Ok(done) => {
            let answer = keep_left(alloc, folder, file, &done, crash);
            drop(done);
            answer
        }
        Err(fault) => {
            drop((file, crash));
            Err(fault)
        }
    }
}

/// A run that ended, and its disk then.
#[derive(Drop)]
struct DoneRun {
    end: RunEnd,
    disk: CountedDisk<MemDisk<FailAt>>,
}

fn run_on_file(
    alloc: Global,
    folder: &Folder,
    file: &str,
    failures: Vec<Failure>,
    attempt: Attempt,
) -> Result<DoneRun, NoAnswer> {
    match disk_of(alloc, folder, file, failures) {
        Ok(mut disk) => match folder.run_on(alloc, attempt, &mut disk) {
            Ok(end) => Ok(DoneRun { end, disk }),
            Err(_) => {
                drop(disk);
                Err(NoAnswer::Memory)
            }
        },
        Err(_) => {
            drop(attempt);
            Err(NoAnswer::Memory)
        }
    }
}

/// A disk that holds the file, if it is there, and of which these calls fail.
fn disk_of(
    alloc: Global,
    folder: &Folder,
    file: &str,
    failures: Vec<Failure>,
) -> Result<CountedDisk<MemDisk<FailAt>>, AllocError> {
    let failing = FailAt::new(failures);
    match Vec::from_slice(alloc, folder.find(file).unwrap_or(&[])) {
        Ok(first) => Ok(CountedDisk::new(MemDisk::new(alloc, first, failing)?)),
        Err(fault) => {
            drop(failing);
            Err(fault)
        }
    }
}

/// Keeps what the disk holds, or what a crash leaves there, as the file, and says it.
fn keep_left(
    alloc: Global,
    folder: &mut Folder,
    file: String,
    done: &DoneRun,
    crash: Option<Crash>,
) -> Result<String, NoAnswer> {
    match bytes_left(alloc, &done.disk.disk, crash) {
        Ok(left) => {
            let answer = done_text(alloc, folder, done, &left);
            folder.keep(file, left)?;
            answer
        }
        Err(_) => {
            drop(file);
            Err(NoAnswer::Memory)
        }
    }
}

fn done_text(
    alloc: Global,
    folder: &Folder,
    done: &DoneRun,
    left: &[u8],
) -> Result<String, NoAnswer> {
    let text = talk_text(alloc, &done.end)?;
    let found = left_text(alloc, folder, left)?;
    Ok(format!(in alloc; "{text} calls {} disk {found}", done.disk.calls)?)
}

/// What a disk holds, behind a crash if one comes.
fn bytes_left(
    alloc: Global,
    disk: &MemDisk<FailAt>,
    crash: Option<Crash>,
) -> Result<Vec<u8>, AllocError> {
    match crash {
        Some(crash) => {
            let image = disk.image(alloc, crash.moment, &crash.lost);
            drop(crash);
            image
        }
        None => Vec::from_slice(alloc, disk.contents()),
    }
}

/// The name of the file that has these bytes, the latest one of several, or the bytes themselves.
fn left_text(alloc: Global, folder: &Folder, bytes: &[u8]) -> Result<String, AllocError> {
    match folder.name_of(bytes) {
        Some(name) => format!(in alloc; "={name}"),
        None => hex::encode(alloc, bytes),
    }
}
