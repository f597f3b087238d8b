//! Files that are written, and taken.
use super::FolderFiles;
use crate::temp_names::name_in_temp;
use outside::{Shelf, TakeFault};
use std::alloc::{AllocError, Global};
use std::fs;
use std::test::Fail;

/// More bytes than are read at once.
fn long_contents(alloc: Global) -> Result<Vec<u8>, AllocError> {
    let mut long = Vec::new(alloc);
    for number in 0..100_000u32 {
        long.push((number % 251) as u8)?;
    }
    Ok(long)
}

#[test]
fn takes_files(rt: HostRuntime) -> Result<(), Fail> {
    let long = long_contents(rt.alloc())?;
    let are_taken = named_files_are_taken(&rt, &long);
    drop(long);
    assert!(rt; are_taken?);
    Ok(())
}

fn named_files_are_taken(rt: &HostRuntime, long: &[u8]) -> Result<bool, Fail> {
    let name = name_in_temp(rt, "taken_by_a_test_of_files")?;
    let are_taken = are_taken(rt, &name, long);
    drop(name);
    Ok(are_taken)
}

/// Whether files of no bytes, of some, and of these are taken, and none once it is removed.
fn are_taken(rt: &HostRuntime, name: &str, long: &[u8]) -> bool {
    let mut files = FolderFiles::new(rt);
    let mut are_taken = true;
    for bytes in [b"".as_slice(), b"abc".as_slice(), long] {
        are_taken &= is_written_and_taken(rt, &mut files, name, bytes);
    }
    are_taken && fails_once_removed(rt, &mut files, name)
}

fn fails_once_removed(
    rt: &HostRuntime,
    files: &mut FolderFiles<'_, HostRuntime>,
    name: &str,
) -> bool {
    let is_removed = fs::remove_file(rt, name).is_ok();
    let fault = files.take(rt.alloc(), name, 3).err();
    (is_removed, fault, files.faults) == (true, Some(TakeFault::Failed), 1)
}

/// Whether a file is taken whole by the limits that it keeps, and by no lower one.
fn is_written_and_taken(
    rt: &HostRuntime,
    files: &mut FolderFiles<'_, HostRuntime>,
    name: &str,
    bytes: &[u8],
) -> bool {
    let length = bytes.len() as u64;
    let mut is_taken = fs::write(rt, name, bytes).is_ok();
    for limit in [
        length,
        length.saturating_add(1),
        u64::MAX,
        0,
        length / 2,
        length.saturating_sub(1),
    ] {
        let taken = files.take(rt.alloc(), name, limit);
        is_taken &= is_due(taken, bytes, limit);
    }
    is_taken && files.faults == 0
}

/// Whether this is what a file of these bytes gives by a limit.
fn is_due(taken: Result<Vec<u8>, TakeFault>, bytes: &[u8], limit: u64) -> bool {
    let fits = bytes.len() as u64 <= limit;
    match taken {
        Ok(taken) => {
            let is_same = taken.as_slice() == bytes;
            drop(taken);
            is_same && fits
        }
        Err(fault) => fault == TakeFault::TooLong && !fits,
    }
}
