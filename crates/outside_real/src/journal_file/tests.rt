//! A file that is made, written, put down, read and found again, and what is refused.
use super::JournalFile;
use crate::temp_names::name_in_temp;
use outside::{Disk, Failed};
use std::fs;
use std::os::unix::fs::symlink;
use std::test::Fail;

#[test]
fn keeps_a_file(rt: HostRuntime) -> Result<(), Fail> {
    let path = name_in_temp(&rt, "kept_by_a_test_of_journal_file")?;
    let is_kept = is_kept(&rt, &path);
    drop(path);
    assert!(rt; is_kept);
    Ok(())
}

fn is_kept(rt: &HostRuntime, path: &str) -> bool {
    let _ = fs::remove_file(rt, path);
    let can_write = can_write_and_read(&mut JournalFile::new(rt, path));
    let is_there = has_contents(rt, path, b"abxyz");
    let can_read = can_read_again(&mut JournalFile::new(rt, path));
    let is_removed = fs::remove_file(rt, path).is_ok();
    can_write && is_there && can_read && is_removed && is_refused(rt, "no/such/folder/file")
}

fn can_write_and_read(disk: &mut JournalFile<'_, HostRuntime>) -> bool {
    let fresh = (disk.len(), disk.reserve(5, 5, 3));
    let written = (
        disk.write_at(0, b"abc"),
        disk.write_at(2, b"xyz"),
        disk.sync(),
    );
    let mut bytes = [0u8; 4];
    let read = (disk.read(1, &mut bytes), bytes);
    let past_the_end = (disk.read(2, &mut bytes), disk.faults);
    let is_written = (fresh, written) == ((Ok(0), Ok(())), (Ok(()), Ok(()), Ok(())));
    let is_read = (read, past_the_end) == ((Ok(()), *b"bxyz"), (Err(Failed), 1));
    is_written && is_read
}

fn has_contents(rt: &HostRuntime, path: &str, due: &[u8]) -> bool {
    match fs::read(rt, path) {
        Ok(kept) => {
            let is_same = kept.as_slice() == due;
            drop(kept);
            is_same
        }
        Err(_) => false,
    }
}

/// What was written is there for who opens the file again.
fn can_read_again(disk: &mut JournalFile<'_, HostRuntime>) -> bool {
    let mut bytes = [0u8; 5];
    let found = (disk.len(), disk.read(0, &mut bytes), bytes);
    found == (Ok(5), Ok(()), *b"abxyz")
}

/// Whether each call on the file of this path fails, and is counted.
fn is_refused(rt: &HostRuntime, path: &str) -> bool {
    let mut disk = JournalFile::new(rt, path);
    let refused = (disk.sync(), disk.len(), disk.write_at(0, b"x"));
    let found = (refused, disk.faults);
    drop(disk);
    found == ((Err(Failed), Err(Failed), Err(Failed)), 3)
}

#[test]
fn has_one_owner_at_a_time(rt: HostRuntime) -> Result<(), Fail> {
    let path = name_in_temp(&rt, "locked_by_a_test_of_journal_file")?;
    let is_locked = is_locked_while_open(&rt, &path);
    drop(path);
    assert!(rt; is_locked);
    Ok(())
}

fn is_locked_while_open(rt: &HostRuntime, path: &str) -> bool {
    let mut first = JournalFile::new(rt, path);
    let held = (first.len(), is_refused(rt, path));
    drop(first);
    let mut second = JournalFile::new(rt, path);
    let freed = (second.len(), second.faults);
    drop(second);
    let is_removed = fs::remove_file(rt, path).is_ok();
    (held, freed, is_removed) == ((Ok(0), true), (Ok(0), 0), true)
}

#[test]
fn takes_plain_files_alone(rt: HostRuntime) -> Result<(), Fail> {
    let file = name_in_temp(&rt, "linked_by_a_test_of_journal_file")?;
    let link = name_in_temp(&rt, "link_of_a_test_of_journal_file")?;
    let folder = name_in_temp(&rt, "")?;
    let are_refused = is_link_refused(&rt, &link, &file)
        && is_refused(&rt, &folder)
        && is_refused(&rt, "/dev/null");
    drop(file);
    drop(link);
    drop(folder);
    assert!(rt; are_refused);
    Ok(())
}

/// Whether a link to this file is refused, and nothing made or written, be the file there or not.
fn is_link_refused(rt: &HostRuntime, link: &str, file: &str) -> bool {
    let _ = (fs::remove_file(rt, link), fs::remove_file(rt, file));
    let is_made = symlink(rt, file, link).is_ok();
    let is_dangling_refused = is_refused(rt, link) && matches!(fs::exists(rt, file), Ok(false));
    let is_written = fs::write(rt, file, b"abc").is_ok();
    let is_other_refused = is_refused(rt, link) && has_contents(rt, file, b"abc");
    let are_removed = fs::remove_file(rt, link).is_ok() && fs::remove_file(rt, file).is_ok();
    is_made && is_dangling_refused && is_written && is_other_refused && are_removed
}

/// A device stands for a disk whose sync fails: the system can't sync it.
#[test]
fn trusts_no_sync_behind_one_that_failed(rt: HostRuntime) -> Result<(), Fail> {
    let mut disk = JournalFile::new(&rt, "/dev/null");
    disk.file = Some(fs::open(&rt, "/dev/null")?);
    let before = (disk.len(), disk.faults);
    let failed = (disk.sync(), disk.sync(), disk.len(), disk.faults);
    drop(disk);
    let due = (Err(Failed), Err(Failed), Err(Failed), 3);
    assert_eq!(rt; (before, failed), ((Ok(0), 0), due));
    Ok(())
}
