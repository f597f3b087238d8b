//! A journal on a disk in memory of which a call fails, and what crashes leave of it.
ghost use Rattle.std.specs.List.{AllByRecursion};
ghost use Rattle.vo_spec.specs.Journals.{FitsEntry};

use crate::arguments::number_of;
use crate::journals::{damage_text, entries_in};
use line_pieces::NoAnswer;
use outside::{Disk, FailAt, Failure, MemDisk, Never};
use owner_journal::{Journal, JournalFault};
use owner_state::Entry;
use std::alloc::Global;

// A journal takes no more.
const MOST_ENTRIES: usize = 1 << 32;

/// A disk that begins with given bytes is to take a journal, but for a call with a number, which
/// fails and still writes so many bytes: how many entries are known to be there in the end, and for
/// each moment how many are on the image of these lost bytes. Each image then takes the rest.
pub fn images(alloc: Global, strings: &[Vec<u8>]) -> Result<String, NoAnswer> {
    let [call, after, lost, first, journal] = strings else {
        return Err(NoAnswer::NoSuchLine);
    };
    let mut disk = failing_disk(alloc, first, number_of(call)?, number_of(after)?)?;
    let text = images_on(alloc, &mut disk, lost, journal);
    drop(disk);
    text
}

fn failing_disk(
    alloc: Global,
    first: &[u8],
    call: u64,
    after: u64,
) -> Result<MemDisk<FailAt>, NoAnswer> {
    let after = after as usize;
    let failing = FailAt::new(vec![in alloc; Failure { call, after }]?);
    Ok(MemDisk::new(alloc, Vec::from_slice(alloc, first)?, failing)?)
}

fn images_on(
    alloc: Global,
    disk: &mut MemDisk<FailAt>,
    lost: &[u8],
    journal: &[u8],
) -> Result<String, NoAnswer> {
    match entries_in(alloc, journal) {
        Ok(entries) => {
            let text = images_text(alloc, disk, lost, journal, &entries);
            drop(entries);
            text
        }
        Err(fault) => damage_text(alloc, fault),
    }
}

fn images_text(
    alloc: Global,
    disk: &mut MemDisk<FailAt>,
    lost: &[u8],
    bytes: &[u8],
    entries: &[Entry],
) -> Result<String, NoAnswer>
    requires { AllByRecursion FitsEntry entries.now }
{
    let count = end_count(alloc, disk, entries)?;
    let mut line = format!(in alloc; "{count}")?;
    for moment in 0..=disk.moment() {
        line.push(' ')?;
        let image = disk.image(alloc, moment, lost)?;
        line.push_str(&found_text(alloc, image, bytes, entries)?)?;
    }
    Ok(line)
}

/// How many entries are known to be on a disk, once it took the rest of these or failed.
fn end_count<D: Disk>(alloc: Global, disk: &mut D, entries: &[Entry]) -> Result<usize, NoAnswer>
    requires { AllByRecursion FitsEntry entries.now }
{
    match Journal::open(alloc, disk) {
        Ok(mut journal) => {
            let appended = append_rest(alloc, disk, &mut journal, entries);
            let count = journal.entries().len();
            drop(journal);
            count_unless_memory(appended, count)
        }
        Err(JournalFault::Memory) => Err(NoAnswer::Memory),
        Err(_) => Ok(0),
    }
}

fn count_unless_memory(
    appended: Result<(), JournalFault>,
    count: usize,
) -> Result<usize, NoAnswer> {
    match appended {
        Err(JournalFault::Memory) => Err(NoAnswer::Memory),
        _ => Ok(count),
    }
}

/// Appends those of the entries behind as many as there are.
fn append_rest<D: Disk>(
    alloc: Global,
    disk: &mut D,
    journal: &mut Journal,
    entries: &[Entry],
) -> Result<(), JournalFault>
    requires { AllByRecursion FitsEntry entries.now }
{
    for (index, entry) in entries.iter().enumerate() {
        let count = journal.entries().len();
        if index >= count && count < MOST_ENTRIES {
            journal.append(alloc, disk, entry)?;
        }
    }
    Ok(())
}

/// How many entries an image has, of a journal of these bytes and entries.
fn found_text(
    alloc: Global,
    image: Vec<u8>,
    bytes: &[u8],
    entries: &[Entry],
) -> Result<String, NoAnswer>
    requires { AllByRecursion FitsEntry entries.now }
{
    let mut disk = MemDisk::new(alloc, image, Never)?;
    let found = found_count(alloc, &mut disk, entries);
    let has_all = disk.contents().starts_with(bytes);
    drop(disk);
    match found {
        Ok(count) if has_all => Ok(format!(in alloc; "{count}")?),
        Ok(_) => Ok("others".to_string(alloc)?),
        Err(fault) => fault_text(alloc, fault),
    }
}

/// How many entries a disk has, which then takes the rest of these.
fn found_count<D: Disk>(
    alloc: Global,
    disk: &mut D,
    entries: &[Entry],
) -> Result<usize, JournalFault>
    requires { AllByRecursion FitsEntry entries.now }
{
    match Journal::open(alloc, disk) {
        Ok(mut journal) => {
            let count = journal.entries().len();
            let appended = append_rest(alloc, disk, &mut journal, entries);
            drop(journal);
            appended.and(Ok(count))
        }
        Err(fault) => Err(fault),
    }
}

fn fault_text(alloc: Global, fault: JournalFault) -> Result<String, NoAnswer> {
    match fault {
        JournalFault::Damaged { index, at } => Ok(format!(in alloc; "(Damaged {index} {at})")?),
        JournalFault::Disk => Ok("Disk".to_string(alloc)?),
        JournalFault::Memory => Err(NoAnswer::Memory),
    }
}
