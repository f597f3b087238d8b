//! Entries taken out of the bytes of their slots, the last first. What an entry was read from is
//! given back at once, so that only one entry's proofs stand there twice at a time.
ghost use Rattle.std.specs.Prelude.{◌≡◌, ◌-◌, ◌≤◌, IfOk, List as Items, OnOk, drop, length, take};
ghost use Rattle.std.specs.List.{AllByRecursion};
ghost use Rattle.vo_spec.specs.declared.records.Entry.{Entry as Plain};
ghost use Rattle.vo_spec.specs.Journals.{FitsEntry, slot};
ghost use Rattle.owner_journal.specs.Taking.{AreSlotsOf, slot_counts};

use batch_format::batch_bytes;
use owner_state::{LentEntry, read_slots};
use std::alloc::{AllocError, Global};
use vo_spec::Entry;

/// How many bytes the slot of each entry has.
pub(crate) fn slot_counts(
    alloc: Global,
    entries: &[LentEntry<'_>],
) -> Result<Vec<usize>, AllocError>
    requires { AllByRecursion FitsEntry entries.now }
    ensures { IfOk result (λ counts. counts.items ≡ slot_counts entries.now) }
{
    let mut counts = Vec::with_capacity(alloc, entries.len())?;
    for entry in entries {
        counts.push(slot_count(alloc, entry)?)?;
    }
    Ok(counts)
}

fn slot_count(alloc: Global, entry: &LentEntry<'_>) -> Result<usize, AllocError>
    requires { FitsEntry entry.now }
    ensures { IfOk result (λ count. count ≡ length (slot entry.now)) }
{
    let batch = batch_bytes(alloc, entry.batch())?;
    Ok(81 + batch.len() + entry.proofs().len() + entry.signature().len())
}

/// The entries whose slots the bytes are, each of so many bytes; none of the bytes are left.
pub(crate) fn take_entries(
    alloc: Global,
    bytes: &mut Vec<u8>,
    counts: Vec<usize>,
) -> Result<Vec<Entry>, AllocError>
    requires { (es : Items Plain) × AreSlotsOf bytes.old.items es × (counts.items ≡ slot_counts es) }
    ensures { IfOk result (λ entries. AreSlotsOf bytes.old.items entries.items) }
{
    let mut counts = counts;
    counts.reverse();
    let mut entries = Vec::with_capacity(alloc, counts.len())?;
    for count in &counts {
        entries.push(take_last(alloc, bytes, *count)?)?;
    }
    entries.reverse();
    Ok(entries)
}

/// The entry whose slot the last bytes are, which go.
fn take_last(alloc: Global, bytes: &mut Vec<u8>, count: usize) -> Result<Entry, AllocError>
    requires within { count ≤ length bytes.old.items }
    requires slot { (e : Plain) × FitsEntry e
        × (drop (length bytes.old.items - count) bytes.old.items ≡ slot e) }
    ensures fits { IfOk result FitsEntry }
    ensures slot { IfOk result (λ entry.
        drop (length bytes.old.items - count) bytes.old.items ≡ slot entry) }
    ensures rest { OnOk result (bytes.new.items
        ≡ take (length bytes.old.items - count) bytes.old.items) }
{
    let place = bytes.len() - count;
    let entry = read_slot(alloc, &bytes[place..])?;
    bytes.truncate(place);
    bytes.shrink_to_fit();
    Ok(entry)
}

/// The entry whose slot the bytes are.
fn read_slot(alloc: Global, bytes: &[u8]) -> Result<Entry, AllocError>
    requires { (e : Plain) × FitsEntry e × (bytes.now ≡ slot e) }
    ensures fits { IfOk result FitsEntry }
    ensures slot { IfOk result (λ entry. bytes.now ≡ slot entry) }
{
    let slots = read_slots(alloc, bytes)?;
    let mut entries = slots.entries.into_vec();
    entries.remove(0).into_entry(alloc)
}
