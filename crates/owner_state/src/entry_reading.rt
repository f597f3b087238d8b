//! Reading entries.
ghost use Rattle.std.specs.Prelude.{◌≡◌, ℕ};
ghost use Rattle.row_bytes.specs.Fields.{Found, FoundOr};
ghost use Rattle.batch_format.specs.BatchReading.{batch_of, BatchRead};
ghost use Rattle.owner_state.specs.Reading.{limited_at, batch_at, entry_at, entry_of, slot_at, EntryRead};

use crate::lent_entry::LentEntry;
use batch_format::read_batch;
use row_bytes::{Cursor, ReadFault};
use std::alloc::Global;
use version_record::take_record;
use vo_spec::{Batch, MAX_PROOFS, MAX_SIGNATURE};

/// The entry of the slot that comes next, if that slot is open and its entry whole.
#[tactic(auto, unfolding(crate::specs::Reading::slot_at, row_bytes::specs::Reading::byte_at))]
pub fn take_slot<'b>(alloc: Global, cursor: &mut Cursor<'b>) -> Result<LentEntry<'b>, ReadFault>
    ensures { FoundOr (λ entry. entry) result cursor.old cursor.new (slot_at cursor.old) }
{
    let mut ahead = cursor.copy();
    match ahead.take_byte() {
        Some(1) => {
            let Some(block) = ahead.take_block() else {
                return Err(ReadFault::BadForm);
            };
            let entry = read_entry(alloc, block)?;
            *cursor = ahead;
            Ok(entry)
        }
        _ => Err(ReadFault::BadForm),
    }
}

/// The entry that all the bytes are.
#[tactic(auto, unfolding(crate::specs::Reading::entry_of))]
fn read_entry(alloc: Global, bytes: &[u8]) -> Result<LentEntry<'_>, ReadFault>
    ensures { EntryRead result (entry_of bytes.now) }
{
    let mut cursor = Cursor::new(bytes);
    let entry = take_entry(alloc, &mut cursor)?;
    cursor.is_empty().then_some(entry).ok_or(ReadFault::BadForm)
}

#[tactic(auto, unfolding(crate::specs::Reading::entry_at))]
fn take_entry<'b>(alloc: Global, cursor: &mut Cursor<'b>) -> Result<LentEntry<'b>, ReadFault>
    ensures { FoundOr (λ entry. entry) result cursor.old cursor.new (entry_at cursor.old) }
{
    let mut ahead = cursor.copy();
    let Some(_) = ahead.take_word(b"VOE1") else {
        return Err(ReadFault::BadForm);
    };
    let batch = take_batch(alloc, &mut ahead)?;
    let Some(proofs) = take_limited(&mut ahead, MAX_PROOFS) else {
        return Err(ReadFault::BadForm);
    };
    let Some(rec) = take_record(&mut ahead) else {
        return Err(ReadFault::BadForm);
    };
    let Some(signature) = take_limited(&mut ahead, MAX_SIGNATURE) else {
        return Err(ReadFault::BadForm);
    };
    *cursor = ahead;
    Ok(LentEntry::new(batch, proofs, rec, signature))
}

#[tactic(auto, unfolding(crate::specs::Reading::batch_at))]
fn take_batch(alloc: Global, cursor: &mut Cursor<'_>) -> Result<Batch, ReadFault>
    ensures { FoundOr (λ batch. batch.commands) result cursor.old cursor.new (batch_at cursor.old) }
{
    let mut ahead = cursor.copy();
    let Some(block) = ahead.take_block() else {
        return Err(ReadFault::BadForm);
    };
    let batch = batch_of(alloc, block)?;
    *cursor = ahead;
    Ok(batch)
}

fn batch_of(alloc: Global, bytes: &[u8]) -> Result<Batch, ReadFault>
    ensures { BatchRead result (batch_of bytes.now) }
{
    read_batch(alloc, bytes)
}

/// Bytes behind their length, at most so many.
#[tactic(auto, unfolding(crate::specs::Reading::limited_at))]
fn take_limited<'b>(cursor: &mut Cursor<'b>, most: usize) -> Option<&'b [u8]>
    ensures { Found (λ bytes. bytes.now) result cursor.old cursor.new (limited_at most cursor.old) }
{
    let mut ahead = cursor.copy();
    let block = ahead.take_block()?;
    if block.len() > most {
        return None;
    }
    *cursor = ahead;
    Some(block)
}
