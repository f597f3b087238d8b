//! Reading the entries of leaves: keys, and rows as a digest or as cells. A call that fails may have
//! taken anything: what is read of a tree goes ahead on a copy as a whole.
ghost use Rattle.std.specs.Prelude.{[], ◌∷◌, ◌++◌};
ghost use Rattle.vo_spec.specs.declared.cells.Cell.TheVariants.{Hidden, Shown};
ghost use Rattle.vo_spec.specs.declared.cells.RowPart.TheVariants.{Cells, Digest as Closed};
ghost use Rattle.row_bytes.specs.Reading.{bytes_at};
ghost use Rattle.row_bytes.specs.Fields.{times};
ghost use Rattle.batch_format.specs.BatchReading.{any_value_at, one};
ghost use Rattle.batch_format.specs.TreeReading.{cell_at, cells_at, count_within, entry_at, key_at, part_entry, row_at};
ghost use Rattle.vo_format.specs.Taking.{Takes, TakesOr};

use row_bytes::{Cursor, ReadFault, take_value};
use std::alloc::Global;
use vo_spec::{Cell, CellValue, Digest, KeyPart, List, MAX_CELLS, MAX_KEY, PartEntry, RowPart};

/// How many things come next, within these limits.
pub fn take_count(cursor: &mut Cursor<'_>, least: u8, most: u8) -> Option<u8>
    ensures { Takes (λ count. count) result cursor.new (count_within least most cursor.old) }
{
    let count = cursor.take_byte()?;
    if count < least || most < count {
        return None;
    }
    Some(count)
}

/// The bytes of the key or separator that comes next.
#[tactic(auto, unfolding(batch_format::specs::TreeReading::key_at))]
pub fn take_key<'b>(cursor: &mut Cursor<'b>) -> Option<&'b [u8]>
    ensures { Takes (λ key. key.now) result cursor.new (key_at cursor.old) }
{
    let key = cursor.take_string()?;
    if key.len() > MAX_KEY {
        return None;
    }
    Some(key)
}

/// Puts the cell behind others whose digest comes next.
#[inline(always)]
fn push_hidden<'b>(cursor: &mut Cursor<'b>, cells: &mut Vec<Cell<'b>>) -> Result<(), ReadFault>
    ensures { TakesOr (λ done. cells.new.items) result cursor.new
        (one (λ digest. cells.old.items ++ Hidden digest ∷ []) (bytes_at 32) cursor.old) }
{
    let Some(digest) = cursor.take_chunk::<32>() else {
        return Err(ReadFault::BadForm);
    };
    cells.push(Cell::Hidden(Digest::new(*digest)))?;
    Ok(())
}

/// Puts the cell behind others whose value comes next.
#[tactic(auto, unfolding(batch_format::specs::BatchReading::any_value_at))]
fn push_shown<'b>(cursor: &mut Cursor<'b>, cells: &mut Vec<Cell<'b>>) -> Result<(), ReadFault>
    ensures { TakesOr (λ done. cells.new.items) result cursor.new
        (one (λ value. cells.old.items ++ Shown value ∷ []) any_value_at cursor.old) }
{
    let Ok(value) = take_value(cursor) else {
        return Err(ReadFault::BadForm);
    };
    cells.push(Cell::Shown(CellValue::lent(value)))?;
    Ok(())
}

/// Puts the cell that comes next behind others. It is made where it stays: most of a reply is this.
#[inline(always)]
#[tactic(auto, unfolding(batch_format::specs::TreeReading::cell_at, row_bytes::specs::Reading::byte_at))]
fn push_cell<'b>(cursor: &mut Cursor<'b>, cells: &mut Vec<Cell<'b>>) -> Result<(), ReadFault>
    ensures { TakesOr (λ done. cells.new.items) result cursor.new
        (one (λ cell. cells.old.items ++ cell ∷ []) cell_at cursor.old) }
{
    match cursor.take_byte() {
        Some(0) => push_hidden(cursor, cells),
        Some(1) => push_shown(cursor, cells),
        _ => Err(ReadFault::BadForm),
    }
}

fn each_cell<'b>(
    alloc: Global,
    cursor: &mut Cursor<'b>,
    count: u8,
) -> Result<Vec<Cell<'b>>, ReadFault>
    ensures { TakesOr (λ cells. cells.items) result cursor.new
        (times cell_at count cursor.old) }
{
    let mut cells = Vec::with_capacity(alloc, usize::from(count))?;
    for _ in 0..count {
        match push_cell(cursor, &mut cells) {
            Ok(()) => {}
            Err(fault) => return Err(fault),
        }
    }
    Ok(cells)
}

/// Puts the entry of this key behind others, whose row's digest comes next.
// Inlined, as what calls it is: most entries of a join's reply are such.
#[inline(always)]
fn push_closed<'b>(
    cursor: &mut Cursor<'b>,
    key: &'b [u8],
    entries: &mut Vec<PartEntry<'b>>,
) -> Result<(), ReadFault>
    ensures { TakesOr (λ done. entries.new.items) result cursor.new
        (one (λ digest. entries.old.items ++ part_entry key.now (Closed digest) ∷ [])
        (bytes_at 32) cursor.old) }
{
    let Some(digest) = cursor.take_chunk::<32>() else {
        return Err(ReadFault::BadForm);
    };
    entries.push(PartEntry {
        key: KeyPart::lent(key),
        row: RowPart::Digest(Digest::new(*digest)),
    })?;
    Ok(())
}

/// Puts the entry of this key behind others, whose row's cells come next.
#[tactic(auto, unfolding(batch_format::specs::TreeReading::cells_at))]
fn push_open<'b>(
    alloc: Global,
    cursor: &mut Cursor<'b>,
    key: &'b [u8],
    entries: &mut Vec<PartEntry<'b>>,
) -> Result<(), ReadFault>
    ensures { TakesOr (λ done. entries.new.items) result cursor.new
        (one (λ cells. entries.old.items ++ part_entry key.now (Cells cells) ∷ [])
        cells_at cursor.old) }
{
    let Some(count) = take_count(cursor, 0, MAX_CELLS as u8) else {
        return Err(ReadFault::BadForm);
    };
    match each_cell(alloc, cursor, count) {
        Ok(cells) => Ok(entries.push(PartEntry {
            key: KeyPart::lent(key),
            row: RowPart::Cells(List::from_vec(cells)),
        })?),
        Err(fault) => Err(fault),
    }
}

/// Puts the entry of this key behind others, whose row comes next.
#[inline(always)]
#[tactic(auto, unfolding(batch_format::specs::TreeReading::row_at, row_bytes::specs::Reading::byte_at))]
fn push_row<'b>(
    alloc: Global,
    cursor: &mut Cursor<'b>,
    key: &'b [u8],
    entries: &mut Vec<PartEntry<'b>>,
) -> Result<(), ReadFault>
    ensures { TakesOr (λ done. entries.new.items) result cursor.new
        (one (λ row. entries.old.items ++ part_entry key.now row ∷ []) row_at cursor.old) }
{
    match cursor.take_byte() {
        Some(0) => push_closed(cursor, key, entries),
        Some(1) => push_open(alloc, cursor, key, entries),
        _ => Err(ReadFault::BadForm),
    }
}

/// Puts the entry that comes next behind others. One with a digest for its row is made where it
/// stays: most entries of a join's reply are such.
#[inline(always)]
#[tactic(auto, unfolding(batch_format::specs::TreeReading::entry_at))]
pub fn push_entry<'b>(
    alloc: Global,
    cursor: &mut Cursor<'b>,
    entries: &mut Vec<PartEntry<'b>>,
) -> Result<(), ReadFault>
    ensures { TakesOr (λ done. entries.new.items) result cursor.new
        (one (λ entry. entries.old.items ++ entry ∷ []) entry_at cursor.old) }
{
    match take_key(cursor) {
        Some(key) => push_row(alloc, cursor, key, entries),
        None => Err(ReadFault::BadForm),
    }
}
