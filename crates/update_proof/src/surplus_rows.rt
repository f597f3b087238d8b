//! What rows show of which a change doesn't look at.
ghost use Rattle.std.specs.Prelude.{◌≡◌, ◌<◌, ◌+◌, ◌||◌, length, take, drop};
ghost use Rattle.std.specs.List.{list_any};
ghost use Rattle.update_proof.specs.Changes.{any_row_surplus};
ghost use Rattle.update_proof.specs.OpenParts.{is_shown, shows_any, shows_cells};
ghost use Rattle.update_proof.specs.Proving.{rows_surplus};

use crate::change::Change;
use btree::position_of;
use vo_spec::{Cell, PartEntry, RowPart};

/// Whether a row of the leaf shows more than its digest, or that of a replacement more than its
/// cells'.
pub fn rows_have_surplus(entries: &[PartEntry<'_>], key: &[u8], change: Change) -> bool
    ensures { result ≡ any_row_surplus change key.now entries.now }
{
    match change {
        Change::Insertion | Change::Removal => any_cells(entries),
        Change::Replacement => others_have_surplus(entries, key),
    }
}

/// Whether the row of the key shows a cell, or another row stands as cells.
fn others_have_surplus(entries: &[PartEntry<'_>], key: &[u8]) -> bool
    ensures { result ≡ rows_surplus key.now entries.now }
{
    let place = position_of(entries, key);
    if place >= entries.len() {
        return any_cells(entries);
    }
    shows_cell(&entries[place].row) || others_stand_as_cells(entries, place)
}

/// Whether another row than that of this number stands as cells.
fn others_stand_as_cells(entries: &[PartEntry<'_>], place: usize) -> bool
    requires { place < length entries.now }
    ensures { result ≡ list_any shows_cells (take place entries.now)
        || list_any shows_cells (drop (place + 1) entries.now) }
{
    any_cells(&entries[..place]) || any_cells(&entries[place + 1..])
}

/// Whether a row stands as cells.
pub fn any_cells(entries: &[PartEntry<'_>]) -> bool
    ensures { result ≡ list_any shows_cells entries.now }
{
    for entry in entries {
        if let RowPart::Cells(_) = &entry.row {
            return true;
        }
    }
    false
}

/// Whether a cell of the row is shown.
fn shows_cell(row: &RowPart<'_>) -> bool
    ensures { result ≡ shows_any row.now }
{
    match row {
        RowPart::Digest(_) => false,
        RowPart::Cells(cells) => any_shown(cells.as_slice()),
    }
}

/// Whether one of the cells is shown.
fn any_shown(cells: &[Cell<'_>]) -> bool
    ensures { result ≡ list_any is_shown cells.now }
{
    for cell in cells {
        if let Cell::Shown(_) = cell {
            return true;
        }
    }
    false
}
