//! The rows of the leaf that a change looks at.
ghost use Rattle.std.specs.Prelude.{◌≡◌, map, IfOk};
ghost use Rattle.vo_spec.specs.Cells.{whole_entry};
ghost use Rattle.vo_spec.specs.Removes.{opened_row};
ghost use Rattle.update_proof.specs.Changes.{rows_in_proof};
ghost use Rattle.update_proof.specs.OpenParts.{opened_entry};

use crate::change::Change;
use crate::replacing::with_item;
use crate::stubs::hash_entries;
use attr_digest::hide_cells;
use btree::position_of;
use mb_tree::TreeEntry;
use std::alloc::{AllocError, Global};
use vo_spec::{KeyPart, List, PartEntry, RowPart};

/// The rows as the proof of the change has them.
pub fn open_rows<'b>(
    alloc: Global,
    entries: &'b [TreeEntry],
    key: &[u8],
    change: Change,
) -> Result<List<PartEntry<'b>>, AllocError>
    ensures { IfOk result (λ rows. rows
        ≡ rows_in_proof change key.now (map whole_entry entries.now)) }
{
    match change {
        Change::Insertion | Change::Removal => hash_entries(alloc, entries),
        Change::Replacement => open_row(alloc, entries, key),
    }
}

/// The rows as digests, but for that of the key, whose cells are all hidden.
fn open_row<'b>(
    alloc: Global,
    entries: &'b [TreeEntry],
    key: &[u8],
) -> Result<List<PartEntry<'b>>, AllocError>
    ensures { IfOk result (λ rows. rows ≡ opened_row key.now (map whole_entry entries.now)) }
{
    let place = position_of(entries, key);
    let closed = hash_entries(alloc, entries)?;
    if place >= entries.len() {
        return Ok(closed);
    }
    let opened = open_entry(alloc, &entries[place]);
    let rows = with_item(closed.into_vec(), place, opened)?;
    Ok(List::from_vec(rows))
}

fn open_entry<'b>(alloc: Global, entry: &'b TreeEntry) -> Result<PartEntry<'b>, AllocError>
    ensures { IfOk result (λ opened. opened ≡ opened_entry (whole_entry entry.now)) }
{
    Ok(PartEntry {
        key: KeyPart::lent(entry.key().as_bytes()),
        row: RowPart::Cells(hide_cells(alloc, entry.cells().values(), &[])?),
    })
}
