//! What the proof for some needs has of a node that is open.
ghost use Rattle.std.specs.Prelude.{◌≡◌, map, slice_get, IfOk};
ghost use Rattle.std.specs.Option.{option_copied};
ghost use Rattle.vo_spec.specs.Cells.{whole_entry};
ghost use Rattle.vo_spec.specs.Pruning.{shown_entry};

use crate::active_needs::ActiveNeeds;
use attr_digest::hide_cells;
use mb_tree::{TreeEntry, TreeKey};
use std::alloc::{AllocError, Global};
use vo_spec::{KeyPart, List, PartEntry, RowPart};

/// The separator behind the child at this place; none behind the last.
pub fn separator_at(separators: &[TreeKey], place: usize) -> Option<&[u8]>
    ensures { option_copied result ≡ slice_get separators.now place }
{
    match separators.get(place) {
        Some(separator) => Some(separator.as_bytes()),
        None => None,
    }
}

/// The leaf's entries with open what all needs name of them.
pub fn prune_entries<'b>(
    alloc: Global,
    entries: &'b [TreeEntry],
    needs: &ActiveNeeds<'_, '_>,
) -> Result<List<PartEntry<'b>>, AllocError>
    ensures { IfOk result (λ shown. shown
        ≡ map (shown_entry needs.now.all) (map whole_entry entries.now)) }
{
    let mut shown = Vec::with_capacity(alloc, entries.len())?;
    for entry in entries {
        shown.push(prune_entry(alloc, entry, needs)?)?;
    }
    Ok(List::from_vec(shown))
}

fn prune_entry<'b>(
    alloc: Global,
    entry: &'b TreeEntry,
    needs: &ActiveNeeds<'_, '_>,
) -> Result<PartEntry<'b>, AllocError>
    ensures { IfOk result (λ shown. shown ≡ shown_entry needs.now.all (whole_entry entry.now)) }
{
    let key = KeyPart::lent(entry.key().as_bytes());
    let cells = entry.cells();
    let columns = needs.named_columns(alloc, entry.key().as_bytes())?;
    if columns.is_empty() {
        let row = RowPart::Digest(cells.digest());
        return Ok(PartEntry { key, row });
    }
    let row = RowPart::Cells(hide_cells(alloc, cells.values(), &columns)?);
    Ok(PartEntry { key, row })
}
