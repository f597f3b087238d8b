//! Entries of leaves against those of whole trees.
ghost use Rattle.std.specs.Prelude.{◌≡◌, length, map, IfOk, All};
ghost use Rattle.std.specs.List.{AllZip};
ghost use Rattle.vo_spec.specs.Cells.{whole_entry, EntryPrunes};
ghost use Rattle.vo_spec.specs.Fits.{FitsEntry};
ghost use Rattle.tree_collide.specs.Agreements.{HoldsOrCollides, SameEntries};
ghost use Rattle.tree_collide.specs.Preimages.{RowsIn};

use crate::rows::collision_of_row;
use mb_tree::TreeEntry;
use std::alloc::{AllocError, Global};
use vo_spec::{Collision, PartEntry};

/// None where the entries are those of the tree with some of their rows or cells replaced by
/// digests, else a collision of what they hash.
pub fn collision_of_entries(
    alloc: Global,
    parts: &[PartEntry<'_>],
    entries: &[TreeEntry],
) -> Result<Option<Collision>, AllocError>
    requires count { length parts.now ≡ length entries.now }
    requires fit { All FitsEntry parts.now }
    requires same { SameEntries parts.now (map whole_entry entries.now) }
    ensures { IfOk result (λ found.
        HoldsOrCollides found (AllZip EntryPrunes parts.now (map whole_entry entries.now))
        (RowsIn parts.now (map whole_entry entries.now))) }
{
    for (place, part) in parts.iter().enumerate() {
        let found = collision_of_row(alloc, &part.row, entries[place].cells())?;
        if found.is_some() {
            return Ok(found);
        }
    }
    Ok(None)
}
