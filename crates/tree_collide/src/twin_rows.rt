//! Rows of one leaf against those of another.
ghost use Rattle.std.specs.Prelude.{◌≡◌, ◌≤◌, length, IfOk, All};
ghost use Rattle.std.specs.List.{AllZip};
ghost use Rattle.vo_spec.specs.declared.cells.RowPart.TheVariants.{Cells};
ghost use Rattle.vo_spec.specs.Sha256.{sha256};
ghost use Rattle.vo_spec.specs.Cells.{row_bytes as row_bytes_of, row_digest};
ghost use Rattle.vo_spec.specs.Fits.{FitsCell, FitsEntry, FitsRowPart, max_cells};
ghost use Rattle.tree_collide.specs.Agreements.{HoldsOrCollides, SameEntries};
ghost use Rattle.tree_collide.specs.Alike.{CellsAlike, EntryAlike, RowAlike};
ghost use Rattle.tree_collide.specs.Preimages.{RowsOf, RowsIn};

use crate::comparison::compare;
use crate::rows::parts_preimage;
use crate::same_parts::is_same_row;
use crate::twin_cells::collision_of_twin_cells;
use std::alloc::{AllocError, Global};
use vo_spec::{Cell, Collision, PartEntry, RowPart};

/// None where the entries have the same keys, and rows that show the same wherever both are open,
/// else a collision of what they hash.
pub fn collision_of_twin_entries(
    alloc: Global,
    first: &[PartEntry<'_>],
    second: &[PartEntry<'_>],
) -> Result<Option<Collision>, AllocError>
    requires count { length first.now ≡ length second.now }
    requires fit { All FitsEntry first.now }
    requires second_fit { All FitsEntry second.now }
    requires same { SameEntries first.now second.now }
    ensures { IfOk result (λ found.
        HoldsOrCollides found (AllZip EntryAlike first.now second.now)
        (RowsIn first.now second.now)) }
{
    for (place, entry) in first.iter().enumerate() {
        let found = collision_of_twin_row(alloc, &entry.row, &second[place].row)?;
        if found.is_some() {
            return Ok(found);
        }
    }
    Ok(None)
}

#[tactic(auto, using(crate::proofs::OneTree::row_alike_itself))]
fn collision_of_twin_row(
    alloc: Global,
    first: &RowPart<'_>,
    second: &RowPart<'_>,
) -> Result<Option<Collision>, AllocError>
    requires fits { FitsRowPart first.now }
    requires second_fits { FitsRowPart second.now }
    requires same { row_digest first.now ≡ row_digest second.now }
    ensures { IfOk result (λ found. HoldsOrCollides found (RowAlike first.now second.now)
        (RowsOf first.now second.now)) }
{
    if is_same_row(first, second) {
        return Ok(None);
    }
    match (first, second) {
        (RowPart::Digest(_), RowPart::Digest(_)) => Ok(None),
        (RowPart::Digest(_), RowPart::Cells(_)) => Ok(None),
        (RowPart::Cells(_), RowPart::Digest(_)) => Ok(None),
        (RowPart::Cells(cells), RowPart::Cells(others)) => {
            collision_of_open_rows(alloc, cells.as_slice(), others.as_slice())
        },
    }
}

#[tactic(auto, using(crate::proofs::Reading::row_same, crate::proofs::Sharing::row_bytes_alike, crate::proofs::Steps::same_lengths, crate::proofs::Strings::row_strings, crate::proofs::Strings::of_attributes))]
fn collision_of_open_rows(
    alloc: Global,
    first: &[Cell<'_>],
    second: &[Cell<'_>],
) -> Result<Option<Collision>, AllocError>
    requires count { length first.now ≤ max_cells }
    requires second_count { length second.now ≤ max_cells }
    requires fit { All FitsCell first.now }
    requires second_fit { All FitsCell second.now }
    requires same { sha256 (row_bytes_of first.now) ≡ sha256 (row_bytes_of second.now) }
    ensures { IfOk result (λ found. HoldsOrCollides found (CellsAlike 0 first.now second.now)
        (RowsOf (Cells first.now) (Cells second.now))) }
{
    let one = parts_preimage(alloc, first)?;
    let other = parts_preimage(alloc, second)?;
    match compare(one, other) {
        Some(found) => Ok(Some(found)),
        None => collision_of_twin_cells(alloc, first, second),
    }
}
