//! Parts of rows against rows.
ghost use Rattle.std.specs.Prelude.{◌≡◌, ◌∷◌, ◌++◌, ◌≤◌, length, IfOk, All};
ghost use Rattle.vo_spec.specs.declared.cells.RowPart.TheVariants.{Cells};
ghost use Rattle.vo_spec.specs.Sha256.{sha256};
ghost use Rattle.vo_spec.specs.Cells.{row_bytes as row_bytes_of, row_digest, whole_cells, whole_row, CellsPrune, RowPrunes};
ghost use Rattle.vo_spec.specs.Fits.{FitsCell, FitsCells, FitsRowPart, max_cells};
ghost use Rattle.tree_collide.specs.Agreements.{HoldsOrCollides};
ghost use Rattle.tree_collide.specs.Preimages.{RowsOf};

use crate::cells::collision_of_cells;
use crate::comparison::compare;
use attr_digest::{attr_digest, cell_digest};
use mb_tree::HashedCells;
use std::alloc::{AllocError, Global};
use vo_spec::{Cell, Collision, RowPart, Value};

/// None where the part is the row with some of its cells, or itself, replaced by their digests,
/// else a collision of what the two hash.
pub fn collision_of_row(
    alloc: Global,
    part: &RowPart<'_>,
    cells: &HashedCells,
) -> Result<Option<Collision>, AllocError>
    requires fits { FitsRowPart part.now }
    requires same { row_digest part.now ≡ row_digest (whole_row cells.now) }
    ensures { IfOk result (λ found. HoldsOrCollides found (RowPrunes part.now (whole_row cells.now))
        (RowsOf part.now (whole_row cells.now))) }
{
    match part {
        RowPart::Digest(_) => Ok(None),
        RowPart::Cells(parts) => collision_of_open_row(alloc, parts.as_slice(), cells.values()),
    }
}

#[tactic(auto, using(crate::proofs::Reading::row_same, crate::proofs::Keeping::row_bytes_kept, crate::proofs::Steps::whole_fit, crate::proofs::Steps::same_count, crate::proofs::Strings::row_strings, crate::proofs::Strings::of_attributes))]
fn collision_of_open_row(
    alloc: Global,
    parts: &[Cell<'_>],
    values: &[Value],
) -> Result<Option<Collision>, AllocError>
    requires count { length parts.now ≤ max_cells }
    requires fit { All FitsCell parts.now }
    requires values_fit { FitsCells values.now }
    requires same { sha256 (row_bytes_of parts.now)
        ≡ sha256 (row_bytes_of (whole_cells values.now)) }
    ensures { IfOk result (λ found. HoldsOrCollides found
        (CellsPrune 0 parts.now (whole_cells values.now))
        (RowsOf (Cells parts.now) (whole_row values.now))) }
{
    let first = parts_preimage(alloc, parts)?;
    let second = values_preimage(alloc, values)?;
    match compare(first, second) {
        Some(found) => Ok(Some(found)),
        None => collision_of_cells(alloc, parts, values),
    }
}

#[tactic(auto, using(attr_digest::proofs::Digests::cell_digests_more))]
pub fn parts_preimage(alloc: Global, cells: &[Cell<'_>]) -> Result<Vec<u8>, AllocError>
    requires count { length cells.now ≤ max_cells }
    requires fit { All FitsCell cells.now }
    ensures { IfOk result (λ bytes. bytes.items ≡ row_bytes_of cells.now) }
{
    let mut out = Vec::from_slice(alloc, &[2, cells.len() as u8])?;
    for (column, cell) in cells.iter().enumerate() {
        out.extend_from_slice(cell_digest(column as u8, cell).as_bytes())?;
    }
    Ok(out)
}

#[tactic(auto, using(attr_digest::proofs::Digests::whole_digests_more))]
fn values_preimage(alloc: Global, values: &[Value]) -> Result<Vec<u8>, AllocError>
    requires { FitsCells values.now }
    ensures { IfOk result (λ bytes. bytes.items ≡ row_bytes_of (whole_cells values.now)) }
{
    let mut out = Vec::from_slice(alloc, &[2, values.len() as u8])?;
    for (column, value) in values.iter().enumerate() {
        out.extend_from_slice(attr_digest(column as u8, value.as_ref()).as_bytes())?;
    }
    Ok(out)
}
