//! Cells against values.
ghost use Rattle.std.specs.Prelude.{◌≡◌, ◌∷◌, ◌++◌, ◌≤◌, length, IfOk, All};
ghost use Rattle.vo_spec.specs.declared.cells.Cell.TheVariants.{Shown};
ghost use Rattle.vo_spec.specs.Sha256.{sha256};
ghost use Rattle.vo_spec.specs.Lent.{value_of};
ghost use Rattle.vo_spec.specs.Values.{FitsValue};
ghost use Rattle.vo_spec.specs.Cells.{attribute_bytes, cell_digest, whole_cells, CellPrunes, CellsPrune};
ghost use Rattle.vo_spec.specs.Fits.{FitsCell, max_cells};
ghost use Rattle.tree_collide.specs.Agreements.{HoldsOrCollides, SameCells};
ghost use Rattle.tree_collide.specs.Preimages.{AttributesOf, AttributesIn};

use crate::comparison::compare;
use row_bytes::put_value;
use std::alloc::{AllocError, Global};
use vo_spec::{Cell, Collision, Value, ValueRef};

/// None where the cells are these values with some of them hidden, else a collision of what they
/// hash.
pub fn collision_of_cells(
    alloc: Global,
    cells: &[Cell<'_>],
    values: &[Value],
) -> Result<Option<Collision>, AllocError>
    requires most { length values.now ≤ max_cells }
    requires count { length cells.now ≡ length values.now }
    requires fit { All FitsCell cells.now }
    requires values_fit { All FitsValue values.now }
    requires same { SameCells 0 cells.now (whole_cells values.now) }
    ensures { IfOk result (λ found. HoldsOrCollides found
        (CellsPrune 0 cells.now (whole_cells values.now))
        (AttributesIn 0 cells.now (whole_cells values.now))) }
{
    for (column, cell) in cells.iter().enumerate() {
        let found = collision_of_cell(alloc, column as u8, cell, &values[column])?;
        if found.is_some() {
            return Ok(found);
        }
    }
    Ok(None)
}

fn collision_of_cell(
    alloc: Global,
    column: u8,
    cell: &Cell<'_>,
    value: &Value,
) -> Result<Option<Collision>, AllocError>
    requires fits { FitsCell cell.now }
    requires value_fits { FitsValue value.now }
    requires same { cell_digest column cell.now ≡ cell_digest column (Shown value.now) }
    ensures { IfOk result (λ found. HoldsOrCollides found
        (CellPrunes column cell.now (Shown value.now))
        (AttributesOf column cell.now (Shown value.now))) }
{
    match cell {
        Cell::Hidden(_) => Ok(None),
        Cell::Shown(held) => collision_of_shown(alloc, column, held.as_ref(), value),
    }
}

pub fn collision_of_shown(
    alloc: Global,
    column: u8,
    shown: ValueRef<'_>,
    value: &Value,
) -> Result<Option<Collision>, AllocError>
    requires fits { FitsValue (value_of shown) }
    requires value_fits { FitsValue value.now }
    requires same { sha256 (attribute_bytes column (value_of shown))
        ≡ sha256 (attribute_bytes column value.now) }
    ensures { IfOk result (λ found. HoldsOrCollides found (value_of shown.entry ≡ value.now)
        (AttributesOf column (Shown (value_of shown.entry)) (Shown value.now))) }
{
    let own = shown.to_value(alloc)?;
    collision_of_value(alloc, column, &own, value)
}

#[tactic(auto, using(crate::proofs::Reading::attribute_same))]
fn collision_of_value(
    alloc: Global,
    column: u8,
    shown: &Value,
    value: &Value,
) -> Result<Option<Collision>, AllocError>
    requires fits { FitsValue shown.now }
    requires value_fits { FitsValue value.now }
    requires same { sha256 (attribute_bytes column shown.now)
        ≡ sha256 (attribute_bytes column value.now) }
    ensures { IfOk result (λ found. HoldsOrCollides found (shown.now ≡ value.now)
        (AttributesOf column (Shown shown.now) (Shown value.now))) }
{
    let first = attribute_preimage(alloc, column, shown)?;
    let second = attribute_preimage(alloc, column, value)?;
    Ok(compare(first, second))
}

fn attribute_preimage(alloc: Global, column: u8, value: &Value) -> Result<Vec<u8>, AllocError>
    requires { FitsValue value.now }
    ensures { IfOk result (λ bytes. bytes.items ≡ attribute_bytes column value.now) }
{
    let mut out = Vec::from_slice(alloc, &[1, column])?;
    put_value(&mut out, value)?;
    Ok(out)
}
