//! Cells of one row against those of another.
ghost use Rattle.std.specs.Prelude.{◌≡◌, ◌≤◌, length, IfOk, All};
ghost use Rattle.vo_spec.specs.declared.cells.Cell.TheVariants.{Shown};
ghost use Rattle.vo_spec.specs.Sha256.{sha256};
ghost use Rattle.vo_spec.specs.Lent.{value_of};
ghost use Rattle.vo_spec.specs.Values.{FitsValue};
ghost use Rattle.vo_spec.specs.Cells.{attribute_bytes, cell_digest};
ghost use Rattle.vo_spec.specs.Fits.{FitsCell, max_cells};
ghost use Rattle.tree_collide.specs.Agreements.{HoldsOrCollides, SameCells};
ghost use Rattle.tree_collide.specs.Alike.{CellAlike, CellsAlike};
ghost use Rattle.tree_collide.specs.Preimages.{AttributesOf, AttributesIn};

use crate::cells::collision_of_shown;
use std::alloc::{AllocError, Global};
use vo_spec::{Cell, Collision, ValueRef};

/// None where the cells show the same wherever both are shown, else a collision of what they hash.
pub fn collision_of_twin_cells(
    alloc: Global,
    first: &[Cell<'_>],
    second: &[Cell<'_>],
) -> Result<Option<Collision>, AllocError>
    requires most { length first.now ≤ max_cells }
    requires count { length first.now ≡ length second.now }
    requires fit { All FitsCell first.now }
    requires second_fit { All FitsCell second.now }
    requires same { SameCells 0 first.now second.now }
    ensures { IfOk result (λ found. HoldsOrCollides found (CellsAlike 0 first.now second.now)
        (AttributesIn 0 first.now second.now)) }
{
    for (column, cell) in first.iter().enumerate() {
        let found = collision_of_twin_cell(alloc, column as u8, cell, &second[column])?;
        if found.is_some() {
            return Ok(found);
        }
    }
    Ok(None)
}

fn collision_of_twin_cell(
    alloc: Global,
    column: u8,
    first: &Cell<'_>,
    second: &Cell<'_>,
) -> Result<Option<Collision>, AllocError>
    requires fits { FitsCell first.now }
    requires second_fits { FitsCell second.now }
    requires same { cell_digest column first.now ≡ cell_digest column second.now }
    ensures { IfOk result (λ found. HoldsOrCollides found (CellAlike column first.now second.now)
        (AttributesOf column first.now second.now)) }
{
    match (first, second) {
        (Cell::Hidden(_), Cell::Hidden(_)) => Ok(None),
        (Cell::Hidden(_), Cell::Shown(_)) => Ok(None),
        (Cell::Shown(_), Cell::Hidden(_)) => Ok(None),
        (Cell::Shown(value), Cell::Shown(other)) => {
            collision_of_shown_pair(alloc, column, value.as_ref(), other.as_ref())
        },
    }
}

fn collision_of_shown_pair(
    alloc: Global,
    column: u8,
    first: ValueRef<'_>,
    second: ValueRef<'_>,
) -> Result<Option<Collision>, AllocError>
    requires fits { FitsValue (value_of first) }
    requires second_fits { FitsValue (value_of second) }
    requires same { sha256 (attribute_bytes column (value_of first))
        ≡ sha256 (attribute_bytes column (value_of second)) }
    ensures { IfOk result (λ found.
        HoldsOrCollides found (value_of first.entry ≡ value_of second.entry)
        (AttributesOf column (Shown (value_of first.entry)) (Shown (value_of second.entry)))) }
{
    let other = second.to_value(alloc)?;
    collision_of_shown(alloc, column, first, &other)
}
