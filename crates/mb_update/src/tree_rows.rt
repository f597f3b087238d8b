//! Entries of whole trees: those that are put as parts, and those with other values.
ghost use Rattle.std.specs.Prelude.{◌≡◌, map, slice_set, IfOk, OnOk};
ghost use Rattle.vo_spec.specs.Tables.{changed_cells};
ghost use Rattle.vo_spec.specs.Fits.{FitsCells, FitsKey};
ghost use Rattle.vo_spec.specs.Representation.{values_of_row};
ghost use Rattle.mb_update.specs.RowParts.{IsWholeRow};
ghost use Rattle.mb_update.specs.Sets.{change_of, changed_by, FitsSets};

use crate::ops::SetCell;
use crate::row_copies::values_of;
use mb_tree::{TreeEntry, TreeKey};
use std::alloc::{AllocError, Global};
use vo_spec::{Key, List, RowPart, Value, copy_values};

/// The entry of this key with a copy of this row.
pub fn put_entry(alloc: Global, key: &Key, part: &RowPart<'_>) -> Result<TreeEntry, AllocError>
    requires key { FitsKey key.now }
    requires part { IsWholeRow part.now }
    ensures { IfOk result (λ entry. entry
        ≡ record { key = key.now; cells = values_of_row part.now }) }
{
    let key = TreeKey::new(alloc, key.copy(alloc)?)?;
    let cells = values_of(alloc, part)?;
    TreeEntry::of_parts(alloc, key, cells)
}

/// The entry with a copy of this row in the place of its own.
pub fn exchange_row(
    alloc: Global,
    entry: &TreeEntry,
    part: &RowPart<'_>,
) -> Result<TreeEntry, AllocError>
    requires { IsWholeRow part.now }
    ensures { IfOk result (λ new. new
        ≡ record { key = entry.now.key; cells = values_of_row part.now }) }
{
    let key = entry.share_key()?;
    let cells = values_of(alloc, part)?;
    TreeEntry::of_parts(alloc, key, cells)
}

/// The entry with these values and the same key. Its digest is computed once, for all of them.
pub fn entry_with(
    alloc: Global,
    entry: &TreeEntry,
    sets: &[SetCell],
) -> Result<TreeEntry, AllocError>
    requires { FitsSets sets.now }
    ensures { IfOk result (λ new. new ≡ changed_by (map change_of sets.now) entry.now) }
{
    let key = entry.share_key()?;
    let cells = values_with(alloc, entry.cells().values(), sets)?;
    TreeEntry::of_parts(alloc, key, cells)
}

fn values_with(alloc: Global, values: &[Value], sets: &[SetCell]) -> Result<List<Value>, AllocError>
    requires cells { FitsCells values.now }
    requires sets { FitsSets sets.now }
    ensures value { IfOk result (λ new. new ≡ changed_cells (map change_of sets.now) values.now) }
    ensures fits { IfOk result (λ new. FitsCells new) }
{
    let mut new = copy_values(alloc, values)?.into_vec();
    set_values(alloc, &mut new, sets)?;
    Ok(List::from_vec(new))
}

fn set_values(alloc: Global, values: &mut Vec<Value>, sets: &[SetCell]) -> Result<(), AllocError>
    requires cells { FitsCells values.old.items }
    requires sets { FitsSets sets.now }
    ensures value { OnOk result (values.new.items
        ≡ changed_cells (map change_of sets.now) values.old.items) }
    ensures fits { OnOk result (FitsCells values.new.items) }
{
    for set in sets {
        set_value(alloc, values, set)?;
    }
    Ok(())
}

/// A column beyond the row's end sets nothing.
fn set_value(alloc: Global, values: &mut Vec<Value>, set: &SetCell) -> Result<(), AllocError>
    ensures { OnOk result (values.new.items
        ≡ slice_set values.old.items set.now.column set.now.value) }
{
    let column = usize::from(set.column);
    if column < values.len() {
        values[column] = set.value.copy(alloc)?;
    }
    Ok(())
}
