//! Whether an open leaf shows what the needs name of its rows, and nothing beyond that.
ghost use Rattle.std.specs.List.{list_any};
ghost use Rattle.vo_spec.specs.Pruning.{
  walk_for,
  hides_any as does_hide,
  row_has_surplus as does_exceed,
};
ghost use Rattle.range_proof.specs.Judging.{JudgesOrMissing};

use crate::active_needs::ActiveNeeds;
use crate::naming::{columns_at, hides_any, named_columns, row_has_surplus};
use std::alloc::Global;
use vo_spec::{PartEntry, ScanFault};

pub fn judge_entries(
    alloc: Global,
    entries: &[PartEntry<'_>],
    needs: &ActiveNeeds<'_, '_>,
) -> Result<bool, ScanFault>
    ensures { let walk = walk_for needs.now.all in JudgesOrMissing result
        (list_any walk.lacks entries.now) (list_any walk.exceeds entries.now) }
{
    let mut surplus = false;
    for entry in entries {
        match judge_entry(alloc, entry, needs) {
            Ok(more) => surplus = surplus || more,
            Err(fault) => return Err(fault),
        }
    }
    Ok(surplus)
}

/// An entry of a leaf. Where one need alone is asked of its key, its columns are lent and no list
/// is made.
fn judge_entry(
    alloc: Global,
    entry: &PartEntry<'_>,
    needs: &ActiveNeeds<'_, '_>,
) -> Result<bool, ScanFault>
    ensures { let walk = walk_for needs.now.all in
        JudgesOrMissing result (walk.lacks entry.now) (walk.exceeds entry.now) }
{
    let key = entry.key.as_bytes();
    match needs.asked_of(key) {
        [need] => judge_row(columns_at(need, key), entry),
        asked => judge_row(&named_columns(alloc, asked, key)?, entry),
    }
}

fn judge_row(columns: &[u8], entry: &PartEntry<'_>) -> Result<bool, ScanFault>
    ensures { JudgesOrMissing result (does_hide columns.now entry.now.row)
        (does_exceed columns.now entry.now.row) }
{
    if hides_any(columns, entry) {
        return Err(ScanFault::Missing);
    }
    Ok(row_has_surplus(columns, &entry.row))
}
