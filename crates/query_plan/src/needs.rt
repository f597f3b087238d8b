//! What a left row needs of the right tree, and whether it needs anything.
ghost use Rattle.std.specs.Prelude.{◌≡◌, ◌≤◌, ◌↔◌, [], ◌∷◌, length, IfOk, IsTrue};
ghost use Rattle.vo_spec.specs.Batches.{max_columns};
ghost use Rattle.vo_spec.specs.Results.{schema_at};
ghost use Rattle.query_binding.specs.HeldSources.{bound_sources_seen, place_seen};
ghost use Rattle.query_plan.specs.BoundConditions.{all_hold};
ghost use Rattle.query_plan.specs.BoundViews.{join_seen};
ghost use Rattle.query_plan.specs.Plans.{left_column, has_join_value, right_need_of, meets_left};
ghost use Rattle.query_plan.specs.PlanViews.{plan_seen};

use crate::bound_query::BoundJoin;
use crate::intervals::keys_that;
use crate::plans::Plan;
use crate::row_views::RowView;
use crate::rows::{LeftRow, PlaceValues};
use crate::truths::all_hold;
use query_binding::{BoundSources, ColumnPlace};
use std::alloc::{AllocError, Global};
use vo_spec::{Cmp, MAX_COLUMNS, Need};

/// Whether the source of this number has no more columns than a table may have.
pub fn is_narrow(bound_sources: &BoundSources<'_>, bound_source: usize) -> bool
    ensures { IsTrue result ↔ (length
        (schema_at (bound_sources_seen bound_sources.now) bound_source).columns
        ≤ max_columns) }
{
    match bound_sources.schema_at(bound_source) {
        Some(schema) => schema.columns.len() <= MAX_COLUMNS,
        None => true,
    }
}

/// Whether the left row meets the left condition. Other rows need no right row.
pub fn meets_left<L: RowView>(plan: &Plan<'_, '_>, left: &L) -> bool
    ensures { result ≡ meets_left (plan_seen plan.now) (L.row_view left.now) }
{
    all_hold(&plan.left, &LeftRow { left })
}

/// ON's column of the left source.
fn left_column(join: BoundJoin) -> ColumnPlace
    ensures { place_seen result ≡ left_column (join_seen join) }
{
    if join.first.bound_source == 1 {
        join.second
    } else {
        join.first
    }
}

/// Whether the left row has a value for ON. NULL is equal to no key, so a row that has it needs no
/// right row.
pub fn has_join_value<L: RowView>(join: BoundJoin, left: &L) -> bool
    ensures { result ≡ has_join_value (join_seen join) (L.row_view left.now) }
{
    let rows = LeftRow { left };
    !rows.value(left_column(join)).is_null()
}

/// What the query needs of the right tree for this left row: the row whose key is ON's value.
pub fn right_need<L: RowView>(
    alloc: Global,
    plan: &Plan<'_, '_>,
    join: BoundJoin,
    left: &L,
) -> Result<Need, AllocError>
    ensures { IfOk result (λ need. need
        ≡ right_need_of (plan_seen plan.now) (join_seen join) (L.row_view left.now)) }
{
    let rows = LeftRow { left };
    let interval = keys_that(alloc, Cmp::Eq, rows.value(left_column(join)))?;
    let columns = plan.right_cells.share()?;
    Ok(Need { interval, columns })
}
