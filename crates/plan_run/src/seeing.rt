//! The left rows that meet the left condition.
ghost use Rattle.std.specs.Prelude.{◌≡◌, filter, map, IfOk};
ghost use Rattle.vo_spec.specs.Needs.{seen_row_view};
ghost use Rattle.query_plan.specs.Plans.{meets_left};
ghost use Rattle.query_plan.specs.PlanViews.{plan_seen};
ghost use Rattle.plan_run.specs.RowViews.{row_view_seen};

use crate::row_views::SeenRowView;
use query_plan::{Plan, meets_left};
use std::alloc::{AllocError, Global};
use vo_spec::SeenRow;

/// Of the rows that were seen for the left need, as lines, those that meet the left condition.
pub fn lefts_of<'r>(
    alloc: Global,
    plan: &'r Plan<'_, '_>,
    seen: &'r [SeenRow],
) -> Result<Vec<SeenRowView<'r>>, AllocError>
    ensures { IfOk result (λ lefts. map row_view_seen lefts.items
        ≡ filter (meets_left (plan_seen plan.now))
        (map (seen_row_view plan.now.query.now.bound_sources.left.schema.now
        plan.now.uncut_need.columns)
        seen.now)) }
{
    let query = plan.query;
    let schema = query.bound_sources.left.schema;
    let cells = plan.uncut_need.columns.as_slice();
    let mut lefts = Vec::new(alloc);
    for row in seen {
        let left = SeenRowView { schema, cells, row };
        if meets_left(plan, &left) {
            lefts.push(left)?;
        }
    }
    Ok(lefts)
}
