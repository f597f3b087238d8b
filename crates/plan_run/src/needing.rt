//! What a query needs of the right tree, by the left one alone.
ghost use Rattle.std.specs.Prelude.{◌≡◌, map, filter, flat_map, IfOk};
ghost use Rattle.vo_spec.specs.Needs.{seen_row_view};
ghost use Rattle.query_plan.specs.BoundViews.{join_seen};
ghost use Rattle.query_plan.specs.Plans.{meets_left};
ghost use Rattle.query_plan.specs.PlanViews.{plan_seen};
ghost use Rattle.plan_run.specs.RowViews.{row_view_seen};
ghost use Rattle.plan_run.specs.Running.{FindsNeeds, needs_by};

use crate::left_tree::left_need;
use crate::row_views::SeenRowView;
use crate::seeing::lefts_of;
use mb_tree::RowNode;
use query_plan::{BoundJoin, Plan, has_join_value, right_need};
use range_proof::scan;
use std::alloc::{AllocError, Global};
use vo_spec::{Need, ScanFault, SeenRow};

/// What each of these left rows needs.
fn needs_of_lefts(
    alloc: Global,
    plan: &Plan<'_, '_>,
    join: BoundJoin,
    lefts: &[SeenRowView<'_>],
) -> Result<Vec<Need>, AllocError>
    ensures { IfOk result (λ needs. needs.items
        ≡ flat_map (needs_by (plan_seen plan.now) (join_seen join))
        (map row_view_seen lefts.now)) }
{
    let mut needs = Vec::with_capacity(alloc, lefts.len())?;
    for left in lefts {
        if has_join_value(join, left) {
            needs.push(right_need(alloc, plan, join, left)?)?;
        }
    }
    Ok(needs)
}

/// What those of the rows need that meet the left condition.
fn needs_of_seen(
    alloc: Global,
    plan: &Plan<'_, '_>,
    join: BoundJoin,
    seen: &[SeenRow],
) -> Result<Vec<Need>, AllocError>
    ensures { IfOk result (λ needs. needs.items
        ≡ flat_map (needs_by (plan_seen plan.now) (join_seen join))
        (filter (meets_left (plan_seen plan.now))
        (map (seen_row_view plan.now.query.now.bound_sources.left.schema.now
        plan.now.uncut_need.columns)
        seen.now))) }
{
    let lefts = lefts_of(alloc, plan, seen)?;
    needs_of_lefts(alloc, plan, join, &lefts)
}

/// What the query needs of the right tree by the left rows that the left tree, whole or in part,
/// shows for its need.
pub fn right_needs<N: RowNode>(
    alloc: Global,
    plan: &Plan<'_, '_>,
    left: &N,
) -> Result<Vec<Need>, ScanFault>
    ensures { FindsNeeds result (plan_seen plan.now) (N.tree left.now) }
{
    let Some(join) = plan.query.join else {
        return Ok(Vec::new(alloc));
    };
    let need = left_need(alloc, plan, left)?;
    let seen = scan(alloc, left, &need)?;
    Ok(needs_of_seen(alloc, plan, join, seen.as_slice())?)
}
