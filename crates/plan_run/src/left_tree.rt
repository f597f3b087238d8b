//! What a plan needs of its left tree.
ghost use Rattle.std.specs.Prelude.{◌≡◌, IfOk};
ghost use Rattle.query_plan.specs.Plans.{plan_need};
ghost use Rattle.query_plan.specs.PlanViews.{plan_seen};

use crate::left_test::LeftTest;
use mb_tree::RowNode;
use query_plan::{Plan, copy_need};
use range_proof::cut_need;
use std::alloc::{AllocError, Global};
use vo_spec::Need;

/// What the plan needs of this left tree, whole or in part: all that it asks for, or that up to the
/// last row that it wants.
pub fn left_need<N: RowNode>(
    alloc: Global,
    plan: &Plan<'_, '_>,
    left: &N,
) -> Result<Need, AllocError>
    ensures { IfOk result (λ need. need ≡ plan_need (plan_seen plan.now) (N.tree left.now)) }
{
    let uncut = copy_need(alloc, &plan.uncut_need)?;
    match (plan.query.join, plan.query.limit) {
        (None, Some(wanted)) => cut_need(alloc, left, uncut, &LeftTest { plan }, wanted),
        (Some(_), _) | (None, None) => Ok(uncut),
    }
}
