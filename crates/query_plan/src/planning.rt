//! The plan of a query, worked out before any row is seen.
ghost use Rattle.std.specs.Prelude.{◌≡◌, ◌≤◌, length, option_map, IfOk};
ghost use Rattle.std.specs.Option.{option_map_or};
ghost use Rattle.vo_spec.specs.Batches.{max_columns};
ghost use Rattle.vo_spec.specs.Results.{schema_at};
ghost use Rattle.vo_spec.specs.Needs.{all_keys};
ghost use Rattle.query_binding.specs.HeldSources.{bound_sources_seen};
ghost use Rattle.query_plan.specs.BoundConditions.{bound_interval};
ghost use Rattle.query_plan.specs.BoundViews.{condition_seen, query_seen};
ghost use Rattle.query_plan.specs.Plans.{bound_uncut_need, plan_of};
ghost use Rattle.query_plan.specs.PlanViews.{plan_seen};

use crate::bound_cond::BoundCond;
use crate::bound_query::Query;
use crate::conjuncts::conjuncts_of;
use crate::intervals::all_keys;
use crate::left_interval::interval_of;
use crate::named_cells::named_cells;
use crate::plans::Plan;
use std::alloc::{AllocError, Global};
use vo_spec::{Interval, Need, SharedList};

fn left_interval(
    alloc: Global,
    key: usize,
    cond: &Option<BoundCond<'_>>,
) -> Result<Interval, AllocError>
    ensures { IfOk result (λ interval. interval
        ≡ option_map_or (bound_interval key) (option_map condition_seen cond.now) all_keys) }
{
    match cond {
        Some(cond) => interval_of(alloc, key, cond),
        None => Ok(all_keys()),
    }
}

/// What the query asks of the left tree, whatever rows that has.
fn uncut_need(alloc: Global, query: &Query<'_>) -> Result<Need, AllocError>
    requires { length (schema_at (bound_sources_seen query.now.bound_sources) 0).columns ≤
        max_columns }
    ensures { IfOk result (λ need. need ≡ bound_uncut_need (query_seen query.now)) }
{
    let key = query.bound_sources.left.schema.key as usize;
    let interval = left_interval(alloc, key, &query.condition)?;
    let columns = SharedList::new(alloc, named_cells(alloc, query, 0)?)?;
    Ok(Need { interval, columns })
}

/// The plan of a query over tables that have no more columns than a table may have.
pub fn plan<'p, 'q>(alloc: Global, query: &'p Query<'q>) -> Result<Plan<'p, 'q>, AllocError>
    requires few_left { length (schema_at (bound_sources_seen query.now.bound_sources) 0).columns ≤
        max_columns }
    requires few_right { length (schema_at (bound_sources_seen query.now.bound_sources) 1).columns ≤
        max_columns }
    ensures { IfOk result (λ plan. plan_seen plan ≡ plan_of (query_seen query.now)) }
{
    let uncut_need = uncut_need(alloc, query)?;
    let right_cells = SharedList::new(alloc, named_cells(alloc, query, 1)?)?;
    let left = conjuncts_of(alloc, &query.condition, true)?;
    let late = conjuncts_of(alloc, &query.condition, false)?;
    Ok(Plan {
        query,
        uncut_need,
        right_cells,
        left,
        late,
    })
}
