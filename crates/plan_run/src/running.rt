//! A plan run over the trees of a reply.
ghost use Rattle.std.specs.Prelude.{◌≡◌, [], ◌∷◌, length, map, filter, Some, None, IfOk};
ghost use Rattle.vo_spec.specs.Trees.{RowTree};
ghost use Rattle.vo_spec.specs.Scans.{seen};
ghost use Rattle.vo_spec.specs.Needs.{tables_used, seen_row_view, right_tree};
ghost use Rattle.mb_tree.specs.View.{part_of};
ghost use Rattle.query_binding.specs.HeldSources.{bound_sources_seen};
ghost use Rattle.query_plan.specs.Plans.{meets_left};
ghost use Rattle.query_plan.specs.PlanViews.{plan_seen};
ghost use Rattle.plan_run.specs.Running.{Shows, Runs, run_rows};

use crate::left_tree::left_need;
use crate::left_views::RowsAndNeeds;
use crate::ran::{Ran, ran_of};
use crate::seeing::lefts_of;
use crate::showing::{rows_alone, show};
use mb_tree::PartTree;
use query_plan::Plan;
use range_proof::scan;
use std::alloc::{AllocError, Global};
use vo_spec::{List, ScanFault, SeenRow, Value};

/// What the trees show for the plan by the rows that the left one shows.
fn show_seen(
    alloc: Global,
    plan: &Plan<'_, '_>,
    trees: &[PartTree<'_>],
    seen: &[SeenRow],
) -> Result<RowsAndNeeds, ScanFault>
    requires { length trees.now ≡ length
        (tables_used (bound_sources_seen plan.now.query.now.bound_sources)) }
    ensures { Shows result (plan_seen plan.now)
        (filter (meets_left (plan_seen plan.now))
        (map (seen_row_view plan.now.query.now.bound_sources.left.schema.now
        plan.now.uncut_need.columns)
        seen.now))
        (right_tree (bound_sources_seen plan.now.query.now.bound_sources) (map part_of trees.now)) }
{
    let lefts = lefts_of(alloc, plan, seen)?;
    show(alloc, plan, trees, &lefts)
}

/// The rows that the trees show for the plan, and what it needs of each tree. Trees are those of
/// the tables that its query uses, the left one first.
pub fn run_plan(
    alloc: Global,
    plan: &Plan<'_, '_>,
    trees: &[PartTree<'_>],
) -> Result<Ran, ScanFault>
    requires { length trees.now ≡ length
        (tables_used (bound_sources_seen plan.now.query.now.bound_sources)) }
    ensures { Runs result (plan_seen plan.now) (map part_of trees.now) }
{
    let tree = &trees[0];
    let left = left_need(alloc, plan, tree)?;
    let seen = match scan(alloc, tree, &left) {
        Ok(seen) => seen,
        Err(fault) => return Err(fault),
    };
    match show_seen(alloc, plan, trees, seen.as_slice()) {
        Ok(shown) => ran_of(alloc, plan, left, shown),
        Err(fault) => Err(fault),
    }
}

/// The rows that a plan without a join and without a limit shows, by those that were seen for its
/// uncut need, whoever saw them.
pub fn rows_of_seen(
    alloc: Global,
    plan: &Plan<'_, '_>,
    rows: &[SeenRow],
) -> Result<List<List<Value>>, AllocError>
    requires alone { plan.now.query.now.join ≡ None }
    requires whole { plan.now.query.now.limit ≡ None }
    ensures { (tree : RowTree) → seen plan.now.uncut_need tree ≡ Some rows.now
        → IfOk result (λ shown. shown ≡ run_rows (plan_seen plan.now) (tree ∷ [])) }
{
    let lefts = lefts_of(alloc, plan, rows)?;
    Ok(List::from_vec(rows_alone(alloc, plan, &lefts)?))
}
