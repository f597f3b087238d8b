//! What the left rows of a query show, with a join or without one.
ghost use Rattle.std.specs.Prelude.{◌≡◌, [], ◌∷◌, length, map, flat_map, is_some, None, IsTrue, IfOk};
ghost use Rattle.vo_spec.specs.Results.{place_value};
ghost use Rattle.vo_spec.specs.Trees.{RowTree};
ghost use Rattle.vo_spec.specs.Needs.{tables_used, right_tree};
ghost use Rattle.mb_tree.specs.View.{part_of};
ghost use Rattle.query_binding.specs.HeldSources.{bound_sources_seen};
ghost use Rattle.query_plan.specs.PlanViews.{plan_seen};
ghost use Rattle.plan_run.specs.RowViews.{row_view_seen};
ghost use Rattle.query_plan.specs.Answers.{answer_at};
ghost use Rattle.plan_run.specs.Running.{Shows};

use crate::left_views::RowsAndNeeds;
use crate::pairs::show_pairs;
use crate::row_views::SeenRowView;
use mb_tree::PartTree;
use query_plan::{BoundSources, Plan, push_alone, same_table};
use std::alloc::{AllocError, Global};
use vo_spec::{List, ScanFault, Value};

/// The answer's rows of left rows that have no right ones.
pub(crate) fn rows_alone(
    alloc: Global,
    plan: &Plan<'_, '_>,
    lefts: &[SeenRowView<'_>],
) -> Result<Vec<List<Value>>, AllocError>
    ensures { IfOk result (λ rows. rows.items
        ≡ flat_map (λ left. answer_at (plan_seen plan.now).query (plan_seen plan.now).late
        (place_value (left ∷ []))) (map row_view_seen lefts.now)) }
{
    let mut rows = Vec::new(alloc);
    for left in lefts {
        push_alone(alloc, plan.query, &plan.late, left, &mut rows)?;
    }
    Ok(rows)
}

fn show_alone(
    alloc: Global,
    plan: &Plan<'_, '_>,
    lefts: &[SeenRowView<'_>],
) -> Result<RowsAndNeeds, ScanFault>
    requires { plan.now.query.now.join ≡ None }
    ensures { (tree : RowTree) → Shows result (plan_seen plan.now)
        (map row_view_seen lefts.now) tree }
{
    Ok(RowsAndNeeds {
        rows: rows_alone(alloc, plan, lefts)?,
        needs: Vec::new(alloc),
    })
}

/// The tree of the right source.
fn right_tree<'t, 'b>(
    bound_sources: &BoundSources<'_>,
    trees: &'t [PartTree<'b>],
) -> &'t PartTree<'b>
    requires counted { length trees.now
        ≡ length (tables_used (bound_sources_seen bound_sources.now)) }
    requires joined { IsTrue (is_some bound_sources.now.right) }
    ensures { part_of result.now ≡ right_tree (bound_sources_seen bound_sources.now)
        (map part_of trees.now) }
{
    if same_table(bound_sources) {
        &trees[0]
    } else {
        &trees[1]
    }
}

/// What left rows show: alone, or in a join beside the rows that the right tree shows for them.
pub(crate) fn show(
    alloc: Global,
    plan: &Plan<'_, '_>,
    trees: &[PartTree<'_>],
    lefts: &[SeenRowView<'_>],
) -> Result<RowsAndNeeds, ScanFault>
    requires { length trees.now ≡ length
        (tables_used (bound_sources_seen plan.now.query.now.bound_sources)) }
    ensures { Shows result (plan_seen plan.now) (map row_view_seen lefts.now)
        (right_tree (bound_sources_seen plan.now.query.now.bound_sources) (map part_of trees.now)) }
{
    match (plan.query.join, plan.query.bound_sources.right) {
        (Some(join), Some(right)) => {
            let tree = right_tree(&plan.query.bound_sources, trees);
            show_pairs(alloc, plan, join, right.schema, tree, lefts)
        },
        (None, _) => show_alone(alloc, plan, lefts),
        (Some(_), None) => unreachable!(),
    }
}
