//! Left rows with the right rows that a tree shows for them.
ghost use Rattle.std.specs.Prelude.{◌≡◌, ◌++◌, [], ◌∷◌, map, OnOk};
ghost use Rattle.vo_spec.specs.Results.{schema_at};
ghost use Rattle.vo_spec.specs.Needs.{seen_row_view};
ghost use Rattle.mb_tree.specs.View.{part_of};
ghost use Rattle.query_binding.specs.HeldSources.{bound_sources_seen};
ghost use Rattle.query_plan.specs.BoundViews.{join_seen};
ghost use Rattle.query_plan.specs.Answers.{pair_answers};
ghost use Rattle.query_plan.specs.PlanViews.{plan_seen};
ghost use Rattle.plan_run.specs.RowViews.{row_view_seen};
ghost use Rattle.plan_run.specs.Running.{ShowsPairs, AddsPairs};

use crate::left_views::RowsAndNeeds;
use crate::row_views::SeenRowView;
use mb_tree::PartTree;
use query_plan::{BoundJoin, Plan, has_join_value, push_pair, right_need};
use range_proof::scan;
use std::alloc::{AllocError, Global};
use vo_spec::{List, Need, ScanFault, Schema, SeenRow, Value};

fn push_need(needs: &mut Vec<Need>, need: Need) -> Result<(), AllocError>
    ensures { OnOk result (needs.new.items ≡ needs.old.items ++ need ∷ []) }
{
    needs.push(need)?;
    Ok(())
}

/// Puts what the query shows of the left row beside each row that was seen for it at the end of the
/// answer.
fn push_rights<'r>(
    alloc: Global,
    plan: &'r Plan<'_, '_>,
    schema: &'r Schema,
    left: &SeenRowView<'_>,
    seen: &'r [SeenRow],
    rows: &mut Vec<List<Value>>,
) -> Result<(), AllocError>
    ensures { OnOk result (rows.new.items ≡ rows.old.items
        ++ pair_answers (plan_seen plan.now).query (plan_seen plan.now).late
        (map (seen_row_view schema.now plan.now.right_cells) seen.now) (row_view_seen left.now)) }
{
    let cells = plan.right_cells.as_slice();
    for row in seen {
        let right = SeenRowView { schema, cells, row };
        push_pair(alloc, plan.query, &plan.late, &*left, &right, rows)?;
    }
    Ok(())
}

/// Puts what the tree shows for the left row at the end, and what the row needs: nothing of a row
/// that has no value for ON.
fn push_left(
    alloc: Global,
    plan: &Plan<'_, '_>,
    join: BoundJoin,
    schema: &Schema,
    tree: &PartTree<'_>,
    left: &SeenRowView<'_>,
    shown: &mut RowsAndNeeds,
) -> Result<(), ScanFault>
    requires { schema.now ≡ schema_at (bound_sources_seen plan.now.query.now.bound_sources) 1 }
    ensures { AddsPairs result shown.old shown.new (plan_seen plan.now) (join_seen join)
        (row_view_seen left.now) (part_of tree.now) }
{
    if !has_join_value(join, left) {
        return Ok(());
    }
    let need = right_need(alloc, plan, join, left)?;
    let seen = scan(alloc, tree, &need)?;
    push_rights(alloc, plan, schema, left, seen.as_slice(), &mut shown.rows)?;
    push_need(&mut shown.needs, need)?;
    Ok(())
}

/// What the tree shows for these left rows, and what they need of it.
pub(crate) fn show_pairs(
    alloc: Global,
    plan: &Plan<'_, '_>,
    join: BoundJoin,
    schema: &Schema,
    tree: &PartTree<'_>,
    lefts: &[SeenRowView<'_>],
) -> Result<RowsAndNeeds, ScanFault>
    requires { schema.now ≡ schema_at (bound_sources_seen plan.now.query.now.bound_sources) 1 }
    ensures { ShowsPairs result (plan_seen plan.now) (join_seen join) (map row_view_seen lefts.now)
        (part_of tree.now) }
{
    let mut shown = RowsAndNeeds {
        rows: Vec::new(alloc),
        needs: Vec::new(alloc),
    };
    for left in lefts {
        match push_left(alloc, plan, join, schema, tree, left, &mut shown) {
            Ok(()) => {},
            Err(fault) => return Err(fault),
        }
    }
    Ok(shown)
}
