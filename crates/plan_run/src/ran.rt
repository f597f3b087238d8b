//! What a run gives: the answer's rows, and the needs of each tree.
ghost use Rattle.std.specs.Prelude.{◌≡◌, IfOk};
ghost use Rattle.query_binding.specs.HeldSources.{bound_sources_seen};
ghost use Rattle.query_plan.specs.PlanViews.{plan_seen};
ghost use Rattle.plan_run.specs.Running.{RanOf, group_needs};

use crate::left_views::RowsAndNeeds;
use query_plan::{BoundSources, Plan, has_one_tree, keep_first_rows};
use std::alloc::{AllocError, Global};
use vo_spec::{List, Need, ScanFault, Value};

/// What the trees show for a query.
#[derive(Debug, Drop)]
pub struct Ran {
    /// The rows of the answer.
    pub rows: List<List<Value>>,
    /// The needs of each tree, in the order of the trees.
    pub needs: List<List<Need>>,
}

/// The needs of each tree: of a table joined with itself, both in one.
fn group_needs(
    alloc: Global,
    bound_sources: &BoundSources<'_>,
    left: Need,
    mut rights: Vec<Need>,
) -> Result<List<List<Need>>, AllocError>
    ensures { IfOk result (λ needs. needs
        ≡ group_needs (bound_sources_seen bound_sources.now) left rights.items) }
{
    let mut groups = Vec::new(alloc);
    let mut first = Vec::new(alloc);
    first.push(left)?;
    if has_one_tree(bound_sources) {
        first.append(&mut rights)?;
        groups.push(List::from_vec(first))?;
    } else {
        groups.push(List::from_vec(first))?;
        groups.push(List::from_vec(rights))?;
    }
    Ok(List::from_vec(groups))
}

/// The first rows of what was shown, with the needs of each tree, of which this is the left one's
/// own.
pub(crate) fn ran_of(
    alloc: Global,
    plan: &Plan<'_, '_>,
    left: Need,
    shown: RowsAndNeeds,
) -> Result<Ran, ScanFault>
    ensures { RanOf result (plan_seen plan.now) left shown }
{
    let RowsAndNeeds { mut rows, needs } = shown;
    keep_first_rows(plan.query.limit, &mut rows);
    Ok(Ran {
        rows: List::from_vec(rows),
        needs: group_needs(alloc, &plan.query.bound_sources, left, needs)?,
    })
}
