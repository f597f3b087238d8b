//! What a query needs of the trees of two replies, which is the same of both where the left trees
//! give one walk for the uncut need.
ghost use Rattle.std.specs.Prelude.{◌≡◌, ◌≤◌, length, map, IfOk};
ghost use Rattle.vo_spec.specs.Batches.{max_columns};
ghost use Rattle.vo_spec.specs.Results.{schema_at};
ghost use Rattle.mb_tree.specs.View.{part_of};
ghost use Rattle.query_binding.specs.HeldSources.{bound_sources_seen};
ghost use Rattle.query_plan.specs.BoundViews.{query_seen};
ghost use Rattle.query_plan.specs.Plans.{plan_of};
ghost use Rattle.query_plan.specs.PlanViews.{plan_seen};
ghost use Rattle.plan_run.specs.Running.{run_needs};
ghost use Rattle.tree_collide.specs.Agreements.{HoldsOrCollides};
ghost use Rattle.tree_collide.specs.Preimages.{AreOfTrees};
ghost use Rattle.reply_meeting.specs.Comparing.{AreComparable};

use crate::trees::compare_proofs;
use mb_tree::PartTree;
use plan_run::run_plan;
use query_plan::{Plan, Query, plan};
use std::alloc::{AllocError, Global};
use tree_collide::{Twins, agree_walk};
use vo_spec::{Collision, ScanFault};

/// None where the trees are the same, else two byte strings of one digest. First come the walks of
/// the left trees, by which all trees have the same needs: a limit cuts one walk at one row, and
/// only behind that row may a walk stop.
pub(crate) fn compare_needed(
    alloc: Global,
    query: &Query<'_>,
    first: &[PartTree<'_>],
    second: &[PartTree<'_>],
) -> Result<Option<Collision>, AllocError>
    requires few_left { length (schema_at (bound_sources_seen query.now.bound_sources) 0).columns ≤
        max_columns }
    requires few_right { length (schema_at (bound_sources_seen query.now.bound_sources) 1).columns ≤
        max_columns }
    requires comparable { AreComparable (plan_of (query_seen query.now))
        (map part_of first.now) (map part_of second.now) }
    ensures { IfOk result (λ found.
        HoldsOrCollides found (map part_of first.now ≡ map part_of second.now)
        (AreOfTrees (map part_of first.now) (map part_of second.now))) }
{
    let plan = plan(alloc, query)?;
    match agree_walk(alloc, &first[0], &second[0], &plan.uncut_need)? {
        Twins::Same => compare_planned(alloc, &plan, first, second),
        Twins::Collides(found) => Ok(Some(found)),
    }
}

/// The same of trees of which the plan needs the same.
fn compare_planned(
    alloc: Global,
    plan: &Plan<'_, '_>,
    first: &[PartTree<'_>],
    second: &[PartTree<'_>],
) -> Result<Option<Collision>, AllocError>
    requires comparable { AreComparable (plan_seen plan.now)
        (map part_of first.now) (map part_of second.now) }
    requires same { run_needs (plan_seen plan.now) (map part_of first.now)
        ≡ run_needs (plan_seen plan.now) (map part_of second.now) }
    ensures { IfOk result (λ found.
        HoldsOrCollides found (map part_of first.now ≡ map part_of second.now)
        (AreOfTrees (map part_of first.now) (map part_of second.now))) }
{
    match run_plan(alloc, plan, first) {
        Ok(ran) => compare_proofs(alloc, ran.needs.as_slice(), first, second),
        Err(ScanFault::Missing) => unreachable!(),
        Err(ScanFault::Memory) => Err(AllocError),
    }
}
