//! What is found of the trees of a reply that is held whole.
ghost use Rattle.std.specs.Prelude.{◌≡◌, length};
ghost use Rattle.vo_spec.specs.Needs.{tables_used};
ghost use Rattle.query_binding.specs.HeldSources.{bound_sources_seen};
ghost use Rattle.query_plan.specs.PlanViews.{plan_seen};
ghost use Rattle.vo_format.specs.View.{reply_of};
ghost use Rattle.held_replies.specs.Ordering.{ShowsRows};
ghost use Rattle.held_replies.specs.Judging.{findings_for, ShowsRun};

use crate::found_trees::{FoundTrees, ShownRows};
use crate::need_faults::are_bare;
use crate::tree_faults::{have_table_shapes, test_roots};
use plan_run::run_plan;
use query_plan::Plan;
use std::alloc::Global;
use vo_format::Reply;
use vo_spec::{CheckFault, Name, ScanFault};

/// The trees of a reply, with the plan of the query and the names of the tables that it reads.
#[derive(Drop)]
pub(crate) struct HeldTrees<'l, 'p, 'q, 'n, 'm, 'r, 'b> {
    pub plan: &'l Plan<'p, 'q>,
    pub names: &'n [&'m Name],
    pub reply: &'r Reply<'b>,
}

impl FoundTrees for HeldTrees<'_, '_, '_, '_, '_, '_, '_> {
    ghost use Rattle.std.specs.Prelude.{◌≡◌, map};
    ghost use Rattle.vo_spec.specs.Needs.{tables_used};
    ghost use Rattle.vo_spec.specs.Replies.{FitsReply};
    ghost use Rattle.query_plan.specs.PlanViews.{plan_seen};
    ghost use Rattle.query_plan.specs.UsedTables.{lent_name};
    ghost use Rattle.vo_format.specs.View.{reply_of};
    ghost use Rattle.held_replies.specs.Judging.{findings_by, ShowsRun};

    ghost findings = { λ held. findings_by (map lent_name held.names.now)
        (plan_seen held.plan.now) (reply_of held.reply.now) };

    ghost Fits = { λ held. FitsReply (reply_of held.reply.now)
        × (map lent_name held.names.now
        ≡ tables_used (plan_seen held.plan.now).query.bound_sources) };

    ghost Shows = { λ held. ShowsRun (plan_seen held.plan.now) (reply_of held.reply.now) };

    fn wanted(&self) -> usize {
        self.names.len()
    }

    fn count(&self) -> usize {
        self.reply.trees.len()
    }

    fn have_shapes(&self) -> bool {
        have_table_shapes(
            self.names,
            self.reply.catalog.tables.as_slice(),
            &self.reply.trees,
        )
    }

    fn test_roots(&self, alloc: Global) -> Result<(), CheckFault> {
        test_roots(
            alloc,
            self.names,
            self.reply.catalog.tables.as_slice(),
            &self.reply.trees,
        )
    }

    fn show(&self, alloc: Global) -> Result<ShownRows, CheckFault> {
        run_trees(alloc, self.plan, self.reply)
    }
}

/// The rows that the trees show for the plan, and whether they have more than it needs.
fn run_trees(alloc: Global, plan: &Plan<'_, '_>, reply: &Reply<'_>) -> Result<ShownRows, CheckFault>
    requires { length reply.now.trees.items
        ≡ length (tables_used (bound_sources_seen plan.now.query.now.bound_sources)) }
    ensures { let p = plan_seen plan.now in let r = reply_of reply.now in
        ShowsRows result (findings_for p r) (ShowsRun p r) }
{
    let ran = match run_plan(alloc, plan, &reply.trees) {
        Ok(ran) => ran,
        Err(ScanFault::Missing) => return Err(CheckFault::Missing),
        Err(ScanFault::Memory) => return Err(CheckFault::Memory),
    };
    match are_bare(alloc, &reply.trees, ran.needs.as_slice()) {
        Ok(are_bare) => Ok(ShownRows {
            rows: ran.rows,
            has_surplus: !are_bare,
        }),
        Err(fault) => Err(fault),
    }
}
