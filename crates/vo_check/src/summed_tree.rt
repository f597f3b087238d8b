//! What is found of a tree that was summed up as it came.
use held_replies::{FoundTrees, ShownRows, test_digest};
use plan_run::rows_of_seen;
use query_plan::Plan;
use reply_stream::Summary;
use std::alloc::Global;
use vo_spec::{CatalogTable, CheckFault};

/// The first of so many trees by its summary, with the table of the query, if there is one, and the
/// query's plan. A query without a join and without a limit reads no other tree.
#[derive(Drop)]
pub(crate) struct SummedTree<'l, 'p, 'q, 't, 's> {
    pub plan: &'l Plan<'p, 'q>,
    pub table: Option<&'t CatalogTable>,
    pub count: usize,
    pub summary: &'s Summary,
}

impl FoundTrees for SummedTree<'_, '_, '_, '_, '_> {
    ghost use Rattle.std.specs.Prelude.{◌≡◌, None, option_map};
    ghost use Rattle.query_plan.specs.PlanViews.{plan_seen};
    ghost use Rattle.vo_check.specs.Streamed.{ShowsSeen, findings_of};

    ghost findings = { λ summed. findings_of (option_map (λ t. t.now) summed.table)
        summed.count summed.summary.now };

    ghost Fits = { λ summed. (summed.plan.now.query.now.join ≡ None)
        × (summed.plan.now.query.now.limit ≡ None) };

    ghost Shows = { λ summed. ShowsSeen (plan_seen summed.plan.now)
        summed.summary.now.findings.rows };

    fn wanted(&self) -> usize {
        1
    }

    fn count(&self) -> usize {
        self.count
    }

    fn have_shapes(&self) -> bool {
        match self.table {
            Some(_) => self.summary.findings.has_shape,
            None => true,
        }
    }

    fn test_roots(&self, alloc: Global) -> Result<(), CheckFault> {
        match self.table {
            Some(table) => test_digest(alloc, table, self.summary.digest),
            None => Ok(()),
        }
    }

    fn show(&self, alloc: Global) -> Result<ShownRows, CheckFault> {
        let findings = &self.summary.findings;
        if findings.is_missing {
            return Err(CheckFault::Missing);
        }
        match rows_of_seen(alloc, self.plan, findings.rows.as_slice()) {
            Ok(rows) => Ok(ShownRows {
                rows,
                has_surplus: findings.has_surplus,
            }),
            Err(_) => Err(CheckFault::Memory),
        }
    }
}
