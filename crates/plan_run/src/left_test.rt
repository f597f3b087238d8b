//! The left condition of a plan, asked of rows as they stand in a tree.
ghost use Rattle.query_plan.specs.Plans.{plan_meets};
ghost use Rattle.query_plan.specs.PlanViews.{plan_seen};

use crate::entry_views::EntryView;
use mb_tree::RowEntry;
use query_plan::{Plan, meets_left};
use range_proof::RowTest;

/// Whether a row is among those that the plan's limit counts.
#[derive(Clone, Copy)]
pub(crate) struct LeftTest<'r, 'p, 'q> {
    pub plan: &'r Plan<'p, 'q>,
}

impl RowTest for LeftTest<'_, '_, '_> {
    ghost columns = { λ test. test.plan.now.uncut_need.columns };

    ghost meets = { λ test. plan_meets (plan_seen test.plan.now) };

    fn meets<'r, E: RowEntry>(&'r self, entry: &'r E) -> bool {
        let plan = self.plan;
        let query = plan.query;
        let schema = query.bound_sources.left.schema;
        let cells = plan.uncut_need.columns.as_slice();
        let left = EntryView {
            schema,
            cells,
            entry,
        };
        meets_left(plan, &left)
    }
}
