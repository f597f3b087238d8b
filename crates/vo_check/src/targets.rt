//! What the first tree of a reply is read for, by what comes before the trees.
ghost use Rattle.std.specs.Prelude.{◌≡◌, ◌≤◌, length, IfOk};
ghost use Rattle.vo_spec.specs.Batches.{max_columns};
ghost use Rattle.vo_spec.specs.Conditions.{query_of};
ghost use Rattle.vo_spec.specs.Records.{FitsCatalog};
ghost use Rattle.vo_spec.specs.Results.{schema_at};
ghost use Rattle.query_binding.specs.HeldSources.{bound_sources_seen};
ghost use Rattle.query_plan.specs.BoundViews.{query_seen};
ghost use Rattle.vo_check.specs.Streamed.{bound_target as target_of_bound, target_for};

use query_plan::{BindFault, Plan, Query, bind, plan};
use reply_stream::Target;
use std::alloc::{AllocError, Global};
use vo_spec::{Catalog, QueryText};

fn bound_target(alloc: Global, query: &Query<'_>) -> Result<Target, AllocError>
    requires left { length (schema_at (bound_sources_seen query.now.bound_sources) 0).columns ≤
        max_columns }
    requires right { length (schema_at (bound_sources_seen query.now.bound_sources) 1).columns ≤
        max_columns }
    ensures { IfOk result (λ target. target ≡ target_of_bound (query_seen query.now)) }
{
    let Plan { uncut_need, .. } = plan(alloc, query)?;
    Target::new(alloc, uncut_need, query.bound_sources.left.schema)
}

/// The rows that the query needs of its left table, or none where the catalog bears it out that the
/// query is wrong.
pub(crate) fn target_for(
    alloc: Global,
    query: &QueryText,
    catalog: &Catalog,
) -> Result<Target, AllocError>
    requires { FitsCatalog catalog.now }
    ensures { IfOk result (λ target. target ≡ target_for (query_of query.now) catalog.now) }
{
    match bind(alloc, catalog, query) {
        Ok(query) => bound_target(alloc, &query),
        Err(BindFault::Wrong(_)) => Ok(Target::of_no_rows(alloc)),
        Err(BindFault::Memory) => Err(AllocError),
    }
}
