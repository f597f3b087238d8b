//! What a reply to a query without a join or a limit answers, by its head and by what was found in
//! its trees.
ghost use Rattle.std.specs.Prelude.{◌≡◌, ◌≤◌, ◌⊎◌, None, Err, option_map, length};
ghost use Rattle.vo_spec.specs.Batches.{max_columns};
ghost use Rattle.vo_spec.specs.Checks.{answer_to, check_fault, seen_outcome};
ghost use Rattle.vo_spec.specs.Conditions.{query_of};
ghost use Rattle.vo_spec.specs.Records.{FitsCatalog};
ghost use Rattle.vo_spec.specs.Replies.{FitsReply, Reply};
ghost use Rattle.vo_spec.specs.Results.{header as header_of, schema_at};
ghost use Rattle.query_binding.specs.HeldSources.{bound_sources_seen};
ghost use Rattle.query_plan.specs.BoundViews.{query_seen};
ghost use Rattle.query_plan.specs.Plans.{plan_of};
ghost use Rattle.query_plan.specs.PlanViews.{plan_seen};
ghost use Rattle.reply_stream.specs.ReplyParts.{parts_of};
ghost use Rattle.held_replies.specs.Judging.{bound_fault, proof_fault, shown_for};
ghost use Rattle.held_replies.specs.Ordering.{JudgesFound, found_fault};
ghost use Rattle.held_replies.specs.Testing.{GivesIfPassed};
ghost use Rattle.vo_check.specs.Streaming.{IsStreamed};
ghost use Rattle.vo_check.specs.Streamed.{HasFound, HasSchema, ShowsSeen, bound_target, findings_of, plan_for, target_for};

use crate::summed_tree::SummedTree;
use held_replies::{head_fault, judge_found, judge_wrong, table_named};
use lms_sign::PublicKey;
use query_plan::{BindFault, Plan, Query, bind, plan};
use reply_stream::{Head, Summary, TreesSummary};
use std::alloc::Global;
use vo_spec::{Answer, Catalog, CatalogTable, CheckFault, Outcome, QueryText};

/// The outcome of a plan's query by the summary of the first of so many trees.
fn judge_summary(
    alloc: Global,
    plan: &Plan<'_, '_>,
    table: Option<&CatalogTable>,
    count: usize,
    summary: &Summary,
) -> Result<Outcome, CheckFault>
    requires alone { plan.now.query.now.join ≡ None }
    requires unlimited { plan.now.query.now.limit ≡ None }
    ensures { let p = plan_seen plan.now in JudgesFound result
        (found_fault (findings_of (option_map (λ t. t.now) table.entry) count summary.now))
        (header_of p.query.bound_sources p.query.items)
        (ShowsSeen p summary.now.findings.rows) }
{
    let summed = SummedTree {
        plan,
        table,
        count,
        summary,
    };
    judge_found(alloc, plan, &summed)
}

/// The outcome of a bound query, which wants one tree.
fn judge_bound(
    alloc: Global,
    query: &Query<'_>,
    catalog: &Catalog,
    trees: &TreesSummary,
) -> Result<Outcome, CheckFault>
    requires alone { query.now.join ≡ None }
    requires unlimited { query.now.limit ≡ None }
    requires schema { HasSchema (query_seen query.now) catalog.now }
    requires left { length (schema_at (bound_sources_seen query.now.bound_sources) 0).columns ≤
        max_columns }
    requires right { length (schema_at (bound_sources_seen query.now.bound_sources) 1).columns ≤
        max_columns }
    ensures { (r : Reply) → let b = query_seen query.now in
        HasFound (bound_target b) catalog.now trees.now r
        → GivesIfPassed result (bound_fault b r) (shown_for (plan_of b) r) }
{
    let Ok(plan) = plan(alloc, query) else {
        return Err(CheckFault::Memory);
    };
    let table = table_named(catalog.tables.as_slice(), query.bound_sources.left.table);
    match &trees.first {
        Some(summary) => judge_summary(alloc, &plan, table, trees.count as usize, summary),
        None => Err(CheckFault::WrongTrees { want: 1, got: 0 }),
    }
}

/// The outcome by what was found in the trees.
fn judge_trees(
    alloc: Global,
    query: &QueryText,
    catalog: &Catalog,
    trees: &TreesSummary,
) -> Result<Outcome, CheckFault>
    requires streamed { IsStreamed (query_of query.now) }
    requires fits { FitsCatalog catalog.now }
    ensures { (r : Reply) → let q = query_of query.now in
        HasFound (target_for q catalog.now) catalog.now trees.now r
        → GivesIfPassed result (proof_fault q r) (seen_outcome q r.catalog r.trees) }
{
    match bind(alloc, catalog, query) {
        Ok(query) => judge_bound(alloc, &query, catalog, trees),
        Err(BindFault::Wrong(fault)) => judge_wrong(fault, trees.count as usize),
        Err(BindFault::Memory) => Err(CheckFault::Memory),
    }
}

fn answer_of(
    alloc: Global,
    key: &PublicKey,
    least: u64,
    query: &QueryText,
    head: &Head,
    trees: &TreesSummary,
) -> Result<Answer, CheckFault>
    requires { IsStreamed (query_of query.now) }
    ensures { (r : Reply) → let q = query_of query.now in
        FitsReply r → parts_of (plan_for q) r ≡ (head.now, trees.now)
        → GivesIfPassed result (check_fault key.now least q r)
        (record { version = r.rec.version; outcome = seen_outcome q r.catalog r.trees }) }
{
    let rec = head.rec();
    match head_fault(key, least, rec, head.signature(), head.catalog()) {
        Some(fault) => return Err(fault),
        None => {},
    }
    match judge_trees(alloc, query, head.catalog(), trees) {
        Ok(outcome) => Ok(Answer {
            version: rec.version,
            outcome,
        }),
        Err(fault) => Err(fault),
    }
}

/// What a client of this key, who takes no version below `least`, says of a reply to the query with
/// this head and these trees: its answer, or the first test that refuses it.
#[tactic(auto, unfolding(vo_spec::specs::Checks::answer_to))]
pub(crate) fn judge_streamed(
    alloc: Global,
    key: &PublicKey,
    least: u64,
    query: &QueryText,
    head: &Head,
    trees: &TreesSummary,
) -> Result<Answer, CheckFault>
    requires { IsStreamed (query_of query.now) }
    ensures { (r : Reply) → let q = query_of query.now in
        FitsReply r → parts_of (plan_for q) r ≡ (head.now, trees.now)
        → (result ≡ Err CheckFault.Memory) ⊎ (result ≡ answer_to key.now least q r) }
{
    answer_of(alloc, key, least, query, head, trees)
}
