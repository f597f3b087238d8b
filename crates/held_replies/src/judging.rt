//! What a reply, once read, answers a query.
ghost use Rattle.std.specs.Prelude.{◌≡◌, ◌≤◌, ◌⊎◌, length, map, IfOk};
ghost use Rattle.vo_spec.specs.Conditions.{query_of};
ghost use Rattle.vo_spec.specs.Replies.{FitsReply};
ghost use Rattle.vo_spec.specs.Results.{schema_at};
ghost use Rattle.vo_spec.specs.Needs.{tables_used};
ghost use Rattle.vo_spec.specs.Checks.{check_fault, seen_outcome, answer_to};
ghost use Rattle.vo_spec.specs.Batches.{max_columns};
ghost use Rattle.query_binding.specs.HeldSources.{bound_sources_seen};
ghost use Rattle.query_plan.specs.BoundViews.{query_seen};
ghost use Rattle.query_plan.specs.Plans.{plan_of};
ghost use Rattle.query_plan.specs.PlanViews.{plan_seen};
ghost use Rattle.query_plan.specs.UsedTables.{lent_name};
ghost use Rattle.vo_format.specs.View.{reply_of};
ghost use Rattle.held_replies.specs.Ordering.{found_fault};
ghost use Rattle.held_replies.specs.Testing.{GivesIfPassed};
ghost use Rattle.held_replies.specs.Judging.{FitsWhereBound, findings_for, shown_for, bound_fault, proof_fault};

use crate::head_faults::head_fault;
use crate::held_trees::HeldTrees;
use crate::ordering::{judge_found, judge_wrong};
use lms_sign::PublicKey;
use query_plan::{BindFault, Plan, Query, bind, plan, tables_used};
use std::alloc::Global;
use vo_format::Reply;
use vo_spec::{Answer, CheckFault, Name, Outcome, QueryText};

/// The outcome of a bound query whose tables have no more columns than a table may have.
fn judge_bound(alloc: Global, query: &Query<'_>, reply: &Reply<'_>) -> Result<Outcome, CheckFault>
    requires fits { FitsReply (reply_of reply.now) }
    requires left { length (schema_at (bound_sources_seen query.now.bound_sources) 0).columns ≤
        max_columns }
    requires right { length (schema_at (bound_sources_seen query.now.bound_sources) 1).columns ≤
        max_columns }
    ensures { let b = query_seen query.now in let r = reply_of reply.now in
        GivesIfPassed result (bound_fault b r) (shown_for (plan_of b) r) }
{
    let Ok(plan) = plan(alloc, query) else {
        return Err(CheckFault::Memory);
    };
    match tables_used(alloc, &plan.query.bound_sources) {
        Ok(names) => judge_planned(alloc, &plan, &names, reply),
        Err(_) => Err(CheckFault::Memory),
    }
}

/// The outcome of a plan's query, which reads the tables of these names.
fn judge_planned(
    alloc: Global,
    plan: &Plan<'_, '_>,
    names: &[&Name],
    reply: &Reply<'_>,
) -> Result<Outcome, CheckFault>
    requires fits { FitsReply (reply_of reply.now) }
    requires named { map lent_name names.now
        ≡ tables_used (plan_seen plan.now).query.bound_sources }
    ensures { let p = plan_seen plan.now in let r = reply_of reply.now in
        GivesIfPassed result (found_fault (findings_for p r)) (shown_for p r) }
{
    let held = HeldTrees { plan, names, reply };
    judge_found(alloc, plan, &held)
}

/// The outcome by what the trees show, where they pass their tests.
fn judge_trees<'q>(
    alloc: Global,
    query: &'q QueryText,
    reply: &'q Reply<'_>,
) -> Result<Outcome, CheckFault>
    requires { FitsReply (reply_of reply.now) }
    ensures outcome { let q = query_of query.now in let r = reply_of reply.now in
        GivesIfPassed result (proof_fault q r) (seen_outcome q r.catalog r.trees) }
    ensures numbers { IfOk result (λ outcome.
        FitsWhereBound (query_of query.now) (reply_of reply.now)) }
{
    match bind(alloc, &reply.catalog, query) {
        Ok(query) => judge_bound(alloc, &query, reply),
        Err(BindFault::Wrong(fault)) => judge_wrong(fault, reply.trees.len()),
        Err(BindFault::Memory) => Err(CheckFault::Memory),
    }
}

/// The tests in their order, the cheap ones first: what comes before the trees, and then these.
fn answer_of(
    alloc: Global,
    key: &PublicKey,
    least: u64,
    query: &QueryText,
    reply: &Reply<'_>,
) -> Result<Answer, CheckFault>
    requires { FitsReply (reply_of reply.now) }
    ensures answer { let q = query_of query.now in let r = reply_of reply.now in
        GivesIfPassed result (check_fault key.now least q r)
        (record { version = r.rec.version; outcome = seen_outcome q r.catalog r.trees }) }
    ensures numbers { IfOk result (λ answer.
        FitsWhereBound (query_of query.now) (reply_of reply.now)) }
{
    match head_fault(key, least, &reply.rec, reply.signature, &reply.catalog) {
        Some(fault) => return Err(fault),
        None => {},
    }
    match judge_trees(alloc, query, reply) {
        Ok(outcome) => Ok(Answer {
            version: reply.rec.version,
            outcome,
        }),
        Err(fault) => Err(fault),
    }
}

/// What a client of this key, who takes no version below `least`, says of the reply to the query:
/// its answer, or the first test that refuses it.
#[tactic(auto, unfolding(vo_spec::specs::Checks::answer_to))]
pub fn judge(
    alloc: Global,
    key: &PublicKey,
    least: u64,
    query: &QueryText,
    reply: &Reply<'_>,
) -> Result<Answer, CheckFault>
    requires { FitsReply (reply_of reply.now) }
    ensures answers { (result ≡ Err CheckFault.Memory)
        ⊎ (result ≡ answer_to key.now least (query_of query.now) (reply_of reply.now)) }

    // A query that binds was seen to compare with numbers of 64 bits.
    ensures numbers { IfOk result (λ answer.
        FitsWhereBound (query_of query.now) (reply_of reply.now)) }
{
    answer_of(alloc, key, least, query, reply)
}
