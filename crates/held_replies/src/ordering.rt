//! The order of the tests of a reply's trees.
ghost use Rattle.std.specs.Prelude.{◌≡◌, None};
ghost use Rattle.vo_spec.specs.declared.queries.Outcome.TheVariants.{Rows, Wrong};
ghost use Rattle.vo_spec.specs.Results.{header as header_of};
ghost use Rattle.query_plan.specs.PlanViews.{plan_seen};
ghost use Rattle.held_replies.specs.Ordering.{JudgesFound, count_fault_of, found_fault, table_faults};
ghost use Rattle.held_replies.specs.Testing.{GivesIfPassed, PassesTests};

use crate::found_trees::FoundTrees;
use query_plan::{Plan, header};
use std::alloc::Global;
use vo_spec::{CheckFault, List, Outcome, QueryFault, Value};

/// Refuses another number of trees than is wanted.
fn count_fault(want: usize, got: usize) -> Option<CheckFault>
    ensures { result ≡ count_fault_of want got }
{
    if got == want {
        return None;
    }
    Some(CheckFault::WrongTrees {
        want: want as u64,
        got: got as u64,
    })
}

/// The tests of trees against their tables: how many there are, their shapes, and then their roots.
fn test_tables<F: FoundTrees>(alloc: Global, found: &F) -> Result<(), CheckFault>
    requires { F.Fits found.now }
    ensures { PassesTests result (table_faults (F.findings found.now)) }
{
    if let Some(fault) = count_fault(found.wanted(), found.count()) {
        return Err(fault);
    }
    if !found.have_shapes() {
        return Err(CheckFault::WrongShape);
    }
    found.test_roots(alloc)
}

/// The outcome that shows these rows.
fn outcome_of(
    alloc: Global,
    plan: &Plan<'_, '_>,
    rows: List<List<Value>>,
) -> Result<Outcome, CheckFault>
    ensures { let q = (plan_seen plan.now).query in GivesIfPassed result None
        (Rows (header_of q.bound_sources q.items) rows) }
{
    match header(alloc, &plan.query.bound_sources, plan.query.items) {
        Ok(header) => Ok(Outcome::Rows { header, rows }),
        Err(_) => Err(CheckFault::Memory),
    }
}

/// The outcome of a query that binds, by what was found of its trees: the tests against their
/// tables first, and then whether something is missing, and whether there is a surplus.
pub fn judge_found<F: FoundTrees>(
    alloc: Global,
    plan: &Plan<'_, '_>,
    found: &F,
) -> Result<Outcome, CheckFault>
    requires { F.Fits found.now }
    ensures { let q = (plan_seen plan.now).query in
        JudgesFound result (found_fault (F.findings found.now))
        (header_of q.bound_sources q.items) (F.Shows found.now) }
{
    match test_tables(alloc, found) {
        Ok(()) => {},
        Err(fault) => return Err(fault),
    }
    match found.show(alloc) {
        Ok(shown) if shown.has_surplus => Err(CheckFault::Surplus),
        Ok(shown) => outcome_of(alloc, plan, shown.rows),
        Err(fault) => Err(fault),
    }
}

/// The outcome of a query that does not bind, which wants no trees.
pub fn judge_wrong(fault: QueryFault, count: usize) -> Result<Outcome, CheckFault>
    ensures { GivesIfPassed result (count_fault_of 0 count) (Wrong fault) }
{
    match count_fault(0, count) {
        Some(fault) => Err(fault),
        None => Ok(Outcome::Wrong(fault)),
    }
}
