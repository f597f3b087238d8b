//! Queries that are asked of the store, whose replies a client checks and an auditor audits.
ghost use Rattle.std.specs.Prelude.{◌≡◌, ◌<◌, ◌^◌, IfOk, IsTrue, OnOk, length};
ghost use Rattle.std.specs.List.{AllByRecursion};
ghost use Rattle.vo_spec.specs.Conditions.{FitsQuery, query_of};
ghost use Rattle.vo_spec.specs.Results.{result as result_of};
ghost use Rattle.vo_spec.specs.Tables.{tables_after};
ghost use Rattle.workload_run.specs.Parties.{HasRoom, StandTogether, batches_behind};
ghost use Rattle.workload_run.specs.Readers.{AreReadersOf};
ghost use Rattle.workload_run.specs.Running.{rows_given, rows_of};

use crate::parties::Parties;
use crate::readers::{Readers, check, is_exact};
use crate::requests::answer;
use std::alloc::{AllocError, Global};
use vo_spec::{Outcome, QueryText};

/// How many rows an answer has, and whether the audit says that it is exact.
#[derive(Clone, Copy, Debug)]
struct Judged {
    rows: u64,
    exact: bool,
}

/// How many queries were answered, with how many rows in all, and of how many answers the audit
/// says that they are exact.
#[derive(Clone, Copy, Debug)]
pub(crate) struct Counts {
    pub answers: u64,
    pub rows: u64,
    pub exact: u64,
}

/// How many rows an outcome has; one that is wrong has none.
fn count_rows(outcome: &Outcome) -> u64
    ensures { result ≡ length (rows_of outcome.now) }
{
    match outcome {
        Outcome::Rows { rows, .. } => rows.len() as u64,
        Outcome::Wrong(_) => 0,
    }
}

/// Asks the store, has the client check the reply, and the auditor judge it.
fn ask(
    alloc: Global,
    parties: &Parties,
    readers: &mut Readers<'_>,
    query: &QueryText,
) -> Result<Judged, AllocError>
    requires together { StandTogether parties.now }
    requires readers { AreReadersOf parties.now readers.old }
    requires fits { FitsQuery (query_of query.now) }
    requires room { HasRoom (batches_behind parties.now) (query_of query.now) }
    ensures rows { IfOk result (λ judged. judged.rows ≡ length (rows_of
        (result_of (query_of query.now) (tables_after (batches_behind parties.now))))) }
    ensures exact { IfOk result (λ judged. IsTrue judged.exact) }
    ensures readers { OnOk result (AreReadersOf parties.now readers.new) }
{
    let reply = answer(alloc, &parties.store, query)?;
    let given = check(alloc, &mut readers.client, query, &reply)?;
    let exact = is_exact(alloc, &readers.auditor, query, &reply)?;
    Ok(Judged {
        rows: count_rows(&given.outcome),
        exact,
    })
}

/// Asks each of the queries.
pub(crate) fn ask_each(
    alloc: Global,
    parties: &Parties,
    readers: &mut Readers<'_>,
    queries: &[QueryText],
) -> Result<Counts, AllocError>
    requires together { StandTogether parties.now }
    requires readers { AreReadersOf parties.now readers.old }
    requires fit { AllByRecursion (λ query. FitsQuery (query_of query)) queries.now }
    requires room { AllByRecursion (λ query.
        HasRoom (batches_behind parties.now) (query_of query)) queries.now }
    requires few { length (rows_given (tables_after (batches_behind parties.now)) queries.now)
        < 2 ^ 64 }
    ensures answers { IfOk result (λ counts. counts.answers ≡ length queries.now) }
    ensures rows { IfOk result (λ counts. counts.rows
        ≡ length (rows_given (tables_after (batches_behind parties.now)) queries.now)) }
    ensures exact { IfOk result (λ counts. counts.exact ≡ length queries.now) }
{
    let mut counts = Counts {
        answers: 0,
        rows: 0,
        exact: 0,
    };
    for query in queries {
        let judged = ask(alloc, parties, readers, query)?;
        counts.answers += 1;
        counts.rows += judged.rows;
        if judged.exact {
            counts.exact += 1;
        }
    }
    Ok(counts)
}
