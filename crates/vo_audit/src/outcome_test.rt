//! An outcome against the query's result on plain tables.
ghost use Rattle.std.specs.Prelude.{◌≡◌, ◌↔◌, List, IsTrue, IfOk};
ghost use Rattle.vo_spec.specs.declared.tables.Table.{Table};
ghost use Rattle.vo_spec.specs.Conditions.{query_of};
ghost use Rattle.vo_spec.specs.Results.{result as result_of};
ghost use Rattle.vo_spec.specs.Honest.{RepresentTables};

use plain_result::{result_on, same_outcome};
use std::alloc::{AllocError, Global};
use stored_tables::StoredTables;
use vo_spec::{Outcome, QueryText};

/// Whether the outcome is the query's result on the tables.
pub(crate) fn is_result(
    alloc: Global,
    tables: &StoredTables,
    query: &QueryText,
    outcome: &Outcome,
) -> Result<bool, AllocError>
    ensures { (plain : List Table) → RepresentTables tables.now plain
        → IfOk result (λ same. IsTrue same ↔ (outcome.now ≡ result_of (query_of query.now) plain)) }
{
    let plain = tables.tables(alloc)?;
    let expected = result_on(alloc, plain.as_slice(), query)?;
    Ok(same_outcome(outcome, &expected))
}
