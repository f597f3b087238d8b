//! The result of a query on plain tables: it is bound to them, and its rows are those that it shows
//! of theirs.
ghost use Rattle.std.specs.Prelude.{◌≡◌, ◌++◌, [], map, filter, flat_map, option_map, IfOk, OnOk};
ghost use Rattle.std.specs.Option.{option_map_or};
ghost use Rattle.vo_spec.specs.declared.queries.Outcome.TheVariants.{Rows};
ghost use Rattle.vo_spec.specs.Conditions.{query_of};
ghost use Rattle.vo_spec.specs.Tables.{table_header_of};
ghost use Rattle.vo_spec.specs.Results.{bound_sources as bound_sources_of, header as header_of, place_value};
ghost use Rattle.vo_spec.specs.Results.{result as result_of};
ghost use Rattle.query_binding.specs.HeldSources.{bound_sources_seen};
ghost use Rattle.query_plan.specs.BoundConditions.{all_hold};
ghost use Rattle.query_plan.specs.BoundViews.{conjunct_seen, join_seen, query_seen};
ghost use Rattle.query_plan.specs.Plans.{plan_of};
ghost use Rattle.query_plan.specs.Answers.{left_answers, plain_rows};
ghost use Rattle.plain_result.specs.RowViews.{view_of_row, meets, right_row_views};

use crate::table_rows::TableRow;
use crate::tables::{TableSlice, row_views_of};
use query_plan::{
    BindFault, Conjunct, LeftRow, Query, all_hold, bind, conjuncts_of, header, keep_first_rows,
    push_alone, push_pairs,
};
use std::alloc::{AllocError, Global};
use table_list::Tables;
use vo_spec::{List, Outcome, QueryText, Table, Value};

/// Puts what the query shows of a left row at the end: alone, or in a join beside each right row.
fn push_answers(
    alloc: Global,
    query: &Query<'_>,
    late: &[Conjunct<'_, '_>],
    left: &TableRow<'_>,
    rights: &[TableRow<'_>],
    out: &mut Vec<List<Value>>,
) -> Result<(), AllocError>
    ensures { OnOk result (out.new.items ≡ out.old.items
        ++ left_answers (query_seen query.now) (map conjunct_seen late.now)
        (option_map join_seen query.now.join) (map view_of_row rights.now) (view_of_row left.now)) }
{
    match query.join {
        None => push_alone(alloc, query, late, left, out),
        Some(_) => push_pairs(alloc, query, late, left, rights, out),
    }
}

/// What the query shows of those left rows that meet the left condition, in a join each beside the
/// right rows, whatever the limit.
fn rows_of(
    alloc: Global,
    query: &Query<'_>,
    left: &[Conjunct<'_, '_>],
    late: &[Conjunct<'_, '_>],
    lefts: &[TableRow<'_>],
    rights: &[TableRow<'_>],
) -> Result<Vec<List<Value>>, AllocError>
    ensures { IfOk result (λ rows. rows.items
        ≡ flat_map (left_answers (query_seen query.now) (map conjunct_seen late.now)
        (option_map join_seen query.now.join) (map view_of_row rights.now))
        (filter (meets (map conjunct_seen left.now)) (map view_of_row lefts.now))) }
{
    let mut rows = Vec::new(alloc);
    for row in lefts {
        if all_hold(left, &LeftRow { left: row }) {
            push_answers(alloc, query, late, row, rights, &mut rows)?;
        }
    }
    Ok(rows)
}

/// The rows of the right source, if there is a join.
fn right_row_views<'t>(
    alloc: Global,
    tables: &'t [Table],
    query: &Query<'t>,
) -> Result<Vec<TableRow<'t>>, AllocError>
    ensures { IfOk result (λ row_views. map view_of_row row_views.items
        ≡ right_row_views (query_seen query.now) tables.now) }
{
    match (query.join, query.bound_sources.right) {
        (Some(_), Some(right)) => row_views_of(alloc, tables, right),
        (None, _) => Ok(Vec::new(alloc)),
        (Some(_), None) => unreachable!(),
    }
}

/// The rows that the query answers with.
fn answer_rows<'t>(
    alloc: Global,
    tables: &'t [Table],
    query: &Query<'t>,
) -> Result<List<List<Value>>, AllocError>
    ensures { IfOk result (λ rows. rows ≡ plain_rows (plan_of (query_seen query.now)) tables.now) }
{
    let left = conjuncts_of(alloc, &query.condition, true)?;
    let late = conjuncts_of(alloc, &query.condition, false)?;
    let lefts = row_views_of(alloc, tables, query.bound_sources.left)?;
    let rights = right_row_views(alloc, tables, query)?;
    let mut rows = rows_of(alloc, query, &left, &late, &lefts, &rights)?;
    keep_first_rows(query.limit, &mut rows);
    Ok(List::from_vec(rows))
}

/// The answer of a query that passes all tests.
fn answer_of<'t>(
    alloc: Global,
    tables: &'t [Table],
    query: &Query<'t>,
) -> Result<Outcome, AllocError>
    ensures { IfOk result (λ outcome. outcome
        ≡ Rows (header_of (bound_sources_seen query.now.bound_sources) query.now.items.now)
        (plain_rows (plan_of (query_seen query.now)) tables.now)) }
{
    let header = header(alloc, &query.bound_sources, query.items)?;
    let rows = answer_rows(alloc, tables, query)?;
    Ok(Outcome::Rows { header, rows })
}

/// What the query gives on a list of tables: its rows, or the fault of the first test that it
/// fails.
#[tactic(auto, unfolding(vo_spec::specs::Results::result))]
pub fn result_on(alloc: Global, tables: &[Table], query: &QueryText) -> Result<Outcome, AllocError>
    ensures { IfOk result (λ outcome. outcome ≡ result_of (query_of query.now) tables.now) }
{
    match bind(alloc, &TableSlice { tables }, query) {
        Ok(bound) => answer_of(alloc, tables, &bound),
        Err(BindFault::Wrong(fault)) => Ok(Outcome::Wrong(fault)),
        Err(BindFault::Memory) => Err(AllocError),
    }
}

/// The same on the tables that commands made.
pub fn result(alloc: Global, tables: &Tables, query: &QueryText) -> Result<Outcome, AllocError>
    ensures { IfOk result (λ outcome. outcome ≡ result_of (query_of query.now) tables.now) }
{
    result_on(alloc, tables.as_slice(), query)
}
