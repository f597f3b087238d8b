//! The cells of a source that a query names.
ghost use Rattle.std.specs.Prelude.{◌≡◌, ◌≤◌, [], map, length, option_map, IfOk};
ghost use Rattle.std.specs.Option.{option_map_or};
ghost use Rattle.std.specs.List.{list_any};
ghost use Rattle.vo_spec.specs.Batches.{max_columns};
ghost use Rattle.vo_spec.specs.Conditions.{of_tests_in};
ghost use Rattle.vo_spec.specs.Results.{schema_at};
ghost use Rattle.query_binding.specs.HeldSources.{bound_sources_seen, place_seen};
ghost use Rattle.query_plan.specs.BoundConditions.{term_places, test_places, condition_places};
ghost use Rattle.query_plan.specs.BoundQueries.{join_columns};
ghost use Rattle.query_plan.specs.BoundViews.{term_seen, test_seen, parts_seen, condition_seen, join_seen, query_seen};
ghost use Rattle.query_plan.specs.NamedCells.{is_at, names, is_named_cell, cells_of, bound_cells};

use crate::bound_cond::{BoundCond, BoundOperand, BoundTest};
use crate::bound_query::{BoundJoin, Query};
use query_binding::ColumnPlace;
use std::alloc::{AllocError, Global};
use table_list::cell_number;
use vo_spec::{Items, Schema};

fn is_at(at: ColumnPlace, place: ColumnPlace) -> bool
    ensures { result ≡ is_at (place_seen at) (place_seen place) }
{
    place.bound_source == at.bound_source && place.column == at.column
}

fn is_among(at: ColumnPlace, places: &[ColumnPlace]) -> bool
    ensures { result ≡ list_any (is_at (place_seen at)) (map place_seen places.now) }
{
    for place in places {
        if is_at(at, *place) {
            return true;
        }
    }
    false
}

/// Whether the condition names the column at the place.
#[cycle(names)]
fn condition_names(at: ColumnPlace, cond: &BoundCond<'_>) -> bool
    ensures { result ≡ list_any (is_at (place_seen at))
        (condition_places (condition_seen cond.now)) }
{
    match cond {
        BoundCond::All(parts) | BoundCond::Any(parts) => parts_name(at, parts.as_slice()),
        BoundCond::Not(part) => condition_names(at, part),
        BoundCond::Test(test) => test_names(at, test),
    }
}

#[cycle(names)]
fn parts_name(at: ColumnPlace, parts: &[BoundCond<'_>]) -> bool
    ensures { result ≡ list_any (is_at (place_seen at))
        (of_tests_in test_places (parts_seen (map condition_seen parts.now))) }
{
    for part in parts {
        if condition_names(at, part) {
            return true;
        }
    }
    false
}

fn test_names(at: ColumnPlace, test: &BoundTest<'_>) -> bool
    ensures { result ≡ list_any (is_at (place_seen at)) (test_places (test_seen test.now)) }
{
    match test {
        BoundTest::Comparison { left, right, .. } => is_at(at, *left) || operand_names(at, right),
        BoundTest::IsNull { left, .. } => is_at(at, *left),
    }
}

fn operand_names(at: ColumnPlace, operand: &BoundOperand<'_>) -> bool
    ensures { result ≡ list_any (is_at (place_seen at)) (term_places (term_seen operand.now)) }
{
    match operand {
        BoundOperand::Column(place) => is_at(at, *place),
        BoundOperand::Literal(_) => false,
    }
}

fn join_names(at: ColumnPlace, join: &Option<BoundJoin>) -> bool
    ensures { result ≡ list_any (is_at (place_seen at))
        (option_map_or join_columns (option_map join_seen join.now) []) }
{
    match join {
        Some(join) => is_at(at, join.first) || is_at(at, join.second),
        None => false,
    }
}

fn where_names(at: ColumnPlace, cond: &Option<BoundCond<'_>>) -> bool
    ensures { result ≡ list_any (is_at (place_seen at))
        (option_map_or condition_places (option_map condition_seen cond.now) []) }
{
    match cond {
        Some(cond) => condition_names(at, cond),
        None => false,
    }
}

fn is_named(query: &Query<'_>, at: ColumnPlace) -> bool
    ensures { result ≡ names (query_seen query.now) (place_seen at) }
{
    matches!(query.items, Items::All)
        || is_among(at, &query.output)
        || join_names(at, &query.join)
        || where_names(at, &query.condition)
}

/// Whether the column at the place is a cell that the query names.
fn is_named_cell(query: &Query<'_>, at: ColumnPlace, key: usize) -> bool
    ensures { result ≡ is_named_cell (query_seen query.now) at.bound_source key at.column }
{
    at.column != key && is_named(query, at)
}

/// The cells of the source of this number that the query names, by their numbers.
pub(crate) fn named_cells(
    alloc: Global,
    query: &Query<'_>,
    bound_source: usize,
) -> Result<Vec<u8>, AllocError>
    requires { length (schema_at (bound_sources_seen query.now.bound_sources) bound_source).columns
        ≤ max_columns }
    ensures { IfOk result (λ cells. cells.items ≡ bound_cells (query_seen query.now) bound_source) }
{
    match query.bound_sources.schema_at(bound_source) {
        Some(schema) => cells_of(alloc, query, bound_source, schema),
        None => Ok(Vec::new(alloc)),
    }
}

fn cells_of(
    alloc: Global,
    query: &Query<'_>,
    bound_source: usize,
    schema: &Schema,
) -> Result<Vec<u8>, AllocError>
    requires { length schema.now.columns ≤ max_columns }
    ensures { IfOk result (λ cells. cells.items
        ≡ cells_of (query_seen query.now) bound_source schema.now) }
{
    let key = schema.key as usize;
    let mut cells = Vec::new(alloc);
    for column in 0..schema.columns.len() {
        if is_named_cell(
            query,
            ColumnPlace {
                bound_source,
                column,
            },
            key,
        ) {
            cells.push(cell_number(key, column) as u8)?;
        }
    }
    Ok(cells)
}
