//! Calls of a query on the tables of a catalog: which trees it reads, and what it needs of them.
ghost use Rattle.vo_spec.specs.Tables.{value_at};

use crate::byte_strings::take_values;
use crate::line::PlanCall;
use crate::runs;
use crate::text_faults::describe_fault;
use line_pieces::{describe, word};
use query_plan::{
    BindFault, Plan, Query, RowView, bind, has_join_value, has_one_tree, is_narrow, meets_left,
    plan, right_need, same_table, tables_used,
};
use sql_text::parse_query;
use std::alloc::Global;
use std::io;
use vo_spec::{Catalog, QueryText, Value, ValueRef};

/// The answer to a call of a query's text, with what stands behind it.
pub fn answer(
    alloc: Global,
    catalog: &Catalog,
    call: PlanCall,
    text: &[u8],
    more: &[u8],
) -> io::Result<String> {
    let Ok(text) = std::str::from_utf8(text) else {
        return word(alloc, "no text");
    };
    match parse_query(alloc, text) {
        Ok(query) => {
            let answer = bind_and_answer(alloc, catalog, call, &query, more);
            drop(query);
            answer
        }
        Err(fault) => describe_fault(alloc, fault),
    }
}

fn bind_and_answer<'q>(
    alloc: Global,
    catalog: &'q Catalog,
    call: PlanCall,
    query: &'q QueryText,
    more: &[u8],
) -> io::Result<String> {
    match bind(alloc, catalog, query) {
        Ok(query) => answer_query(alloc, call, &query, more),
        Err(BindFault::Wrong(fault)) => describe(alloc, &fault),
        Err(BindFault::Memory) => word(alloc, "Memory"),
    }
}

fn answer_query(
    alloc: Global,
    call: PlanCall,
    query: &Query<'_>,
    more: &[u8],
) -> io::Result<String> {
    match call {
        PlanCall::Trees => trees(alloc, query),
        _ => answer_plan(alloc, call, query, more),
    }
}

fn answer_plan(
    alloc: Global,
    call: PlanCall,
    query: &Query<'_>,
    more: &[u8],
) -> io::Result<String> {
    if !is_narrow(&query.bound_sources, 0) || !is_narrow(&query.bound_sources, 1) {
        return word(alloc, "too wide");
    }
    let plan = plan(alloc, query)?;
    let answer = answer_by(alloc, call, &plan, more);
    drop(plan);
    answer
}

fn answer_by(
    alloc: Global,
    call: PlanCall,
    plan: &Plan<'_, '_>,
    more: &[u8],
) -> io::Result<String> {
    match call {
        PlanCall::Trees | PlanCall::LeftNeed => describe(alloc, &plan.uncut_need),
        PlanCall::RightNeed => right_need_text(alloc, plan, more),
        PlanCall::RightNeeds => runs::right_needs_of(alloc, plan, more),
        PlanCall::Run => runs::run(alloc, plan, more),
    }
}

/// Whether a table is joined with itself, whether one tree is read, and the tables whose trees are.
fn trees(alloc: Global, query: &Query<'_>) -> io::Result<String> {
    let bound_sources = &query.bound_sources;
    let names = describe(alloc, &tables_used(alloc, bound_sources)?)?;
    Ok(format!(in alloc;
        "{} {} {names}",
        same_table(bound_sources),
        has_one_tree(bound_sources)
    )?)
}

/// A row as the values of its columns, past the end FALSE.
#[derive(Drop)]
struct Fields {
    values: Vec<Value>,
}

impl RowView for Fields {
    ghost row_view = { λ fields. value_at fields.values.items };

    fn field(&self, column: usize) -> ValueRef<'_> {
        match self.values.get(column) {
            Some(value) => value.as_ref(),
            None => ValueRef::Bool(false),
        }
    }
}

/// What the query needs for a left row of these values, none where the row doesn't meet the
/// condition or has no value for ON.
fn right_need_text(alloc: Global, plan: &Plan<'_, '_>, values: &[u8]) -> io::Result<String> {
    match take_values(alloc, values)? {
        Ok(values) => right_need_of(alloc, plan, &Fields { values }),
        Err(fault) => describe(alloc, &fault),
    }
}

fn right_need_of(alloc: Global, plan: &Plan<'_, '_>, row: &Fields) -> io::Result<String> {
    let Some(join) = plan.query.join else {
        return word(alloc, "no join");
    };
    if !meets_left(plan, row) || !has_join_value(join, row) {
        return word(alloc, "none");
    }
    let need = right_need(alloc, plan, join, row)?;
    describe(alloc, &need)
}
