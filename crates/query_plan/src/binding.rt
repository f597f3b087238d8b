//! Queries bound to the tables that they are asked of.
ghost use Rattle.std.specs.Prelude.{◌≡◌, [], map, option_map, IfOk};
ghost use Rattle.std.specs.Option.{option_map_or};
ghost use Rattle.vo_spec.specs.Conditions.{FitsOperand, FitsQuery, sides, of_tests_in, with_tests_in, comparisons, conditions, condition_of, query_of};
ghost use Rattle.vo_spec.specs.Results.{bound_sources as bound_sources_of, binding_fault};
ghost use Rattle.query_binding.specs.HeldSources.{bound_sources_seen};
ghost use Rattle.query_binding.specs.Binding.{PassesBinding};
ghost use Rattle.query_plan.specs.BoundQueries.{FitComparisons, bound_term, bound_test, bound_condition, bound_join, bound_query};
ghost use Rattle.query_plan.specs.BoundViews.{term_seen, parts_seen, condition_seen, join_seen, query_seen};

use crate::bound_cond::{BoundCond, BoundOperand, BoundTest};
use crate::bound_query::{BoundJoin, Query};
use query_binding::{BindFault, BoundSources, Schemas, bind_sources, shown_places};
use std::alloc::{AllocError, Global};
use vo_spec::{Cond, Join, List, Operand, QueryText};

fn bind_operand<'q>(bound_sources: &BoundSources<'_>, operand: &'q Operand) -> BoundOperand<'q>
    ensures value { term_seen result
        ≡ bound_term (bound_sources_seen bound_sources.now) operand.now }
    ensures fits { FitsOperand operand.now }
{
    match operand {
        Operand::Ref(reference) => BoundOperand::Column(bound_sources.place_of(reference)),
        Operand::Literal(value) => BoundOperand::Literal(value.as_ref()),
    }
}

#[cycle(bind_condition)]
fn bind_condition<'q>(
    alloc: Global,
    bound_sources: &BoundSources<'_>,
    cond: &'q Cond,
) -> Result<BoundCond<'q>, AllocError>
    ensures value { IfOk result (λ bound. condition_seen bound
        ≡ bound_condition (bound_sources_seen bound_sources.now) (condition_of cond.now)) }
    ensures fits { IfOk result (λ bound. FitComparisons (comparisons (condition_of cond.now))) }
{
    match cond {
        Cond::All(parts) => {
            let parts = bind_parts(alloc, bound_sources, parts.as_slice())?;
            Ok(BoundCond::All(parts))
        },
        Cond::Any(parts) => {
            let parts = bind_parts(alloc, bound_sources, parts.as_slice())?;
            Ok(BoundCond::Any(parts))
        },
        Cond::Not(part) => {
            let part = bind_condition(alloc, bound_sources, part)?;
            Ok(BoundCond::Not(Box::new(alloc, part)?))
        },
        Cond::Test { left, op, right } => Ok(BoundCond::Test(BoundTest::Comparison {
            left: bound_sources.place_of(left),
            op: *op,
            right: bind_operand(bound_sources, right),
        })),
        Cond::IsNull { left, negated } => Ok(BoundCond::Test(BoundTest::IsNull {
            left: bound_sources.place_of(left),
            negated: *negated,
        })),
    }
}

#[cycle(bind_condition)]
fn bind_parts<'q>(
    alloc: Global,
    bound_sources: &BoundSources<'_>,
    parts: &'q [Cond],
) -> Result<List<BoundCond<'q>>, AllocError>
    ensures value { IfOk result (λ bound. parts_seen (map condition_seen bound)
        ≡ with_tests_in (bound_test (bound_sources_seen bound_sources.now))
        (conditions (map condition_of parts.now))) }
    ensures fits { IfOk result (λ bound.
        FitComparisons (of_tests_in sides (conditions (map condition_of parts.now)))) }
{
    let mut bound = Vec::with_capacity(alloc, parts.len())?;
    for part in parts {
        bound.push(bind_condition(alloc, bound_sources, part)?)?;
    }
    Ok(List::from_vec(bound))
}

fn bind_where<'q>(
    alloc: Global,
    bound_sources: &BoundSources<'_>,
    cond: &'q Option<Cond>,
) -> Result<Option<BoundCond<'q>>, AllocError>
    ensures value { IfOk result (λ bound. option_map condition_seen bound
        ≡ option_map (bound_condition (bound_sources_seen bound_sources.now))
        (option_map condition_of cond.now)) }
    ensures fits { IfOk result (λ bound.
        FitComparisons (option_map_or comparisons (option_map condition_of cond.now) [])) }
{
    match cond {
        Some(cond) => Ok(Some(bind_condition(alloc, bound_sources, cond)?)),
        None => Ok(None),
    }
}

fn bind_join(bound_sources: &BoundSources<'_>, join: &Option<Join>) -> Option<BoundJoin>
    ensures { option_map join_seen result
        ≡ option_map (bound_join (bound_sources_seen bound_sources.now)) join.now }
{
    match join {
        Some(join) => Some(BoundJoin {
            first: bound_sources.place_of(&join.left_ref),
            second: bound_sources.place_of(&join.right_ref),
        }),
        None => None,
    }
}

/// The query over the columns of its sources.
#[tactic(auto, using(crate::proofs::SourceLaws::sources_joined))]
fn bind_query<'q, S: Schemas>(
    alloc: Global,
    bound_sources: BoundSources<'q>,
    schemas: &S,
    text: &'q QueryText,
) -> Result<Query<'q>, AllocError>
    requires { bound_sources_seen bound_sources
        ≡ bound_sources_of (S.table_headers schemas.now) (query_of text.now) }
    ensures value { IfOk result (λ query. query_seen query
        ≡ bound_query (bound_sources_seen bound_sources.entry) (query_of text.now)) }
    ensures fits { IfOk result (λ query. FitsQuery (query_of text.now)) }
{
    let output = shown_places(alloc, &bound_sources, &text.items)?;
    let join = bind_join(&bound_sources, &text.join);
    let condition = bind_where(alloc, &bound_sources, &text.cond)?;
    Ok(Query {
        bound_sources,
        items: &text.items,
        output,
        join,
        condition,
        limit: text.limit,
    })
}

/// The query over the columns of its tables, or the first of its tests that fails. Names are looked
/// up here alone.
pub fn bind<'q, S: Schemas>(
    alloc: Global,
    schemas: &'q S,
    text: &'q QueryText,
) -> Result<Query<'q>, BindFault>
    // Each reference is the column that it names.
    ensures value { IfOk result (λ query. query_seen query
        ≡ bound_query (bound_sources_of (S.table_headers schemas.now) (query_of text.now))
        (query_of text.now)) }

    // The numbers that it compares with are of 64 bits.
    ensures fits { IfOk result (λ query. FitsQuery (query_of text.now)) }

    // No test finds a fault, or the fault is the first that they find.
    ensures fault { PassesBinding result
        (binding_fault (S.table_headers schemas.now) (query_of text.now)) }
{
    match bind_sources(alloc, schemas, text) {
        Ok(bound_sources) => Ok(bind_query(alloc, bound_sources, schemas, text)?),
        Err(fault) => Err(fault),
    }
}
