//! The sources of a query, where its names and kinds are borne out by the tables.
ghost use Rattle.std.specs.Prelude.{◌≡◌, [], ◌∷◌, map, IfOk};
ghost use Rattle.vo_spec.specs.Firsts.{first_some};
ghost use Rattle.vo_spec.specs.Conditions.{query_of};
ghost use Rattle.vo_spec.specs.Results.{sources, bound_source_of, bound_sources, missing_table, same_alias, ref_fault, query_refs, binding_fault};
ghost use Rattle.query_binding.specs.HeldSources.{bound_source_seen, bound_sources_seen};
ghost use Rattle.query_binding.specs.Binding.{PassesBinding, shown_refs, kind_tests, name_tests};

use crate::bind_fault::BindFault;
use crate::bound_sources::{BoundSource, BoundSources};
use crate::comparisons::test_comparisons;
use crate::joins::test_join;
use crate::references::{test_condition_refs, test_items, test_join_refs};
use crate::schemas::Schemas;
use std::alloc::Global;
use vo_spec::{QueryFault, QueryText, Ref, Source};

fn find_bound_source<'q, S: Schemas>(
    alloc: Global,
    schemas: &'q S,
    source: &'q Source,
) -> Result<BoundSource<'q>, BindFault>
    ensures value { IfOk result (λ bound_source. bound_source_seen bound_source
        ≡ bound_source_of (S.table_headers schemas.now) source.now) }
    ensures fault { PassesBinding result (missing_table (S.table_headers schemas.now) source.now) }
{
    match schemas.schema(source.table.as_bytes()) {
        Some(schema) => Ok(BoundSource {
            alias: &source.alias,
            table: &source.table,
            schema,
        }),
        None => {
            let fault = QueryFault::NoTable(source.table.copy(alloc)?);
            Err(BindFault::Wrong(fault))
        }
    }
}

fn find_bound_sources<'q, S: Schemas>(
    alloc: Global,
    schemas: &'q S,
    query: &'q QueryText,
) -> Result<BoundSources<'q>, BindFault>
    ensures value { IfOk result (λ found. bound_sources_seen found
        ≡ bound_sources (S.table_headers schemas.now) (query_of query.now)) }
    ensures fault { PassesBinding result (first_some
        (map (missing_table (S.table_headers schemas.now)) (sources (query_of query.now)))) }
{
    let left = match find_bound_source(alloc, schemas, &query.left) {
        Ok(bound_source) => bound_source,
        Err(fault) => return Err(fault),
    };
    match &query.join {
        None => Ok(BoundSources { left, right: None }),
        Some(join) => match find_bound_source(alloc, schemas, &join.right) {
            Ok(right) => Ok(BoundSources {
                left,
                right: Some(right),
            }),
            Err(fault) => Err(fault),
        },
    }
}

fn test_alias(alloc: Global, query: &QueryText) -> Result<(), BindFault>
    ensures { PassesBinding result (same_alias (sources (query_of query.now))) }
{
    match &query.join {
        Some(join) if query.left.alias.as_bytes() == join.right.alias.as_bytes() => {
            let fault = QueryFault::Ambiguous(Ref {
                qualifier: None,
                column: query.left.alias.copy(alloc)?,
            });
            Err(BindFault::Wrong(fault))
        }
        _ => Ok(()),
    }
}

/// Tests the references of the items and of ON.
fn test_shown_refs(
    alloc: Global,
    bound_sources: &BoundSources<'_>,
    query: &QueryText,
) -> Result<(), BindFault>
    ensures { PassesBinding result (first_some
        (map (ref_fault (bound_sources_seen bound_sources.now))
        (shown_refs (query_of query.now)))) }
{
    match test_items(alloc, bound_sources, &query.items) {
        Ok(()) => test_join_refs(alloc, bound_sources, &query.join),
        Err(fault) => Err(fault),
    }
}

fn test_references(
    alloc: Global,
    bound_sources: &BoundSources<'_>,
    query: &QueryText,
) -> Result<(), BindFault>
    ensures { PassesBinding result (first_some
        (map (ref_fault (bound_sources_seen bound_sources.now))
        (query_refs (query_of query.now)))) }
{
    match test_shown_refs(alloc, bound_sources, query) {
        Ok(()) => test_condition_refs(alloc, bound_sources, &query.cond),
        Err(fault) => Err(fault),
    }
}

fn test_kinds(bound_sources: &BoundSources<'_>, query: &QueryText) -> Result<(), BindFault>
    ensures { PassesBinding result
        (first_some (kind_tests (bound_sources_seen bound_sources.now) (query_of query.now))) }
{
    match test_join(bound_sources, &query.join) {
        Ok(()) => test_comparisons(bound_sources, &query.cond),
        Err(fault) => Err(fault),
    }
}

fn test_names(
    alloc: Global,
    bound_sources: &BoundSources<'_>,
    query: &QueryText,
) -> Result<(), BindFault>
    ensures { PassesBinding result
        (first_some (name_tests (bound_sources_seen bound_sources.now) (query_of query.now))) }
{
    match test_references(alloc, bound_sources, query) {
        Ok(()) => test_kinds(bound_sources, query),
        Err(fault) => Err(fault),
    }
}

fn test_bound_sources(
    alloc: Global,
    bound_sources: &BoundSources<'_>,
    query: &QueryText,
) -> Result<(), BindFault>
    ensures { PassesBinding result (first_some
        (same_alias (sources (query_of query.now))
        ∷ name_tests (bound_sources_seen bound_sources.now) (query_of query.now))) }
{
    match test_alias(alloc, query) {
        Ok(()) => test_names(alloc, bound_sources, query),
        Err(fault) => Err(fault),
    }
}

/// The sources of the query, which passes all tests, or the first fault.
pub fn bind_sources<'q, S: Schemas>(
    alloc: Global,
    schemas: &'q S,
    query: &'q QueryText,
) -> Result<BoundSources<'q>, BindFault>
    // The sources are those of the query.
    ensures value { IfOk result (λ found. bound_sources_seen found
        ≡ bound_sources (S.table_headers schemas.now) (query_of query.now)) }

    // No test finds a fault, or the fault is the first that they find.
    ensures fault { PassesBinding result
        (binding_fault (S.table_headers schemas.now) (query_of query.now)) }
{
    let bound_sources = match find_bound_sources(alloc, schemas, query) {
        Ok(bound_sources) => bound_sources,
        Err(fault) => return Err(fault),
    };
    match test_bound_sources(alloc, &bound_sources, query) {
        Ok(()) => Ok(bound_sources),
        Err(fault) => Err(fault),
    }
}
