//! The columns that a query shows.
ghost use Rattle.std.specs.Prelude.{◌≡◌, ◌++◌, map, length, IfOk, OnOk};
ghost use Rattle.vo_spec.specs.declared.queries.Items.TheVariants.{All};
ghost use Rattle.vo_spec.specs.Results.{places_in, shown_places, place_of, schema_at};
ghost use Rattle.query_binding.specs.HeldSources.{bound_sources_seen, place_seen};

use crate::bound_sources::{BoundSources, ColumnPlace};
use std::alloc::{AllocError, Global};
use vo_spec::{Items, Ref};

/// How many columns the source of this number has.
fn width(bound_sources: &BoundSources<'_>, bound_source: usize) -> usize
    ensures { result ≡ length (schema_at (bound_sources_seen bound_sources.now)
        bound_source).columns }
{
    match bound_sources.schema_at(bound_source) {
        Some(schema) => schema.columns.len(),
        None => 0,
    }
}

/// Puts a place for each column of a source at the end.
fn push_places(
    bound_sources: &BoundSources<'_>,
    bound_source: usize,
    out: &mut Vec<ColumnPlace>,
) -> Result<(), AllocError>
    ensures { OnOk result (map place_seen out.new.items ≡ map place_seen out.old.items
        ++ places_in (bound_sources_seen bound_sources.now) bound_source) }
{
    for column in 0..width(bound_sources, bound_source) {
        out.push(ColumnPlace {
            bound_source,
            column,
        })?;
    }
    Ok(())
}

fn all_places(
    alloc: Global,
    bound_sources: &BoundSources<'_>,
) -> Result<Vec<ColumnPlace>, AllocError>
    ensures { IfOk result (λ places. map place_seen places.items
        ≡ shown_places (bound_sources_seen bound_sources.now) All) }
{
    let mut places = Vec::new(alloc);
    push_places(bound_sources, 0, &mut places)?;
    if bound_sources.right.is_some() {
        push_places(bound_sources, 1, &mut places)?;
    }
    Ok(places)
}

fn places_of(
    alloc: Global,
    bound_sources: &BoundSources<'_>,
    references: &[Ref],
) -> Result<Vec<ColumnPlace>, AllocError>
    ensures { IfOk result (λ places. map place_seen places.items
        ≡ map (place_of (bound_sources_seen bound_sources.now)) references.now) }
{
    let mut places = Vec::with_capacity(alloc, references.len())?;
    for reference in references {
        places.push(bound_sources.place_of(reference))?;
    }
    Ok(places)
}

/// Where the columns stand that the query shows, in their order.
pub fn shown_places(
    alloc: Global,
    bound_sources: &BoundSources<'_>,
    items: &Items,
) -> Result<Vec<ColumnPlace>, AllocError>
    ensures { IfOk result (λ places. map place_seen places.items
        ≡ shown_places (bound_sources_seen bound_sources.now) items.now) }
{
    match items {
        Items::All => all_places(alloc, bound_sources),
        Items::Refs(references) => places_of(alloc, bound_sources, references.as_slice()),
    }
}
