//! The titles of the columns that a query shows.
ghost use Rattle.std.specs.Prelude.{◌≡◌, map, length, IfOk};
ghost use Rattle.vo_spec.specs.Tables.{column_at};
ghost use Rattle.vo_spec.specs.Results.{header, dotted_title, ref_title, place_title, schema_at, bound_source_at};
ghost use Rattle.query_binding.specs.HeldSources.{bound_sources_seen, place_seen};

use crate::bound_sources::{BoundSources, ColumnPlace};
use crate::shown_columns::shown_places;
use std::alloc::{AllocError, Global};
use table_list::name_at as column_name;
use vo_spec::{Items, List, Ref, Text};

/// `alias.column`
fn dotted_title(alloc: Global, alias: &[u8], column: &[u8]) -> Result<Text, AllocError>
    ensures { IfOk result (λ title. title ≡ dotted_title alias.now column.now) }
{
    let mut title = Vec::from_slice(alloc, alias)?;
    title.push(b'.')?;
    title.extend_from_slice(column)?;
    Ok(Text::from_vec(title))
}

fn text_of(alloc: Global, bytes: &[u8]) -> Result<Text, AllocError>
    ensures { IfOk result (λ text. text ≡ bytes.now) }
{
    Ok(Text::from_vec(Vec::from_slice(alloc, bytes)?))
}

fn ref_title(alloc: Global, reference: &Ref) -> Result<Text, AllocError>
    ensures { IfOk result (λ title. title ≡ ref_title reference.now) }
{
    let column = reference.column.as_bytes();
    match &reference.qualifier {
        Some(qualifier) => dotted_title(alloc, qualifier.as_bytes(), column),
        None => text_of(alloc, column),
    }
}

/// The name of the column at the place, past all columns nothing.
fn name_at<'q>(bound_sources: &BoundSources<'q>, place: ColumnPlace) -> &'q [u8]
    ensures { result.now ≡ (column_at
        (schema_at (bound_sources_seen bound_sources.now) place.bound_source).columns
        place.column).name }
{
    match bound_sources.schema_at(place.bound_source) {
        Some(schema) => column_name(schema.columns.as_slice(), place.column),
        None => &[],
    }
}

fn alias_at<'q>(bound_sources: &BoundSources<'q>, bound_source: usize) -> &'q [u8]
    ensures { result.now ≡ (bound_source_at (bound_sources_seen bound_sources.now)
        bound_source).alias }
{
    match bound_sources.bound_source_at(bound_source) {
        Some(found) => found.alias.as_bytes(),
        None => &[],
    }
}

fn place_title(
    alloc: Global,
    bound_sources: &BoundSources<'_>,
    place: ColumnPlace,
) -> Result<Text, AllocError>
    ensures { IfOk result (λ title. title
        ≡ place_title (bound_sources_seen bound_sources.now) (place_seen place)) }
{
    let name = name_at(bound_sources, place);
    match bound_sources.right {
        None => text_of(alloc, name),
        Some(_) => dotted_title(alloc, alias_at(bound_sources, place.bound_source), name),
    }
}

fn place_titles(
    alloc: Global,
    bound_sources: &BoundSources<'_>,
    places: &[ColumnPlace],
) -> Result<List<Text>, AllocError>
    ensures { IfOk result (λ titles. titles
        ≡ map (place_title (bound_sources_seen bound_sources.now)) (map place_seen places.now)) }
{
    let mut titles = Vec::with_capacity(alloc, places.len())?;
    for place in places {
        titles.push(place_title(alloc, bound_sources, *place)?)?;
    }
    Ok(List::from_vec(titles))
}

fn ref_titles(alloc: Global, references: &[Ref]) -> Result<List<Text>, AllocError>
    ensures { IfOk result (λ titles. titles ≡ map ref_title references.now) }
{
    let mut titles = Vec::with_capacity(alloc, references.len())?;
    for reference in references {
        titles.push(ref_title(alloc, reference)?)?;
    }
    Ok(List::from_vec(titles))
}

/// The titles of the columns that the query shows.
pub fn header(
    alloc: Global,
    bound_sources: &BoundSources<'_>,
    items: &Items,
) -> Result<List<Text>, AllocError>
    ensures { IfOk result (λ titles. titles
        ≡ header (bound_sources_seen bound_sources.now) items.now) }
{
    match items {
        Items::All => {
            let places = shown_places(alloc, bound_sources, items)?;
            place_titles(alloc, bound_sources, places.as_slice())
        }
        Items::Refs(references) => ref_titles(alloc, references.as_slice()),
    }
}
