//! Whether a join pairs a column of the left source with the key of the right one.
ghost use Rattle.std.specs.Prelude.{◌≡◌, map, option_to_list};
ghost use Rattle.vo_spec.specs.Firsts.{first_some};
ghost use Rattle.vo_spec.specs.Results.{join_places, is_key_join, join_fault, schema_at};
ghost use Rattle.query_binding.specs.HeldSources.{bound_sources_seen, place_seen};
ghost use Rattle.query_binding.specs.Binding.{PassesBinding};

use crate::bind_fault::BindFault;
use crate::bound_sources::{BoundSources, ColumnPlace};
use crate::comparisons::ref_kind;
use table_list::same_kind;
use vo_spec::{Join, QueryFault};

/// Where the two columns of ON stand, that of the left source first where one of each is named.
fn join_places(bound_sources: &BoundSources<'_>, join: &Join) -> (ColumnPlace, ColumnPlace)
    ensures { (place_seen result.0, place_seen result.1)
        ≡ join_places (bound_sources_seen bound_sources.now) join.now }
{
    let first = bound_sources.place_of(&join.left_ref);
    let second = bound_sources.place_of(&join.right_ref);
    if first.bound_source == 1 {
        (second, first)
    } else {
        (first, second)
    }
}

fn key_at(bound_sources: &BoundSources<'_>, bound_source: usize) -> usize
    ensures { result ≡ (schema_at (bound_sources_seen bound_sources.now) bound_source).key }
{
    match bound_sources.schema_at(bound_source) {
        Some(schema) => schema.key as usize,
        None => 0,
    }
}

fn is_key_join(bound_sources: &BoundSources<'_>, join: &Join) -> bool
    ensures { result ≡ is_key_join (bound_sources_seen bound_sources.now) join.now }
{
    let (left, right) = join_places(bound_sources, join);
    left.bound_source == 0 && right.bound_source == 1 && right.column == key_at(bound_sources, 1)
}

fn test_on(bound_sources: &BoundSources<'_>, join: &Join) -> Result<(), BindFault>
    ensures { PassesBinding result (join_fault (bound_sources_seen bound_sources.now) join.now) }
{
    if !is_key_join(bound_sources, join) {
        return Err(BindFault::Wrong(QueryFault::NotKeyJoin));
    }
    if !same_kind(
        ref_kind(bound_sources, &join.left_ref),
        ref_kind(bound_sources, &join.right_ref),
    ) {
        return Err(BindFault::Wrong(QueryFault::TypeMismatch));
    }
    Ok(())
}

pub(crate) fn test_join(
    bound_sources: &BoundSources<'_>,
    join: &Option<Join>,
) -> Result<(), BindFault>
    ensures { PassesBinding result (first_some
        (map (join_fault (bound_sources_seen bound_sources.now)) (option_to_list join.now))) }
{
    match join {
        None => Ok(()),
        Some(join) => test_on(bound_sources, join),
    }
}
