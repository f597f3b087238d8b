//! Whether the two sides of each comparison are of one kind.
ghost use Rattle.std.specs.Prelude.{◌≡◌, [], ◌∷◌, map, option_map};
ghost use Rattle.std.specs.Option.{option_map_or};
ghost use Rattle.vo_spec.specs.Firsts.{first_some};
ghost use Rattle.vo_spec.specs.Conditions.{condition_of, conditions, of_tests_in, sides, comparisons};
ghost use Rattle.vo_spec.specs.Results.{ref_kind, is_operand_of, kind_fault};
ghost use Rattle.query_binding.specs.HeldSources.{bound_sources_seen};
ghost use Rattle.query_binding.specs.Binding.{PassesBinding};

use crate::bind_fault::BindFault;
use crate::bound_sources::BoundSources;
use table_list::{same_kind, takes};
use vo_spec::{Cond, Kind, Operand, QueryFault, Ref};

pub(crate) fn ref_kind(bound_sources: &BoundSources<'_>, reference: &Ref) -> Kind
    ensures { result ≡ ref_kind (bound_sources_seen bound_sources.now) reference.now }
{
    bound_sources.kind_at(bound_sources.place_of(reference))
}

/// Whether the right side is of the kind. NULL is of each.
fn is_operand_of(bound_sources: &BoundSources<'_>, kind: Kind, operand: &Operand) -> bool
    ensures { result ≡ is_operand_of (bound_sources_seen bound_sources.now) kind operand.now }
{
    match operand {
        Operand::Ref(reference) => same_kind(kind, ref_kind(bound_sources, reference)),
        Operand::Literal(value) => takes(kind, value.as_ref()),
    }
}

fn test_kinds(
    bound_sources: &BoundSources<'_>,
    left: &Ref,
    right: &Operand,
) -> Result<(), BindFault>
    ensures { PassesBinding result (first_some
        (kind_fault (bound_sources_seen bound_sources.now) (left.now, right.now) ∷ [])) }
{
    if is_operand_of(bound_sources, ref_kind(bound_sources, left), right) {
        Ok(())
    } else {
        Err(BindFault::Wrong(QueryFault::TypeMismatch))
    }
}

/// Tests the comparisons of a condition in the order of its text.
#[cycle(condition_kinds)]
fn test_condition(bound_sources: &BoundSources<'_>, cond: &Cond) -> Result<(), BindFault>
    ensures { PassesBinding result (first_some
        (map (kind_fault (bound_sources_seen bound_sources.now))
        (comparisons (condition_of cond.now)))) }
{
    match cond {
        Cond::All(parts) => test_parts(bound_sources, parts.as_slice()),
        Cond::Any(parts) => test_parts(bound_sources, parts.as_slice()),
        Cond::Not(part) => test_condition(bound_sources, part),
        Cond::Test { left, right, .. } => test_kinds(bound_sources, left, right),
        Cond::IsNull { .. } => Ok(()),
    }
}

#[cycle(condition_kinds)]
fn test_parts(bound_sources: &BoundSources<'_>, parts: &[Cond]) -> Result<(), BindFault>
    ensures { PassesBinding result (first_some
        (map (kind_fault (bound_sources_seen bound_sources.now))
        (of_tests_in sides (conditions (map condition_of parts.now))))) }
{
    for part in parts {
        match test_condition(bound_sources, part) {
            Ok(()) => {}
            Err(fault) => return Err(fault),
        }
    }
    Ok(())
}

pub(crate) fn test_comparisons(
    bound_sources: &BoundSources<'_>,
    cond: &Option<Cond>,
) -> Result<(), BindFault>
    ensures { PassesBinding result (first_some
        (map (kind_fault (bound_sources_seen bound_sources.now))
        (option_map_or comparisons (option_map condition_of cond.now) []))) }
{
    match cond {
        None => Ok(()),
        Some(cond) => test_condition(bound_sources, cond),
    }
}
