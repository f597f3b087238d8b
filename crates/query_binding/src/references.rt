//! Whether a query's references each name one column of its sources.
ghost use Rattle.std.specs.Prelude.{◌≡◌, [], ◌∷◌, map, option_map, IfOk};
ghost use Rattle.std.specs.Option.{option_map_or};
ghost use Rattle.vo_spec.specs.Firsts.{first_some};
ghost use Rattle.vo_spec.specs.Conditions.{condition_of, conditions, of_tests_in, test_refs, condition_refs, operand_refs};
ghost use Rattle.vo_spec.specs.Results.{ref_fault, qualifier_of, item_refs, join_refs};
ghost use Rattle.query_binding.specs.HeldSources.{bound_sources_seen};
ghost use Rattle.query_binding.specs.Binding.{PassesBinding};

use crate::bind_fault::BindFault;
use crate::bound_sources::BoundSources;
use std::alloc::{AllocError, Global};
use vo_spec::{Cond, Items, Join, Name, Operand, QueryFault, Ref};

fn copy_ref(alloc: Global, reference: &Ref) -> Result<Ref, AllocError>
    ensures { IfOk result (λ copy. copy ≡ reference.now) }
{
    let qualifier = match &reference.qualifier {
        Some(qualifier) => Some(qualifier.copy(alloc)?),
        None => None,
    };
    Ok(Ref {
        qualifier,
        column: reference.column.copy(alloc)?,
    })
}

fn qualifier_of(alloc: Global, reference: &Ref) -> Result<Name, AllocError>
    ensures { IfOk result (λ name. name ≡ qualifier_of reference.now) }
{
    match &reference.qualifier {
        Some(qualifier) => qualifier.copy(alloc),
        None => Ok(Name::from_vec(Vec::new(alloc))),
    }
}

pub(crate) fn test_ref(
    alloc: Global,
    bound_sources: &BoundSources<'_>,
    reference: &Ref,
) -> Result<(), BindFault>
    ensures { PassesBinding result
        (ref_fault (bound_sources_seen bound_sources.now) reference.now) }
{
    if !bound_sources.qualify(reference) {
        let fault = QueryFault::NoTable(qualifier_of(alloc, reference)?);
        return Err(BindFault::Wrong(fault));
    }
    if !bound_sources.mean_column_of(reference) {
        let fault = QueryFault::NoColumn(copy_ref(alloc, reference)?);
        return Err(BindFault::Wrong(fault));
    }
    if bound_sources.are_ambiguous(reference) {
        let fault = QueryFault::Ambiguous(copy_ref(alloc, reference)?);
        return Err(BindFault::Wrong(fault));
    }
    Ok(())
}

fn test_refs(
    alloc: Global,
    bound_sources: &BoundSources<'_>,
    references: &[Ref],
) -> Result<(), BindFault>
    ensures { PassesBinding result
        (first_some (map (ref_fault (bound_sources_seen bound_sources.now)) references.now)) }
{
    for reference in references {
        match test_ref(alloc, bound_sources, reference) {
            Ok(()) => {}
            Err(fault) => return Err(fault),
        }
    }
    Ok(())
}

pub(crate) fn test_items(
    alloc: Global,
    bound_sources: &BoundSources<'_>,
    items: &Items,
) -> Result<(), BindFault>
    ensures { PassesBinding result (first_some
        (map (ref_fault (bound_sources_seen bound_sources.now)) (item_refs items.now))) }
{
    match items {
        Items::All => Ok(()),
        Items::Refs(references) => test_refs(alloc, bound_sources, references.as_slice()),
    }
}

pub(crate) fn test_join_refs(
    alloc: Global,
    bound_sources: &BoundSources<'_>,
    join: &Option<Join>,
) -> Result<(), BindFault>
    ensures { PassesBinding result (first_some
        (map (ref_fault (bound_sources_seen bound_sources.now))
        (option_map_or join_refs join.now []))) }
{
    match join {
        None => Ok(()),
        Some(join) => match test_ref(alloc, bound_sources, &join.left_ref) {
            Ok(()) => test_ref(alloc, bound_sources, &join.right_ref),
            Err(fault) => Err(fault),
        },
    }
}

fn test_operand(
    alloc: Global,
    bound_sources: &BoundSources<'_>,
    operand: &Operand,
) -> Result<(), BindFault>
    ensures { PassesBinding result (first_some
        (map (ref_fault (bound_sources_seen bound_sources.now)) (operand_refs operand.now))) }
{
    match operand {
        Operand::Ref(reference) => test_ref(alloc, bound_sources, reference),
        Operand::Literal(_) => Ok(()),
    }
}

fn test_compared(
    alloc: Global,
    bound_sources: &BoundSources<'_>,
    left: &Ref,
    right: &Operand,
) -> Result<(), BindFault>
    ensures { PassesBinding result (first_some
        (ref_fault (bound_sources_seen bound_sources.now) left.now
        ∷ map (ref_fault (bound_sources_seen bound_sources.now)) (operand_refs right.now))) }
{
    match test_ref(alloc, bound_sources, left) {
        Ok(()) => test_operand(alloc, bound_sources, right),
        Err(fault) => Err(fault),
    }
}

/// Tests the references of a condition in the order of its text.
#[cycle(condition_references)]
fn test_condition(
    alloc: Global,
    bound_sources: &BoundSources<'_>,
    cond: &Cond,
) -> Result<(), BindFault>
    ensures { PassesBinding result (first_some
        (map (ref_fault (bound_sources_seen bound_sources.now))
        (condition_refs (condition_of cond.now)))) }
{
    match cond {
        Cond::All(parts) => test_parts(alloc, bound_sources, parts.as_slice()),
        Cond::Any(parts) => test_parts(alloc, bound_sources, parts.as_slice()),
        Cond::Not(part) => test_condition(alloc, bound_sources, part),
        Cond::Test { left, right, .. } => test_compared(alloc, bound_sources, left, right),
        Cond::IsNull { left, .. } => test_ref(alloc, bound_sources, left),
    }
}

#[cycle(condition_references)]
fn test_parts(
    alloc: Global,
    bound_sources: &BoundSources<'_>,
    parts: &[Cond],
) -> Result<(), BindFault>
    ensures { PassesBinding result (first_some
        (map (ref_fault (bound_sources_seen bound_sources.now))
        (of_tests_in test_refs (conditions (map condition_of parts.now))))) }
{
    for part in parts {
        match test_condition(alloc, bound_sources, part) {
            Ok(()) => {}
            Err(fault) => return Err(fault),
        }
    }
    Ok(())
}

pub(crate) fn test_condition_refs(
    alloc: Global,
    bound_sources: &BoundSources<'_>,
    cond: &Option<Cond>,
) -> Result<(), BindFault>
    ensures { PassesBinding result (first_some
        (map (ref_fault (bound_sources_seen bound_sources.now))
        (option_map_or condition_refs (option_map condition_of cond.now) []))) }
{
    match cond {
        None => Ok(()),
        Some(cond) => test_condition(alloc, bound_sources, cond),
    }
}
