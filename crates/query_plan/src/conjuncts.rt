//! The conjuncts of a condition: those on left columns alone, and the others.
ghost use Rattle.std.specs.Prelude.{◌≡◌, ◌++◌, [], map, option_map, if◌then◌else◌, IfOk, OnOk};
ghost use Rattle.std.specs.Option.{option_map_or};
ghost use Rattle.std.specs.List.{list_all};
ghost use Rattle.vo_spec.specs.Conditions.{of_tests_in};
ghost use Rattle.query_plan.specs.BoundConditions.{is_left_place, is_on_left, term_places, test_places, one_where, conjuncts_where, all_where};
ghost use Rattle.query_plan.specs.BoundViews.{term_seen, test_seen, parts_seen, condition_seen, conjunct_seen};

use crate::bound_cond::{BoundCond, BoundOperand, BoundTest, Conjunct};
use std::alloc::{AllocError, Global};

/// Whether the condition is on left columns alone.
#[cycle(left)]
fn is_on_left(cond: &BoundCond<'_>) -> bool
    ensures { result ≡ is_on_left (condition_seen cond.now) }
{
    match cond {
        BoundCond::All(parts) | BoundCond::Any(parts) => are_on_left(parts.as_slice()),
        BoundCond::Not(part) => is_on_left(part),
        BoundCond::Test(test) => is_test_on_left(test),
    }
}

#[cycle(left)]
fn are_on_left(parts: &[BoundCond<'_>]) -> bool
    ensures { result ≡ list_all is_left_place
        (of_tests_in test_places (parts_seen (map condition_seen parts.now))) }
{
    for part in parts {
        if !is_on_left(part) {
            return false;
        }
    }
    true
}

fn is_test_on_left(test: &BoundTest<'_>) -> bool
    ensures { result ≡ list_all is_left_place (test_places (test_seen test.now)) }
{
    match test {
        BoundTest::Comparison { left, right, .. } => {
            left.bound_source == 0 && is_operand_on_left(right)
        },
        BoundTest::IsNull { left, .. } => left.bound_source == 0,
    }
}

fn is_operand_on_left(operand: &BoundOperand<'_>) -> bool
    ensures { result ≡ list_all is_left_place (term_places (term_seen operand.now)) }
{
    match operand {
        BoundOperand::Column(place) => place.bound_source == 0,
        BoundOperand::Literal(_) => true,
    }
}

/// Puts a conjunct at the end, if it is one of those that are asked for.
fn put_one<'c, 'q>(
    cond: &'c BoundCond<'q>,
    on_left: bool,
    out: &mut Vec<Conjunct<'c, 'q>>,
) -> Result<(), AllocError>
    ensures { OnOk result (map conjunct_seen out.new.items ≡ map conjunct_seen out.old.items
        ++ one_where on_left (condition_seen cond.now)) }
{
    if is_on_left(cond) == on_left {
        out.push(Conjunct { cond })?;
    }
    Ok(())
}

#[cycle(conjuncts)]
fn put_conjuncts<'c, 'q>(
    cond: &'c BoundCond<'q>,
    on_left: bool,
    out: &mut Vec<Conjunct<'c, 'q>>,
) -> Result<(), AllocError>
    ensures { OnOk result (map conjunct_seen out.new.items ≡ map conjunct_seen out.old.items
        ++ conjuncts_where on_left (condition_seen cond.now)) }
{
    match cond {
        BoundCond::All(parts) => put_parts(parts.as_slice(), on_left, out),
        BoundCond::Any(_) | BoundCond::Not(_) | BoundCond::Test(_) => {
            put_one(cond, on_left, out)
        },
    }
}

#[cycle(conjuncts)]
fn put_parts<'c, 'q>(
    parts: &'c [BoundCond<'q>],
    on_left: bool,
    out: &mut Vec<Conjunct<'c, 'q>>,
) -> Result<(), AllocError>
    ensures { OnOk result (map conjunct_seen out.new.items ≡ map conjunct_seen out.old.items
        ++ all_where on_left (parts_seen (map condition_seen parts.now))) }
{
    for part in parts {
        put_conjuncts(part, on_left, out)?;
    }
    Ok(())
}

/// The conjuncts of the condition that are on left columns alone, or those that aren't.
pub fn conjuncts_of<'c, 'q>(
    alloc: Global,
    cond: &'c Option<BoundCond<'q>>,
    on_left: bool,
) -> Result<Vec<Conjunct<'c, 'q>>, AllocError>
    ensures { IfOk result (λ conds. map conjunct_seen conds.items
        ≡ option_map_or (conjuncts_where on_left) (option_map condition_seen cond.now) []) }
{
    let mut conds = Vec::new(alloc);
    if let Some(cond) = cond {
        put_conjuncts(cond, on_left, &mut conds)?;
    }
    Ok(conds)
}
