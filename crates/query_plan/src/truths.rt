//! When rows of a query's sources meet a bound condition. A truth is None where it is unknown.
ghost use Rattle.std.specs.Prelude.{◌≡◌, map, drop};
ghost use Rattle.vo_spec.specs.Lent.{value_of};
ghost use Rattle.vo_spec.specs.Conditions.{is_true, opposite, truth_of_all, truth_of_any};
ghost use Rattle.query_binding.specs.HeldSources.{place_seen};
ghost use Rattle.query_plan.specs.BoundConditions.{term_value, bound_test_truth, bound_truth, all_hold};
ghost use Rattle.query_plan.specs.BoundViews.{term_seen, test_seen, parts_seen, condition_seen, conjunct_seen};

use crate::bound_cond::{BoundCond, BoundOperand, BoundTest, Conjunct};
use crate::comparisons::comparison_truth;
use crate::rows::PlaceValues;
use vo_spec::ValueRef;

/// Whether it is true: neither false nor unknown.
pub(crate) fn is_true(truth: Option<bool>) -> bool
    ensures { result ≡ is_true truth }
{
    truth.unwrap_or(false)
}

/// True and false exchanged, unknown kept.
fn opposite(truth: Option<bool>) -> Option<bool>
    ensures { result ≡ opposite truth }
{
    truth.map(|holds| !holds)
}

fn operand_value<'r, V: PlaceValues>(operand: &'r BoundOperand<'r>, rows: &'r V) -> ValueRef<'r>
    ensures { value_of result ≡ term_value (V.values rows.now) (term_seen operand.now) }
{
    match operand {
        BoundOperand::Column(place) => rows.value(*place),
        BoundOperand::Literal(value) => *value,
    }
}

/// The truth of the test of the rows.
fn test_truth<V: PlaceValues>(test: &BoundTest<'_>, rows: &V) -> Option<bool>
    ensures { result ≡ bound_test_truth (V.values rows.now) (test_seen test.now) }
{
    match test {
        BoundTest::Comparison { left, op, right } => {
            comparison_truth(*op, rows.value(*left), operand_value(right, rows))
        },
        BoundTest::IsNull { left, negated } => Some(rows.value(*left).is_null() != *negated),
    }
}

/// The truth of the condition of the rows.
#[cycle(truth)]
fn truth<V: PlaceValues>(cond: &BoundCond<'_>, rows: &V) -> Option<bool>
    ensures { result ≡ bound_truth (V.values rows.now) (condition_seen cond.now) }
{
    match cond {
        BoundCond::All(parts) => truth_of_all(parts.as_slice(), rows),
        BoundCond::Any(parts) => truth_of_any(parts.as_slice(), rows),
        BoundCond::Not(part) => opposite(truth(part, rows)),
        BoundCond::Test(test) => test_truth(test, rows),
    }
}

/// False where a part is, else unknown where a part is.
#[cycle(truth)]
fn truth_of_all<V: PlaceValues>(parts: &[BoundCond<'_>], rows: &V) -> Option<bool>
    ensures { result ≡ truth_of_all (bound_test_truth (V.values rows.now))
        (parts_seen (map condition_seen parts.now)) }
{
    let mut known = true;
    for part in parts {
        match truth(part, rows) {
            Some(true) => {},
            Some(false) => return Some(false),
            None => known = false,
        }
    }
    known.then_some(true)
}

/// True where a part is, else unknown where a part is.
#[cycle(truth)]
fn truth_of_any<V: PlaceValues>(parts: &[BoundCond<'_>], rows: &V) -> Option<bool>
    ensures { result ≡ truth_of_any (bound_test_truth (V.values rows.now))
        (parts_seen (map condition_seen parts.now)) }
{
    let mut known = true;
    for part in parts {
        match truth(part, rows) {
            Some(true) => return Some(true),
            Some(false) => {},
            None => known = false,
        }
    }
    known.then_some(false)
}

/// Whether all of these conjuncts are true of the rows.
pub fn all_hold<V: PlaceValues>(conjuncts: &[Conjunct<'_, '_>], rows: &V) -> bool
    ensures { result ≡ all_hold (V.values rows.now) (map conjunct_seen conjuncts.now) }
{
    for conjunct in conjuncts {
        if !is_true(truth(conjunct.cond, rows)) {
            return false;
        }
    }
    true
}
