//! The rows that a bound query shows of rows of its sources, whoever saw these.
ghost use Rattle.std.specs.Prelude.{◌≡◌, ◌++◌, [], ◌∷◌, map, option_map, IfOk, OnOk, OnErr};
ghost use Rattle.vo_spec.specs.Results.{place_value, first_rows};
ghost use Rattle.query_binding.specs.HeldSources.{place_seen};
ghost use Rattle.query_plan.specs.BoundViews.{conjunct_seen, join_seen, query_seen};
ghost use Rattle.query_plan.specs.Answers.{BeginsWith, are_joined, answer_at, pair_answers};

use crate::bound_cond::Conjunct;
use crate::bound_query::{BoundJoin, Query};
use crate::comparisons::comparison_truth;
use crate::row_views::RowView;
use crate::rows::{LeftRow, PlaceValues, RowPair};
use crate::truths::{all_hold, is_true};
use query_binding::ColumnPlace;
use std::alloc::{AllocError, Global};
use vo_spec::{Cmp, List, Value};

fn are_joined<V: PlaceValues>(rows: &V, join: &Option<BoundJoin>) -> bool
    ensures { result ≡ are_joined (V.values rows.now) (option_map join_seen join.now) }
{
    match join {
        None => true,
        Some(join) => is_true(comparison_truth(
            Cmp::Eq,
            rows.value(join.first),
            rows.value(join.second),
        )),
    }
}

/// What stands at each of the places.
fn project<V: PlaceValues>(
    alloc: Global,
    rows: &V,
    places: &[ColumnPlace],
) -> Result<List<Value>, AllocError>
    ensures { IfOk result (λ values. values ≡ map (V.values rows.now) (map place_seen places.now)) }
{
    let mut values = Vec::with_capacity(alloc, places.len())?;
    for place in places {
        values.push(rows.value(*place).to_value(alloc)?)?;
    }
    Ok(List::from_vec(values))
}

/// Puts what the query shows of rows that meet the left condition at the end of the answer, where
/// they are joined and meet the late condition.
fn push_answer<V: PlaceValues>(
    alloc: Global,
    query: &Query<'_>,
    late: &[Conjunct<'_, '_>],
    rows: &V,
    out: &mut Vec<List<Value>>,
) -> Result<(), AllocError>
    ensures done { OnOk result (out.new.items ≡ out.old.items
        ++ answer_at (query_seen query.now) (map conjunct_seen late.now) (V.values rows.now)) }
    ensures kept { OnErr result (out.new.items ≡ out.old.items) }
{
    if are_joined(rows, &query.join) && all_hold(late, rows) {
        out.push(project(alloc, rows, &query.output)?)?;
    }
    Ok(())
}

/// Puts what the query shows of a left row alone at the end of the answer.
pub fn push_alone<L: RowView>(
    alloc: Global,
    query: &Query<'_>,
    late: &[Conjunct<'_, '_>],
    left: &L,
    out: &mut Vec<List<Value>>,
) -> Result<(), AllocError>
    ensures done { OnOk result (out.new.items ≡ out.old.items
        ++ answer_at (query_seen query.now) (map conjunct_seen late.now)
        (place_value (L.row_view left.now ∷ []))) }
    ensures kept { OnErr result (out.new.items ≡ out.old.items) }
{
    push_answer(alloc, query, late, &LeftRow { left }, out)
}

/// Puts what the query shows of a left row beside a right row at the end of the answer.
pub fn push_pair<'r, L: RowView, R: RowView>(
    alloc: Global,
    query: &Query<'_>,
    late: &[Conjunct<'_, '_>],
    left: &'r L,
    right: &'r R,
    out: &mut Vec<List<Value>>,
) -> Result<(), AllocError>
    ensures done { OnOk result (out.new.items ≡ out.old.items
        ++ answer_at (query_seen query.now) (map conjunct_seen late.now)
        (place_value (L.row_view left.now ∷ R.row_view right.now ∷ []))) }
    ensures kept { OnErr result (out.new.items ≡ out.old.items) }
{
    push_answer(alloc, query, late, &RowPair { left, right }, out)
}

/// Puts what the query shows of a left row beside each of its right rows at the end of the answer.
pub fn push_pairs<L: RowView, R: RowView>(
    alloc: Global,
    query: &Query<'_>,
    late: &[Conjunct<'_, '_>],
    left: &L,
    rights: &[R],
    out: &mut Vec<List<Value>>,
) -> Result<(), AllocError>
    ensures done { OnOk result (out.new.items ≡ out.old.items
        ++ pair_answers (query_seen query.now) (map conjunct_seen late.now)
        (map R.row_view rights.now)
        (L.row_view left.now)) }
    ensures begun { OnErr result (BeginsWith out.old.items out.new.items) }
{
    for right in rights {
        push_pair(alloc, query, late, &*left, right, out)?;
    }
    Ok(())
}

/// Leaves the first rows of an answer, no more than are wanted.
pub fn keep_first_rows(limit: Option<u32>, rows: &mut Vec<List<Value>>)
    ensures { rows.new.items ≡ first_rows limit rows.old.items }
{
    if let Some(wanted) = limit {
        rows.truncate(wanted as usize);
    }
}
