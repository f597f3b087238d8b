//! A bound query means what the query means by names, and so does its plan, over trees and over
//! plain tables.
ghost use Rattle.std.specs.Prelude.{◌≡◌, true, List};
ghost use Rattle.std.specs.Option.{option_map_or};
ghost use Rattle.vo_spec.specs.declared.queries.Join.{Join};
ghost use Rattle.vo_spec.specs.declared.needs.SeenRow.{SeenRow};
ghost use Rattle.vo_spec.specs.declared.tables.Table.{Table};
ghost use Rattle.vo_spec.specs.Conditions.{Query, is_met};
ghost use Rattle.vo_spec.specs.Results.{BoundSource, RowView, place_value, ref_value, answer_rows, row_views_at};
ghost use Rattle.vo_spec.specs.Trees.{RowTree};
ghost use Rattle.vo_spec.specs.Needs.{uncut_need, meets_row, left_need, right_need as right_need_by_names, has_join_value as has_value_by_names, meets_left as meets_by_names};
ghost use Rattle.query_plan.specs.BoundConditions.{holds};
ghost use Rattle.query_plan.specs.BoundQueries.{bound_join, bound_query};
ghost use Rattle.query_plan.specs.Plans.{plan_of, plan_need, has_join_value, right_need_of, meets_left, plan_meets};
ghost use Rattle.query_plan.specs.Answers.{plain_rows};

/// Rows meet the condition of a bound query where they meet that of the query.
pub fn bindings_keep_conditions()
    ensures { (ss : List BoundSource) (q : Query) (rows : List RowView)
        → option_map_or (holds (place_value rows)) (bound_query ss q).condition true
        ≡ is_met (ref_value ss rows) q.condition }
{}

/// A plan needs what its query needs of the left tree, and of the right one for each left row that
/// has a value for ON, as its query says which do; and it keeps the left rows that its query keeps,
/// and counts the rows of the left tree that its query counts.
pub fn plans_keep_needs()
    ensures uncut { (ss : List BoundSource) (q : Query)
        → (plan_of (bound_query ss q)).uncut_need ≡ uncut_need ss q }
    ensures left { (ss : List BoundSource) (q : Query) (left : RowTree)
        → plan_need (plan_of (bound_query ss q)) left ≡ left_need ss q left }
    ensures right { (ss : List BoundSource) (q : Query) (j : Join) (row_view : RowView)
        → right_need_of (plan_of (bound_query ss q)) (bound_join ss j) row_view
        ≡ right_need_by_names ss q j row_view }
    ensures valued { (ss : List BoundSource) (j : Join) (row_view : RowView)
        → has_join_value (bound_join ss j) row_view ≡ has_value_by_names ss j row_view }
    ensures kept { (ss : List BoundSource) (q : Query) (row_view : RowView)
        → meets_left (plan_of (bound_query ss q)) row_view ≡ meets_by_names ss q row_view }
    ensures meets { (ss : List BoundSource) (q : Query) (row : SeenRow)
        → plan_meets (plan_of (bound_query ss q)) row ≡ meets_row ss q row }
{}

/// Over plain tables a plan gives the rows that its query gives.
pub fn plans_keep_results()
    ensures { (ss : List BoundSource) (q : Query) (tables : List Table)
        → plain_rows (plan_of (bound_query ss q)) tables
        ≡ answer_rows ss q (row_views_at tables ss 0) (λ left. row_views_at tables ss 1) }
{}
