//! What a plan shows of trees and needs of them is what its query does, by the definitions that a
//! client's tests cite.
ghost use Rattle.std.specs.Prelude.{◌≡◌, List, [], ◌∷◌, length, zip, IsTrue};
ghost use Rattle.std.specs.List.{list_any};
ghost use Rattle.vo_spec.specs.Tables.{TableHeader};
ghost use Rattle.vo_spec.specs.Conditions.{Query};
ghost use Rattle.vo_spec.specs.Results.{BoundSource, answer_rows, bound_sources};
ghost use Rattle.vo_spec.specs.Trees.{RowTree};
ghost use Rattle.vo_spec.specs.Pruning.{is_missing};
ghost use Rattle.vo_spec.specs.Needs.{needs, right_needs, seen_lefts, seen_rights, tables_used};
ghost use Rattle.query_plan.specs.BoundQueries.{bound_query};
ghost use Rattle.query_plan.specs.Plans.{plan_of};
ghost use Rattle.plan_run.specs.Running.{lefts_seen, needs_of, run_needs, run_rows, stops};

/// A run of a query's plan gives the rows that the query shows of the trees and what it needs of
/// each, and so does the left tree alone what is needed of the right one. Where a run stops, a tree
/// is missing something of what the query needs: the sources of a query with a join are two, and
/// each table's tree is there.
pub fn plans_run_as_their_queries()
    ensures rows { (ss : List BoundSource) (q : Query) (trees : List RowTree)
        → run_rows (plan_of (bound_query ss q)) trees
        ≡ answer_rows ss q (seen_lefts ss q trees) (seen_rights ss q trees) }
    ensures needs { (ss : List BoundSource) (q : Query) (trees : List RowTree)
        → run_needs (plan_of (bound_query ss q)) trees ≡ needs ss q trees }
    ensures rights { (ss : List BoundSource) (q : Query) (left : RowTree)
        → let p = plan_of (bound_query ss q) in
        needs_of p (lefts_seen p left) ≡ right_needs ss q (left ∷ []) }
    ensures stops { (headers : List TableHeader) (q : Query) (trees : List RowTree)
        → let ss = bound_sources headers q in
        length trees ≡ length (tables_used ss)
        → IsTrue (stops (plan_of (bound_query ss q)) trees)
        → IsTrue (list_any (λ t. is_missing t.0 t.1) (zip (needs ss q trees) trees)) }
{}
