//! The trees of a reply: those of the query's tables, with open what it needs of each.
ghost use Rattle.std.specs.Prelude.{◌≡◌, ◌≤◌, [], ◌∷◌, None, Some, length, IfOk};
ghost use Rattle.vo_spec.specs.Batches.{max_columns};
ghost use Rattle.vo_spec.specs.Conditions.{query_of};
ghost use Rattle.vo_spec.specs.Results.{schema_at};
ghost use Rattle.vo_spec.specs.Scans.{seen};
ghost use Rattle.vo_spec.specs.Pruning.{prune_tree};
ghost use Rattle.vo_spec.specs.Honest.{catalog_of, stored_tree};
ghost use Rattle.mb_tree.specs.View.{part_of};
ghost use Rattle.query_binding.specs.HeldSources.{bound_sources_seen};
ghost use Rattle.query_plan.specs.BoundViews.{query_seen};
ghost use Rattle.query_plan.specs.Plans.{plan_of, plan_need};
ghost use Rattle.query_plan.specs.PlanViews.{plan_seen};
ghost use Rattle.plan_run.specs.Running.{lefts_seen, needs_of};
ghost use Rattle.stored_tables.specs.Representation.{IsStanding};
ghost use Rattle.vo_format.specs.View.{row_trees_of};
ghost use Rattle.vo_store.specs.Proving.{HasTable, HasTables, tree_by, left_need_by, plan_proofs, proofs_of};

use mb_tree::{PartTree, Subtree, Tree};
use plan_run::{left_need, right_needs};
use query_plan::{BindFault, BoundSource, Plan, Query, bind, plan, same_table};
use range_proof::prune;
use std::alloc::{AllocError, Global};
use std::slice;
use stored_tables::StoredTables;
use vo_spec::{Catalog, Name, Need, QueryText, ScanFault};

fn tree_of<'t>(tables: &'t StoredTables, name: &Name) -> &'t Tree
    requires { HasTable tables.now name.now }
    ensures { result.now ≡ stored_tree tables.now name.now }
{
    match tables.find(name.as_bytes()) {
        Some(table) => &table.tree,
        None => unreachable!(),
    }
}

/// What the query needs of the right tree, by the left one, which is whole.
fn needs_by_left(
    alloc: Global,
    plan: &Plan<'_, '_>,
    left: &Subtree,
) -> Result<Vec<Need>, AllocError>
    requires shown { seen (plan_need (plan_seen plan.now) left.now) left.now ≡ None → ⊥ }
    ensures { IfOk result (λ needs. needs.items
        ≡ needs_of (plan_seen plan.now) (lefts_seen (plan_seen plan.now) left.now)) }
{
    match right_needs(alloc, plan, left) {
        Ok(needs) => Ok(needs),
        Err(ScanFault::Missing) => unreachable!(),
        Err(ScanFault::Memory) => Err(AllocError),
    }
}

/// The proof of a table that is joined with itself, for all needs.
fn proof_of_both<'t>(
    alloc: Global,
    tree: &'t Tree,
    left: Need,
    rights: Vec<Need>,
) -> Result<PartTree<'t>, AllocError>
    ensures { IfOk result (λ proof. part_of proof ≡ prune_tree (left ∷ rights.items) tree.now) }
{
    let mut needs = rights;
    needs.insert(0, left)?;
    prune(alloc, tree, &needs)
}

fn one_proof(alloc: Global, proof: PartTree<'_>) -> Result<Vec<PartTree<'_>>, AllocError>
    ensures { IfOk result (λ proofs. row_trees_of proofs ≡ part_of proof.entry ∷ []) }
{
    let mut proofs = Vec::new(alloc);
    proofs.push(proof)?;
    Ok(proofs)
}

fn two_proofs<'t>(
    alloc: Global,
    left: PartTree<'t>,
    right: PartTree<'t>,
) -> Result<Vec<PartTree<'t>>, AllocError>
    ensures { IfOk result (λ proofs. row_trees_of proofs ≡ part_of left.entry ∷ part_of right.entry
        ∷ []) }
{
    let mut proofs = Vec::new(alloc);
    proofs.push(left)?;
    proofs.push(right)?;
    Ok(proofs)
}

/// The proofs of a table that is joined with itself: one.
fn proofs_of_both<'t>(
    alloc: Global,
    tree: &'t Tree,
    left: Need,
    rights: Vec<Need>,
) -> Result<Vec<PartTree<'t>>, AllocError>
    ensures { IfOk result (λ proofs. row_trees_of proofs ≡ prune_tree (left ∷ rights.items) tree.now
        ∷ []) }
{
    let proof = proof_of_both(alloc, tree, left, rights)?;
    one_proof(alloc, proof)
}

/// The proofs of two tables, each for its needs.
fn proofs_of_each<'t>(
    alloc: Global,
    left: &'t Tree,
    need: &Need,
    right: &'t Tree,
    rights: &[Need],
) -> Result<Vec<PartTree<'t>>, AllocError>
    ensures { IfOk result (λ proofs. row_trees_of proofs ≡ prune_tree (need.now ∷ []) left.now
        ∷ prune_tree rights.now right.now ∷ []) }
{
    let left = prune(alloc, left, slice::from_ref(need))?;
    let right = prune(alloc, right, rights)?;
    two_proofs(alloc, left, right)
}

/// The proofs of a query of one table.
fn proofs_of_one<'t>(
    alloc: Global,
    plan: &Plan<'_, '_>,
    tree: &'t Tree,
) -> Result<Vec<PartTree<'t>>, AllocError>
    ensures { IfOk result (λ proofs. row_trees_of proofs
        ≡ prune_tree (plan_need (plan_seen plan.now) tree.now ∷ []) tree.now ∷ []) }
{
    let need = left_need(alloc, plan, tree.root())?;
    let proof = prune(alloc, tree, slice::from_ref(&need))?;
    one_proof(alloc, proof)
}

/// The proofs of a join, whose needs are found on the left tree.
fn joined_proofs<'t>(
    alloc: Global,
    tables: &'t StoredTables,
    plan: &Plan<'_, '_>,
    right: &BoundSource<'_>,
    left: &'t Tree,
) -> Result<Vec<PartTree<'t>>, AllocError>
    requires right { HasTable tables.now right.now.table.now }
    requires joined { plan.now.query.now.bound_sources.right ≡ Some right.now }
    requires tree { left.now ≡ tree_by (plan_seen plan.now) tables.now 0 }
    requires shown { seen (plan_need (plan_seen plan.now) left.now) left.now ≡ None → ⊥ }
    ensures { IfOk result (λ trees. row_trees_of trees
        ≡ plan_proofs (plan_seen plan.now) tables.now) }
{
    let root = left.root();
    let need = left_need(alloc, plan, root)?;
    let rights = needs_by_left(alloc, plan, root)?;
    if same_table(&plan.query.bound_sources) {
        proofs_of_both(alloc, left, need, rights)
    } else {
        proofs_of_each(alloc, left, &need, tree_of(tables, right.table), &rights)
    }
}

/// The proofs of a plan.
fn plan_proofs<'t>(
    alloc: Global,
    tables: &'t StoredTables,
    plan: &Plan<'_, '_>,
) -> Result<Vec<PartTree<'t>>, AllocError>
    requires tables { HasTables tables.now (bound_sources_seen plan.now.query.now.bound_sources) }
    requires shown { let p = plan_seen plan.now in
        seen (left_need_by p tables.now) (tree_by p tables.now 0) ≡ None → ⊥ }
    ensures { IfOk result (λ trees. row_trees_of trees
        ≡ plan_proofs (plan_seen plan.now) tables.now) }
{
    let query = plan.query;
    let left = tree_of(tables, query.bound_sources.left.table);
    match &query.bound_sources.right {
        Some(right) => joined_proofs(alloc, tables, plan, right, left),
        None => proofs_of_one(alloc, plan, left),
    }
}

/// The proofs of a query that binds.
fn bound_proofs<'t>(
    alloc: Global,
    tables: &'t StoredTables,
    query: &Query<'_>,
) -> Result<Vec<PartTree<'t>>, AllocError>
    requires tables { HasTables tables.now (bound_sources_seen query.now.bound_sources) }
    requires left { length (schema_at (bound_sources_seen query.now.bound_sources) 0).columns ≤
        max_columns }
    requires right { length (schema_at (bound_sources_seen query.now.bound_sources) 1).columns ≤
        max_columns }
    requires shown { let p = plan_of (query_seen query.now) in
        seen (left_need_by p tables.now) (tree_by p tables.now 0) ≡ None → ⊥ }
    ensures { IfOk result (λ trees. row_trees_of trees
        ≡ plan_proofs (plan_of (query_seen query.now)) tables.now) }
{
    let plan = plan(alloc, query)?;
    plan_proofs(alloc, tables, &plan)
}

/// The proofs of a reply: none for a query that the catalog doesn't bear out.
pub(crate) fn proofs_for<'t, 'q>(
    alloc: Global,
    tables: &'t StoredTables,
    catalog: &'q Catalog,
    query: &'q QueryText,
) -> Result<Vec<PartTree<'t>>, AllocError>
    requires standing { IsStanding tables.now }
    requires catalog { catalog.now ≡ catalog_of tables.now }
    ensures { IfOk result (λ trees. row_trees_of trees
        ≡ proofs_of (query_of query.now) tables.now) }
{
    match bind(alloc, catalog, query) {
        Ok(query) => bound_proofs(alloc, tables, &query),
        Err(BindFault::Wrong(_)) => Ok(Vec::new(alloc)),
        Err(BindFault::Memory) => Err(AllocError),
    }
}
