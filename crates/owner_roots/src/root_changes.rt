//! A table followed through a change by the proof of it.
ghost use Rattle.std.specs.Prelude.{◌≡◌, ◌+◌, ◌<◌, ◌^◌, length, map, IfOk};
ghost use Rattle.std.specs.List.{AllByRecursion};
ghost use Rattle.vo_spec.specs.Fits.{FitsPart, FitsTree};
ghost use Rattle.mb_tree.specs.View.{part_of};
ghost use Rattle.row_works.specs.Operations.{changed_count};
ghost use Rattle.owner_roots.specs.Next.{proof_fault, table_after, table_by_change};
ghost use Rattle.owner_roots.specs.Seen.{table_with};
ghost use Rattle.row_works.specs.Limits.{FitsOp};
ghost use Rattle.owner_roots.specs.Working.{Gives};

use crate::forms::has_schema_form;
use crate::owner_fault::OwnerFault;
use mb_tree::PartTree;
use row_works::{Op, UpdateFault, apply_to_part, count_after};
use std::alloc::Global;
use update_proof::is_update_proof;
use vo_spec::{CatalogTable, CommandFault, Digest};

/// What a change makes of a table in its catalog.
#[derive(Clone, Copy)]
pub(crate) struct RootAfter {
    pub(crate) rows: u64,
    pub(crate) root: Digest,
}

/// The first test that refuses a tree as the proof of a change of the table.
pub(crate) fn proof_fault(
    index: u64,
    table: &CatalogTable,
    op: &Op<'_>,
    tree: &PartTree<'_>,
) -> Option<OwnerFault>
    requires { FitsPart (part_of tree.now) }
    ensures { result ≡ proof_fault index table.now op.now (part_of tree.now) }
{
    if !has_schema_form(&table.schema, tree) {
        return Some(OwnerFault::ProofForm { index });
    }
    let want = table.root;
    let got = tree.node_digest();
    if want != got {
        return Some(OwnerFault::ProofRoot { index, want, got });
    }
    match is_update_proof(tree, op) {
        Ok(true) => None,
        Ok(false) => Some(OwnerFault::ProofSurplus { index }),
        Err(_) => Some(OwnerFault::ProofMissing { index }),
    }
}

/// The root after a change of the tree of its proof, or the refusal that the proof shows.
fn root_by_change(
    alloc: Global,
    index: u64,
    table: &CatalogTable,
    op: &Op<'_>,
    tree: &PartTree<'_>,
) -> Result<RootAfter, OwnerFault>
    requires op { FitsOp op.now }
    requires tree { FitsPart (part_of tree.now) }
    requires rows { table.now.rows + 1 < 2 ^ 64 }
    ensures answer { Gives (table_with table.now) result
        (table_by_change index table.now op.now (part_of tree.now)) }
    ensures rows { IfOk result (λ after. after.rows ≡ changed_count op.now table.now.rows) }
    ensures root { IfOk result (λ after. length after.root ≡ 32) }
{
    match apply_to_part(alloc, tree, op) {
        Ok(changed) => Ok(RootAfter {
            rows: count_after(op, table.rows),
            root: changed.node_digest(),
        }),
        Err(UpdateFault::DuplicateKey) => Err(OwnerFault::Command {
            index,
            fault: CommandFault::DuplicateKey,
        }),
        Err(UpdateFault::Memory) => Err(OwnerFault::Memory),
        Err(UpdateFault::NoRow | UpdateFault::Missing) => Err(OwnerFault::Command {
            index,
            fault: CommandFault::NoRow,
        }),
    }
}

/// The root after a change, by the first of the trees.
pub(crate) fn root_after(
    alloc: Global,
    index: u64,
    table: &CatalogTable,
    op: &Op<'_>,
    trees: &[PartTree<'_>],
) -> Result<RootAfter, OwnerFault>
    requires op { FitsOp op.now }
    requires trees { AllByRecursion FitsTree (map part_of trees.now) }
    requires rows { table.now.rows + 1 < 2 ^ 64 }
    ensures answer { Gives (table_with table.now) result
        (table_after index table.now op.now (map part_of trees.now)) }
    ensures rows { IfOk result (λ after. after.rows ≡ changed_count op.now table.now.rows) }
    ensures root { IfOk result (λ after. length after.root ≡ 32) }
{
    match trees.first() {
        None => Err(OwnerFault::ProofMissing { index }),
        Some(tree) => match proof_fault(index, table, op, tree) {
            Some(fault) => Err(fault),
            None => root_by_change(alloc, index, table, op, tree),
        },
    }
}
