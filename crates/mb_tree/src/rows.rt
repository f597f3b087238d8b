//! The rows that stand below a subtree, in order.
ghost use Rattle.std.specs.Prelude.{◌≡◌, ◌++◌, OnOk, IfOk, flat_map};
ghost use Rattle.vo_spec.specs.Trees.{open_parts};
ghost use Rattle.vo_spec.specs.Representation.{rows_in};

use crate::entries::TreeEntry;
use crate::subtrees::{Node, Subtree};
use std::alloc::{AllocError, Global};
use vo_spec::{Row, copy_values};

/// Puts the subtree's rows at the end of others.
#[cycle(push_rows)]
#[tactic(auto, using(crate::proofs::RowLaws::rows_in_leaf, crate::proofs::RowLaws::rows_in_inner))]
pub fn push_rows(alloc: Global, subtree: &Subtree, rows: &mut Vec<Row>) -> Result<(), AllocError>
    ensures { OnOk result (rows.new.items ≡ rows.old.items ++ rows_in subtree.now) }
{
    match subtree.node() {
        Node::Leaf(entries) => push_entries(alloc, entries, rows),
        Node::Inner { children, .. } => push_children(alloc, children, rows),
    }
}

#[cycle(push_rows)]
fn push_children(alloc: Global, children: &[Subtree], rows: &mut Vec<Row>) -> Result<(), AllocError>
    ensures { OnOk result (rows.new.items ≡ rows.old.items ++ flat_map rows_in children.now) }
{
    for child in children {
        push_rows(alloc, child, rows)?;
    }
    Ok(())
}

fn push_entries(alloc: Global, entries: &[TreeEntry], rows: &mut Vec<Row>) -> Result<(), AllocError>
    ensures { OnOk result (rows.new.items ≡ rows.old.items ++ entries.now) }
{
    for entry in entries {
        rows.push(row_of(alloc, entry)?)?;
    }
    Ok(())
}

fn row_of(alloc: Global, entry: &TreeEntry) -> Result<Row, AllocError>
    ensures { IfOk result (λ row. row ≡ entry.now) }
{
    Ok(Row {
        key: entry.key().copy(alloc)?,
        cells: copy_values(alloc, entry.cells().values())?,
    })
}
