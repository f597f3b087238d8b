//! Whether a part tree prunes a whole one, by what stands in them: no node is hashed for it.
ghost use Rattle.std.specs.Prelude.{◌≡◌, ◌≤◌, IsTrue, length, map, All};
ghost use Rattle.std.specs.List.{AllZip};
ghost use Rattle.vo_spec.specs.declared.cells.Cell.TheVariants.{Shown};
ghost use Rattle.vo_spec.specs.Values.{FitsValue};
ghost use Rattle.vo_spec.specs.Cells.{whole_cells, whole_entry, whole_row, CellPrunes, CellsPrune, EntryPrunes, RowPrunes};
ghost use Rattle.vo_spec.specs.Parts.{inner, PrunesEach};
ghost use Rattle.vo_spec.specs.Trees.{Prunes, open_parts, row_family};
ghost use Rattle.vo_spec.specs.Fits.{FitsCells};
ghost use Rattle.mb_tree.specs.View.{part_of, parts_of};

use crate::same_parts::is_same_value;
use attr_digest::attr_digest;
use mb_tree::{HashedCells, Node, PartTree, Subtree, TreeEntry, TreeKey};
use vo_spec::{Cell, KeyPart, PartEntry, RowPart, Value};

/// Whether the part is the subtree with some of its subtrees, rows and cells replaced by digests.
#[cycle(prunes)]
pub fn prunes(part: &PartTree<'_>, subtree: &Subtree) -> bool
    ensures { IsTrue result → Prunes (part_of part.now) subtree.now }
{
    match (part, subtree.node()) {
        (PartTree::Stub(digest), _) => *digest == subtree.node_digest(),
        (PartTree::Leaf(parts), Node::Leaf(entries)) => entries_prune(parts.as_slice(), entries),
        (
            PartTree::Inner {
                separators,
                children,
            },
            Node::Inner {
                separators: keys,
                children: subtrees,
            },
        ) => inner_prunes(separators.as_slice(), children.as_slice(), keys, subtrees),
        _ => false,
    }
}

#[cycle(prunes)]
fn inner_prunes(
    separators: &[KeyPart<'_>],
    children: &[PartTree<'_>],
    keys: &[TreeKey],
    subtrees: &[Subtree],
) -> bool
    ensures { IsTrue result → Prunes (inner separators.now (parts_of children.now))
        (inner keys.now (open_parts subtrees.now)) }
{
    same_keys(separators, keys) && children_prune(children, subtrees)
}

#[tactic(auto, using(crate::proofs::PruningLaws::child_pruned))]
#[cycle(prunes)]
fn children_prune(parts: &[PartTree<'_>], subtrees: &[Subtree]) -> bool
    ensures { IsTrue result
        → PrunesEach row_family EntryPrunes (parts_of parts.now) (open_parts subtrees.now) }
{
    if parts.len() != subtrees.len() {
        return false;
    }
    for (place, part) in parts.iter().enumerate() {
        if !prunes(part, &subtrees[place]) {
            return false;
        }
    }
    true
}

#[tactic(auto, using(crate::proofs::PruningLaws::key_same))]
fn same_keys(separators: &[KeyPart<'_>], keys: &[TreeKey]) -> bool
    ensures { IsTrue result → separators.now ≡ keys.now }
{
    if separators.len() != keys.len() {
        return false;
    }
    for (place, separator) in separators.iter().enumerate() {
        if !is_key(separator, &keys[place]) {
            return false;
        }
    }
    true
}

fn is_key(separator: &KeyPart<'_>, key: &TreeKey) -> bool
    ensures { IsTrue result → separator.now ≡ key.now }
{
    separator.as_bytes() == key.as_bytes()
}

#[tactic(auto, using(crate::proofs::PruningLaws::entry_pruned))]
fn entries_prune(parts: &[PartEntry<'_>], entries: &[TreeEntry]) -> bool
    ensures { IsTrue result → AllZip EntryPrunes parts.now (map whole_entry entries.now) }
{
    if parts.len() != entries.len() {
        return false;
    }
    for (place, part) in parts.iter().enumerate() {
        if !entry_prunes(part, &entries[place]) {
            return false;
        }
    }
    true
}

fn entry_prunes(part: &PartEntry<'_>, entry: &TreeEntry) -> bool
    ensures { IsTrue result → EntryPrunes part.now (whole_entry entry.now) }
{
    part.key.as_bytes() == entry.key().as_bytes() && row_prunes(&part.row, entry.cells())
}

fn row_prunes(part: &RowPart<'_>, cells: &HashedCells) -> bool
    ensures { IsTrue result → RowPrunes part.now (whole_row cells.now) }
{
    match part {
        RowPart::Digest(digest) => *digest == cells.digest(),
        RowPart::Cells(parts) => cells_prune(parts.as_slice(), cells.values()),
    }
}

#[tactic(auto, using(crate::proofs::PruningLaws::cell_pruned))]
fn cells_prune(cells: &[Cell<'_>], values: &[Value]) -> bool
    requires { FitsCells values.now }
    ensures { IsTrue result → CellsPrune 0 cells.now (whole_cells values.now) }
{
    if cells.len() != values.len() {
        return false;
    }
    for (column, cell) in cells.iter().enumerate() {
        if !cell_prunes(column as u8, cell, &values[column]) {
            return false;
        }
    }
    true
}

fn cell_prunes(column: u8, cell: &Cell<'_>, value: &Value) -> bool
    requires { FitsValue value.now }
    ensures { IsTrue result → CellPrunes column cell.now (Shown value.now) }
{
    match cell {
        Cell::Hidden(digest) => *digest == attr_digest(column, value.as_ref()),
        Cell::Shown(held) => is_same_value(held.as_ref(), value.as_ref()),
    }
}
