//! Whether a part of a tree is the proof of a change.
ghost use Rattle.std.specs.Prelude.{◌≡◌, ◌≤◌, ◌<◌, not, length, map};
ghost use Rattle.std.specs.List.{list_any};
ghost use Rattle.vo_spec.specs.Parts.{inner};
ghost use Rattle.mb_tree.specs.View.{part_of, parts_of};
ghost use Rattle.update_proof.specs.Changes.{change_has_surplus, surplus_along};
ghost use Rattle.update_proof.specs.OpenParts.{is_open, is_open_outside};
ghost use Rattle.update_proof.specs.Proving.{opened_sibling_surplus, missing_or, update_is_missing, update_has_surplus};

use crate::change::{Change, change_of, key_of, step_of};
use crate::missing::is_missing;
use crate::surplus_rows::{any_cells, rows_have_surplus};
use btree::{Step, sibling_of};
use mb_tree::PartTree;
use mb_update::Op;
use vo_spec::{KeyPart, ScanFault};

/// Whether the part is the proof of the change, as far as it alone can tell: with nothing missing,
/// true exactly where nothing is open that the change doesn't look at. It takes no memory.
pub fn is_update_proof(tree: &PartTree<'_>, op: &Op<'_>) -> Result<bool, ScanFault>
    ensures { result ≡ missing_or (update_is_missing op.now (part_of tree.now))
        (not (update_has_surplus op.now (part_of tree.now))) }
{
    let key = key_of(op);
    let change = change_of(op);
    if is_missing(tree, key, change) {
        return Err(ScanFault::Missing);
    }
    Ok(!has_surplus(tree, key, change))
}

/// Whether anything is open that the change doesn't look at.
#[cycle(has_surplus)]
fn has_surplus<'b>(tree: &PartTree<'b>, key: &[u8], change: Change) -> bool
    ensures { result ≡ change_has_surplus change key.now (part_of tree.now) }
{
    match tree {
        PartTree::Stub(_) => false,
        PartTree::Leaf(entries) => rows_have_surplus(entries.as_slice(), key, change),
        PartTree::Inner {
            separators,
            children,
        } => children_have_surplus(separators.as_slice(), children.as_slice(), key, change),
    }
}

#[cycle(has_surplus)]
fn children_have_surplus<'b>(
    separators: &[KeyPart<'b>],
    children: &[PartTree<'b>],
    key: &[u8],
    change: Change,
) -> bool
    ensures { result ≡ change_has_surplus change key.now
        (inner separators.now (parts_of children.now)) }
{
    let step = step_of(change, separators, children, key);
    if step.child >= children.len() {
        return any_open(children);
    }
    has_surplus(&children[step.child], key, change) || has_sibling_surplus(children, step)
}

/// Whether more is open beside the step's child than its sibling's node, if that is opened.
fn has_sibling_surplus(children: &[PartTree<'_>], step: Step) -> bool
    requires { step.child < length children.now }
    ensures { result ≡ surplus_along step.child step.opens_sibling (map part_of children.now) }
{
    let sibling = sibling_of(step.child);
    if !step.opens_sibling || sibling >= children.len() {
        return open_outside(children, step.child, step.child + 1);
    }
    let first = step.child.saturating_sub(1);
    is_open_below(&children[sibling]) || open_outside(children, first, first + 2)
}

/// Whether a child before the first of these numbers is open, or one from the second on.
fn open_outside(children: &[PartTree<'_>], from: usize, to: usize) -> bool
    requires start { from ≤ length children.now }
    requires end { to ≤ length children.now }
    ensures { result ≡ is_open_outside from to (map part_of children.now) }
{
    any_open(&children[..from]) || any_open(&children[to..])
}

/// Whether one of them is open.
fn any_open(trees: &[PartTree<'_>]) -> bool
    ensures { result ≡ list_any is_open (map part_of trees.now) }
{
    for tree in trees {
        match tree {
            PartTree::Stub(_) => {},
            PartTree::Leaf(_) | PartTree::Inner { .. } => return true,
        }
    }
    false
}

/// Whether more is open of a node than the node itself.
fn is_open_below(tree: &PartTree<'_>) -> bool
    ensures { result ≡ opened_sibling_surplus (part_of tree.now) }
{
    match tree {
        PartTree::Stub(_) => false,
        PartTree::Leaf(entries) => any_cells(entries.as_slice()),
        PartTree::Inner { children, .. } => any_open(children.as_slice()),
    }
}
