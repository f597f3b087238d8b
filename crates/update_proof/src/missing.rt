//! Whether a part of a tree lacks what a change looks at.
ghost use Rattle.std.specs.Prelude.{◌≡◌, length, map};
ghost use Rattle.vo_spec.specs.Parts.{leaf, inner};
ghost use Rattle.mb_tree.specs.View.{part_of, parts_of};
ghost use Rattle.update_proof.specs.Changes.{change_is_missing, path_is_missing};
ghost use Rattle.update_proof.specs.Proving.{remove_is_missing, replace_is_missing};

use crate::change::Change;
use btree::{position_above, position_of, remaining};
use mb_tree::PartTree;
use vo_spec::{KeyPart, PartEntry, RowPart, UpdateFault};

/// Whether something is missing that the change looks at.
pub fn is_missing(tree: &PartTree<'_>, key: &[u8], change: Change) -> bool
    ensures { result ≡ change_is_missing change key.now (part_of tree.now) }
{
    match change {
        Change::Insertion => lacks_path(tree, key, false),
        Change::Replacement => lacks_path(tree, key, true),
        Change::Removal => lacks_siblings(tree, key),
    }
}

/// Whether the path of a removal, or a sibling of a node that is left underfull, isn't open.
fn lacks_siblings(tree: &PartTree<'_>, key: &[u8]) -> bool
    ensures { result ≡ remove_is_missing key.now (part_of tree.now) }
{
    match remaining::<PartTree<'_>>(tree, key) {
        Err(UpdateFault::Missing) => true,
        Ok(_) | Err(_) => false,
    }
}

/// Whether the path to the key isn't open, or the key's row, where that is asked for too.
#[cycle(lacks_path)]
fn lacks_path(tree: &PartTree<'_>, key: &[u8], with_row: bool) -> bool
    ensures { result ≡ path_is_missing with_row key.now (part_of tree.now) }
{
    match tree {
        PartTree::Stub(_) => true,
        PartTree::Leaf(entries) => with_row && lacks_row(entries.as_slice(), key),
        PartTree::Inner {
            separators,
            children,
        } => lacks_path_below(separators.as_slice(), children.as_slice(), key, with_row),
    }
}

#[cycle(lacks_path)]
fn lacks_path_below(
    separators: &[KeyPart<'_>],
    children: &[PartTree<'_>],
    key: &[u8],
    with_row: bool,
) -> bool
    ensures { result ≡ path_is_missing with_row key.now
        (inner separators.now (parts_of children.now)) }
{
    let place = position_above(separators, key);
    if place >= children.len() {
        return with_row;
    }
    lacks_path(&children[place], key, with_row)
}

/// Whether the row of the key is a digest.
fn lacks_row(entries: &[PartEntry<'_>], key: &[u8]) -> bool
    ensures { result ≡ replace_is_missing key.now (leaf entries.now) }
{
    let place = position_of(entries, key);
    if place >= entries.len() {
        return false;
    }
    match &entries[place].row {
        RowPart::Digest(_) => true,
        RowPart::Cells(_) => false,
    }
}
