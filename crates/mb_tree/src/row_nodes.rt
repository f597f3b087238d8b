//! Trees of rows, whole and in part, as scans go through them.
ghost use Rattle.vo_spec.specs.Cells.{whole_entry};
ghost use Rattle.mb_tree.specs.View.{part_of};

use crate::entries::TreeEntry;
use crate::parts::PartTree;
use crate::row_node::{RowEntry, RowNode};
use crate::subtrees::Subtree;
use crate::tree_key::TreeKey;
use btree::{NodeView, TreeNode};
use vo_spec::{Cell, KeyPart, PartEntry, RowPart, ValueRef};

impl RowEntry for PartEntry<'_> {
    ghost entry = { λ entry. entry };

    fn entry_key(&self) -> &[u8] {
        self.key.as_bytes()
    }

    fn shown_value(&self, column: u8) -> Option<ValueRef<'_>> {
        match &self.row {
            RowPart::Digest(_) => None,
            RowPart::Cells(cells) => match cells.get(column as usize) {
                Some(Cell::Shown(value)) => Some(value.as_ref()),
                Some(Cell::Hidden(_)) | None => None,
            },
        }
    }
}

impl RowEntry for TreeEntry {
    ghost entry = { whole_entry };

    fn entry_key(&self) -> &[u8] {
        self.key().as_bytes()
    }

    fn shown_value(&self, column: u8) -> Option<ValueRef<'_>> {
        match self.cells().values().get(column as usize) {
            Some(value) => Some(value.as_ref()),
            None => None,
        }
    }
}

impl<'b> RowNode for PartTree<'b> {
    type Key = KeyPart<'b>;

    type Entry = PartEntry<'b>;

    ghost tree = { part_of };

    fn view<'a>(node: &'a PartTree<'b>) -> NodeView<'a, KeyPart<'b>, PartEntry<'b>, PartTree<'b>> {
        PartTree::open(node)
    }
}

impl RowNode for Subtree {
    type Key = TreeKey;

    type Entry = TreeEntry;

    ghost tree = { λ tree. tree };

    fn view<'a>(node: &'a Subtree) -> NodeView<'a, TreeKey, TreeEntry, Subtree> {
        Subtree::open(node)
    }
}
