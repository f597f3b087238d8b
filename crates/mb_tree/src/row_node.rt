//! What a scan asks of the trees of rows that it goes through, whole or in part.
ghost use Rattle.std.specs.Prelude.{◌≡◌, option_map};
ghost use Rattle.vo_spec.specs.declared.cells.PartEntry.{PartEntry as PlainEntry};
ghost use Rattle.vo_spec.specs.Lent.{value_of};
ghost use Rattle.vo_spec.specs.Cells.{value_in};
ghost use Rattle.vo_spec.specs.Trees.{RowTree};
ghost use Rattle.mb_tree.specs.RowNodes.{row_view};

use btree::{KeyedItem, NodeView};
use vo_spec::ValueRef;

/// An entry of a leaf.
pub trait RowEntry {
    ghost entry: { Self → PlainEntry };

    /// The bytes of its key.
    fn entry_key(&self) -> &[u8]
        ensures { result.now ≡ (entry self.now).key };

    /// The value of the cell of this number, if it is shown.
    fn shown_value(&self, column: u8) -> Option<ValueRef<'_>>
        ensures { option_map value_of result ≡ value_in (entry self.now).row column };
}

/// A tree of rows, its root at hand.
pub trait RowNode: Sized {
    type Key: KeyedItem;

    type Entry: RowEntry;

    ghost tree: { Self → RowTree };

    /// The node at the root, lent.
    fn view<'a>(node: &'a Self) -> NodeView<'a, Self::Key, Self::Entry, Self>
        ensures { row_view Self.Key.key Self.Entry.entry tree result ≡ tree node.now };
}
