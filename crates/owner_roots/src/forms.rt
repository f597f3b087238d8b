//! Whether a tree has the form of its table's.
ghost use Rattle.std.specs.Prelude.{◌≡◌};
ghost use Rattle.mb_tree.specs.View.{part_of};
ghost use Rattle.owner_roots.specs.Forms.{has_schema_form};

use mb_tree::PartTree;
use tree_shape::{RowForm, entries_have_form};
use vo_spec::{RowPart, Schema};

/// Whether the keys of the tree's leaves are keys of the schema, and the rows that stand as cells
/// have as many as the schema.
pub(crate) fn has_schema_form(schema: &Schema, tree: &PartTree<'_>) -> bool
    ensures { result ≡ has_schema_form schema.now (part_of tree.now) }
{
    entries_have_form::<WholeRows>(schema, tree)
}

/// Rows with a cell for each column but the key, shown or hidden.
struct WholeRows;

impl RowForm for WholeRows {
    ghost use Rattle.owner_roots.specs.Forms.{has_cell_count};

    ghost row_form = { has_cell_count };

    fn has_row_form(schema: &Schema, row: &RowPart<'_>) -> bool {
        match row {
            RowPart::Digest(_) => true,
            RowPart::Cells(cells) => cells.len() == schema.columns.len().saturating_sub(1),
        }
    }
}
