//! The entries of a part tree: their keys are of the table's kind, and their rows of a form.
ghost use Rattle.std.specs.Prelude.{◌≡◌};
ghost use Rattle.std.specs.List.{list_all};
ghost use Rattle.vo_spec.specs.Parts.{entries_in};
ghost use Rattle.mb_tree.specs.View.{part_of, parts_of};
ghost use Rattle.tree_shape.specs.Entries.{entry_has_form, entries_have_form};

use crate::row_form::RowForm;
use mb_tree::PartTree;
use row_bytes::is_key_of;
use table_list::key_kind;
use vo_spec::{PartEntry, Schema};

/// Whether the keys of the tree's leaves are keys of the schema, and its rows have the form.
// Inlined where children are asked: most are stubs.
#[inline(always)]
#[cycle(form)]
pub fn entries_have_form<F: RowForm>(schema: &Schema, tree: &PartTree<'_>) -> bool
    ensures { result ≡ entries_have_form F.row_form schema.now (part_of tree.now) }
{
    match tree {
        PartTree::Stub(_) => true,
        PartTree::Leaf(entries) => leaf_has_form::<F>(schema, entries.as_slice()),
        PartTree::Inner { children, .. } => children_have_form::<F>(schema, children.as_slice()),
    }
}

#[cycle(form)]
fn children_have_form<F: RowForm>(schema: &Schema, children: &[PartTree<'_>]) -> bool
    ensures { result ≡ list_all (entry_has_form F.row_form schema.now)
        (entries_in (parts_of children.now)) }
{
    for child in children {
        if !entries_have_form::<F>(schema, child) {
            return false;
        }
    }
    true
}

fn leaf_has_form<F: RowForm>(schema: &Schema, entries: &[PartEntry<'_>]) -> bool
    ensures { result ≡ list_all (entry_has_form F.row_form schema.now) entries.now }
{
    entries
        .iter()
        .all(|entry| entry_has_form::<F>(schema, entry))
}

fn entry_has_form<F: RowForm>(schema: &Schema, entry: &PartEntry<'_>) -> bool
    ensures { result ≡ entry_has_form F.row_form schema.now entry.now }
{
    is_key_of(key_kind(schema), entry.key.as_bytes()) && F::has_row_form(schema, &entry.row)
}
