//! The changes of whole trees.
ghost use Rattle.std.specs.Prelude.{◌≡◌, ◌<◌, length, map};
ghost use Rattle.vo_spec.specs.Cells.{whole_entry};
ghost use Rattle.vo_spec.specs.Fits.{FitsRow};
ghost use Rattle.vo_spec.specs.Inserts.{tree_with_entry};
ghost use Rattle.vo_spec.specs.Parts.{entries};
ghost use Rattle.vo_spec.specs.Removes.{tree_without_key, tree_with_cells};
ghost use Rattle.vo_spec.specs.Tables.{max_rows};
ghost use Rattle.mb_tree.specs.RowCounts.{IsWhole};
ghost use Rattle.mb_update.specs.ChangeResults.{ChangesTo, GivesTree, set_entry};
ghost use Rattle.mb_update.specs.RowParts.{IsWholeRow, tree_with_part};
ghost use Rattle.mb_update.specs.Sets.{change_of, FitsSets};

use crate::ops::SetCell;
use crate::tree_rows::{entry_with, exchange_row, put_entry};
use crate::updates::Updates;
use btree::{find, insert, remove, set};
use mb_tree::{Subtree, Tree, TreeEntry};
use std::alloc::Global;
use vo_spec::{Key, Row, RowPart, UpdateFault};

/// The tree with this row, which is moved into it. It shares with the old one all but the path to
/// the row's leaf.
pub fn insert_row(alloc: Global, tree: &Tree, row: Row) -> Result<Tree, UpdateFault>
    requires fits { FitsRow row }
    requires room { length (entries tree.now) < max_rows }
    ensures { ChangesTo (λ t. t) result (tree_with_entry (whole_entry row) tree.now) }
{
    let entry = TreeEntry::of_row(alloc, row)?;
    insert_entry(alloc, tree, entry)
}

fn insert_entry(alloc: Global, tree: &Tree, entry: TreeEntry) -> Result<Tree, UpdateFault>
    requires fits { FitsRow entry }
    requires room { length (entries tree.now) < max_rows }
    ensures { ChangesTo (λ t. t) result (tree_with_entry (whole_entry entry) tree.now) }
{
    let rows = tree.row_count();
    match insert::<Subtree>(alloc, tree.root(), entry) {
        Ok(root) => Ok(Tree::of_root(root, rows + 1)),
        Err(fault) => Err(fault),
    }
}

/// The tree with these values in the row of this key.
fn replace_cells(
    alloc: Global,
    tree: &Tree,
    key: &[u8],
    sets: &[SetCell],
) -> Result<Tree, UpdateFault>
    requires { FitsSets sets.now }
    ensures { ChangesTo (λ t. t) result
        (tree_with_cells key.now (map change_of sets.now) tree.now) }
{
    let rows = tree.row_count();
    match find::<Subtree>(tree.root(), key) {
        Ok(old) => {
            let entry = entry_with(alloc, old, sets)?;
            set_entry(alloc, tree, rows, key, entry)
        },
        Err(fault) => Err(fault),
    }
}

/// The tree with a copy of this in the place of the row of this key.
fn set_row(alloc: Global, tree: &Tree, key: &[u8], part: &RowPart<'_>) -> Result<Tree, UpdateFault>
    requires { IsWholeRow part.now }
    ensures { ChangesTo (λ t. t) result (tree_with_part key.now part.now tree.now) }
{
    let rows = tree.row_count();
    match find::<Subtree>(tree.root(), key) {
        Ok(old) => {
            let entry = exchange_row(alloc, old, part)?;
            set_entry(alloc, tree, rows, key, entry)
        },
        Err(fault) => Err(fault),
    }
}

/// The tree of so many rows with this in the place of the entry of the key, which it has.
fn set_entry(
    alloc: Global,
    tree: &Tree,
    rows: u64,
    key: &[u8],
    entry: TreeEntry,
) -> Result<Tree, UpdateFault>
    requires whole { IsWhole tree.now rows }
    requires gives { GivesTree key.now (whole_entry entry) tree.now }
    ensures { ChangesTo (λ t. t) result (set_entry key.now (whole_entry entry) tree.now) }
{
    match set::<Subtree>(alloc, tree.root(), key, entry) {
        Ok(root) => Ok(Tree::of_root(root, rows)),
        Err(fault) => Err(fault),
    }
}

/// The tree without the row of this key.
fn remove_row(alloc: Global, tree: &Tree, key: &[u8]) -> Result<Tree, UpdateFault>
    ensures { ChangesTo (λ t. t) result (tree_without_key key.now tree.now) }
{
    let rows = tree.row_count();
    match remove::<Subtree>(alloc, tree.root(), key) {
        Ok(root) => Ok(Tree::of_root(root, rows - 1)),
        Err(fault) => Err(fault),
    }
}

/// The new tree shares with the old one all but what the change makes new: the path to the row's
/// leaf, and the siblings that gave to a node of it or were merged with one.
impl Updates for Tree {
    type Change = Tree;

    ghost tree = { λ tree. tree };

    ghost changed = { λ tree. tree };

    ghost CanInsert = { λ tree. length (entries tree) < max_rows };

    ghost CanChange = { λ tree. Unit {0} };

    ghost CanHold = { IsWholeRow };

    fn insert(&self, alloc: Global, row: &Row) -> Result<Tree, UpdateFault> {
        let entry = TreeEntry::new(alloc, row)?;
        insert_entry(alloc, self, entry)
    }

    fn replace(&self, alloc: Global, key: &Key, sets: &[SetCell]) -> Result<Tree, UpdateFault> {
        replace_cells(alloc, self, key.as_bytes(), sets)
    }

    fn remove(&self, alloc: Global, key: &Key) -> Result<Tree, UpdateFault> {
        remove_row(alloc, self, key.as_bytes())
    }

    fn put(&self, alloc: Global, key: &Key, part: &RowPart<'_>) -> Result<Tree, UpdateFault> {
        let entry = put_entry(alloc, key, part)?;
        insert_entry(alloc, self, entry)
    }

    fn set(&self, alloc: Global, key: &Key, part: &RowPart<'_>) -> Result<Tree, UpdateFault> {
        set_row(alloc, self, key.as_bytes(), part)
    }
}
