//! Scans of trees, whole and in part.
ghost use Rattle.std.specs.Prelude.{◌≡◌, [], ◌∷◌, ◌++◌, slice_get, map, OnOk};
ghost use Rattle.vo_spec.specs.Lent.{value_of};
ghost use Rattle.std.specs.Option.{option_copied};
ghost use Rattle.vo_spec.specs.Scans.{seen, seen_in, seen_in_each, seen_entries, values_in as values_at};
ghost use Rattle.mb_tree.specs.RowNodes.{row_kids};
ghost use Rattle.range_proof.specs.Finding.{FindsOrMissing, Appends};

use btree::{KeyedItem, NodeView};
use key_intervals::{in_interval, is_empty_interval, visits_from};
use mb_tree::{RowEntry, RowNode};
use std::alloc::{AllocError, Global};
use vo_spec::{Key, List, Need, ScanFault, SeenRow, Value, ValueRef};

/// The rows of the need's interval, with the values of its columns.
pub fn scan<N: RowNode>(alloc: Global, tree: &N, need: &Need) -> Result<List<SeenRow>, ScanFault>
    ensures { FindsOrMissing result (seen need.now (N.tree tree.now)) }
{
    let mut rows = Vec::new(alloc);
    if !is_empty_interval(&need.interval) {
        scan_node(alloc, tree, need, &mut rows)?;
    }
    Ok(List::from_vec(rows))
}

#[cycle(scan)]
fn scan_node<N: RowNode>(
    alloc: Global,
    tree: &N,
    need: &Need,
    rows: &mut Vec<SeenRow>,
) -> Result<(), ScanFault>
    ensures { Appends result rows.old.items rows.new.items (seen_in need.now (N.tree tree.now)) }
{
    match N::view(tree) {
        NodeView::Stub(_) => Err(ScanFault::Missing),
        NodeView::Leaf(entries) => scan_entries(alloc, entries, need, rows),
        NodeView::Inner {
            separators,
            children,
        } => scan_children::<N>(alloc, separators, children, need, rows),
    }
}

#[cycle(scan)]
fn scan_children<N: RowNode>(
    alloc: Global,
    separators: &[N::Key],
    children: &[N],
    need: &Need,
    rows: &mut Vec<SeenRow>,
) -> Result<(), ScanFault>
    ensures { Appends result rows.old.items rows.new.items
        (seen_in_each need.now None (map N.Key.key separators.now) (row_kids N.tree children.now)) }
{
    let mut is_past = false;
    let mut lower = None;
    for (place, child) in children.iter().enumerate() {
        let upper = separator_at(separators, place);
        if visits_from(is_past, &need.interval, lower, upper) {
            match scan_node(alloc, child, need, rows) {
                Ok(()) => {},
                Err(fault) => return Err(fault),
            }
            is_past = true;
        }
        lower = upper;
    }
    Ok(())
}

/// The separator behind the child at this place; none behind the last.
pub fn separator_at<K: KeyedItem>(separators: &[K], place: usize) -> Option<&[u8]>
    ensures { option_copied result ≡ slice_get (map K.key separators.now) place }
{
    match separators.get(place) {
        Some(separator) => Some(separator.key_bytes()),
        None => None,
    }
}

fn scan_entries<E: RowEntry>(
    alloc: Global,
    entries: &[E],
    need: &Need,
    rows: &mut Vec<SeenRow>,
) -> Result<(), ScanFault>
    ensures { Appends result rows.old.items rows.new.items
        (seen_entries need.now (map E.entry entries.now)) }
{
    for entry in entries {
        let key = entry.entry_key();
        if in_interval(&need.interval, key) {
            let values = values_in(alloc, entry, need.columns.as_slice())?;
            push_row(alloc, rows, key, values)?;
        }
    }
    Ok(())
}

fn push_row(
    alloc: Global,
    rows: &mut Vec<SeenRow>,
    key: &[u8],
    values: List<Value>,
) -> Result<(), AllocError>
    ensures { OnOk result (rows.new.items ≡ rows.old.items
        ++ record { key = key.now; values = values } ∷ []) }
{
    let key = Key::from_vec(Vec::from_slice(alloc, key)?);
    rows.push(SeenRow { key, values })?;
    Ok(())
}

fn push_value(alloc: Global, values: &mut Vec<Value>, value: ValueRef<'_>) -> Result<(), AllocError>
    ensures { OnOk result (values.new.items ≡ values.old.items ++ value_of value.entry ∷ []) }
{
    values.push(value.to_value(alloc)?)?;
    Ok(())
}

fn values_in<E: RowEntry>(
    alloc: Global,
    entry: &E,
    columns: &[u8],
) -> Result<List<Value>, ScanFault>
    ensures { FindsOrMissing result (values_at (E.entry entry.now).row columns.now) }
{
    let mut values = Vec::with_capacity(alloc, columns.len())?;
    for column in columns {
        match entry.shown_value(*column) {
            Some(value) => push_value(alloc, &mut values, value)?,
            None => return Err(ScanFault::Missing),
        }
    }
    Ok(List::from_vec(values))
}
