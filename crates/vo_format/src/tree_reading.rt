//! Reading trees, never deeper than a tree may be.
ghost use Rattle.std.specs.Prelude.{◌≡◌, ℕ, List, [], ◌∷◌, ◌-◌, ◌++◌, Some, IfOk};
ghost use Rattle.vo_spec.specs.Bytes.{IsBytes};
ghost use Rattle.vo_spec.specs.Fits.{FitsTree, max_levels};
ghost use Rattle.vo_spec.specs.Parts.{stub};
ghost use Rattle.vo_spec.specs.Trees.{RowTree};
ghost use Rattle.vo_spec.specs.TreeBytes.{tree_bytes};
ghost use Rattle.row_bytes.specs.Reading.{bytes_at};
ghost use Rattle.row_bytes.specs.Fields.{FoundOr, times};
ghost use Rattle.batch_format.specs.BatchReading.{one};
ghost use Rattle.mb_tree.specs.View.{part_of};
ghost use Rattle.batch_format.specs.TreeReading.{entry_at, inner_at, key_at, leaf_at, node_at, tree_at};
ghost use Rattle.vo_format.specs.Taking.{TakesOr};
ghost use Rattle.vo_format.specs.View.{row_trees_of};

use crate::entry_reading::{push_entry, take_count, take_key};
use mb_tree::{Children, PartTree};
use row_bytes::{Cursor, ReadFault};
use std::alloc::Global;
use vo_spec::{Digest, KeyPart, List, MAX_FILL, MAX_LEVELS, PartEntry};

/// The tree that comes next, of at most [`MAX_LEVELS`] levels. It is lent by the bytes.
pub fn take_tree<'b>(alloc: Global, cursor: &mut Cursor<'b>) -> Result<PartTree<'b>, ReadFault>
    // What is taken is spelled so, and keeps the limits.
    ensures found { IfOk result (λ tree. FitsTree (part_of tree)
        × (cursor.old ≡ tree_bytes (part_of tree) ++ cursor.new)) }

    // What is spelled so is taken, unless memory runs out.
    ensures only { (tree : RowTree) (rest : List ℕ) → FitsTree tree
        → cursor.old ≡ tree_bytes tree ++ rest
        → FoundOr part_of result cursor.old cursor.new (Some (tree, rest)) }

    // What reading gives, unless memory runs out.
    ensures exact { FoundOr part_of result cursor.old cursor.new (tree_at max_levels cursor.old) }
{
    take_root(alloc, cursor, MAX_LEVELS as u8 - 1)
}

/// The node that comes next, whose children have at most so many levels. It is taken whole, or
/// nothing is; what is called from here on may have taken anything where it fails.
fn take_root<'b>(
    alloc: Global,
    cursor: &mut Cursor<'b>,
    levels: u8,
) -> Result<PartTree<'b>, ReadFault>
    ensures exact { FoundOr part_of result cursor.old cursor.new
        (node_at (tree_at levels) cursor.old) }
    ensures bytes { IsBytes cursor.old }
{
    let mut ahead = cursor.copy();
    let node = match take_node(alloc, &mut ahead, levels) {
        Ok(node) => node,
        Err(fault) => return Err(fault),
    };
    *cursor = ahead;
    Ok(node)
}

/// The node that comes next, whose children have at most so many levels.
#[tactic(auto, unfolding(batch_format::specs::TreeReading::node_at, row_bytes::specs::Reading::byte_at))]
fn take_node<'b>(
    alloc: Global,
    cursor: &mut Cursor<'b>,
    levels: u8,
) -> Result<PartTree<'b>, ReadFault>
    ensures { TakesOr part_of result cursor.new (node_at (tree_at levels) cursor.old) }
{
    match cursor.take_byte() {
        Some(0) => take_stub(cursor),
        Some(1) => take_leaf(alloc, cursor),
        Some(2) => take_inner(alloc, cursor, levels),
        _ => Err(ReadFault::BadForm),
    }
}

fn take_stub<'b>(cursor: &mut Cursor<'b>) -> Result<PartTree<'b>, ReadFault>
    ensures { TakesOr part_of result cursor.new (one stub (bytes_at 32) cursor.old) }
{
    match cursor.take_chunk::<32>() {
        Some(digest) => Ok(PartTree::Stub(Digest::new(*digest))),
        None => Err(ReadFault::BadForm),
    }
}

#[tactic(auto, unfolding(batch_format::specs::TreeReading::leaf_at))]
fn take_leaf<'b>(alloc: Global, cursor: &mut Cursor<'b>) -> Result<PartTree<'b>, ReadFault>
    ensures { TakesOr part_of result cursor.new (leaf_at cursor.old) }
{
    let Some(count) = take_count(cursor, 0, MAX_FILL as u8) else {
        return Err(ReadFault::BadForm);
    };
    match each_entry(alloc, cursor, count) {
        Ok(entries) => Ok(PartTree::Leaf(List::from_vec(entries))),
        Err(fault) => Err(fault),
    }
}

fn each_entry<'b>(
    alloc: Global,
    cursor: &mut Cursor<'b>,
    count: u8,
) -> Result<Vec<PartEntry<'b>>, ReadFault>
    ensures { TakesOr (λ entries. entries.items) result cursor.new
        (times entry_at count cursor.old) }
{
    let mut entries = Vec::with_capacity(alloc, usize::from(count))?;
    for _ in 0..count {
        match push_entry(alloc, cursor, &mut entries) {
            Ok(()) => {}
            Err(fault) => return Err(fault),
        }
    }
    Ok(entries)
}

/// An inner node whose children have at most so many levels.
#[tactic(auto, unfolding(batch_format::specs::TreeReading::inner_at))]
#[cycle(take_inner)]
fn take_inner<'b>(
    alloc: Global,
    cursor: &mut Cursor<'b>,
    levels: u8,
) -> Result<PartTree<'b>, ReadFault>
    ensures { TakesOr part_of result cursor.new (inner_at (tree_at levels) cursor.old) }
{
    let Some(count) = take_count(cursor, 2, MAX_FILL as u8) else {
        return Err(ReadFault::BadForm);
    };
    let separators = each_key(alloc, cursor, count - 1)?;
    let children = each_child(alloc, cursor, levels, count)?;
    Ok(PartTree::Inner {
        separators: List::from_vec(separators),
        children: Children::from_vec(children),
    })
}

fn each_key<'b>(
    alloc: Global,
    cursor: &mut Cursor<'b>,
    count: u8,
) -> Result<Vec<KeyPart<'b>>, ReadFault>
    ensures { TakesOr (λ keys. keys.items) result cursor.new (times key_at count cursor.old) }
{
    let mut keys = Vec::with_capacity(alloc, usize::from(count))?;
    for _ in 0..count {
        match take_key(cursor) {
            Some(key) => keys.push(KeyPart::lent(key))?,
            None => return Err(ReadFault::BadForm),
        }
    }
    Ok(keys)
}

#[cycle(take_inner)]
fn each_child<'b>(
    alloc: Global,
    cursor: &mut Cursor<'b>,
    levels: u8,
    count: u8,
) -> Result<Vec<PartTree<'b>>, ReadFault>
    ensures { TakesOr row_trees_of result cursor.new (times (tree_at levels) count cursor.old) }
{
    let mut children = Vec::with_capacity(alloc, usize::from(count))?;
    for _ in 0..count {
        match push_child(alloc, cursor, levels, &mut children) {
            Ok(()) => {}
            Err(fault) => return Err(fault),
        }
    }
    Ok(children)
}

/// Puts the child that comes next behind others, of at most so many levels.
// Inlined, as what it calls for a stub is: most children are stubs.
#[inline(always)]
#[cycle(take_inner)]
fn push_child<'b>(
    alloc: Global,
    cursor: &mut Cursor<'b>,
    levels: u8,
    children: &mut Vec<PartTree<'b>>,
) -> Result<(), ReadFault>
    ensures { TakesOr (λ done. row_trees_of children.new) result cursor.new
        (one (λ child. row_trees_of children.old ++ child ∷ []) (tree_at levels) cursor.old) }
{
    if levels == 0 {
        return Err(ReadFault::BadForm);
    }
    push_node(alloc, cursor, levels - 1, children)
}

/// Puts the node that comes next behind others, whose children have at most so many levels. A stub
/// is made where it stays.
#[inline(always)]
#[tactic(auto, unfolding(batch_format::specs::TreeReading::node_at, row_bytes::specs::Reading::byte_at))]
#[cycle(take_inner)]
fn push_node<'b>(
    alloc: Global,
    cursor: &mut Cursor<'b>,
    levels: u8,
    nodes: &mut Vec<PartTree<'b>>,
) -> Result<(), ReadFault>
    ensures { TakesOr (λ done. row_trees_of nodes.new) result cursor.new
        (one (λ node. row_trees_of nodes.old ++ node ∷ []) (node_at (tree_at levels)) cursor.old) }
{
    match cursor.take_byte() {
        Some(0) => push_stub(cursor, nodes),
        Some(1) => Ok(nodes.push(take_leaf(alloc, cursor)?)?),
        Some(2) => Ok(nodes.push(take_inner(alloc, cursor, levels)?)?),
        _ => Err(ReadFault::BadForm),
    }
}

/// Puts the stub behind others whose digest comes next.
#[inline(always)]
fn push_stub<'b>(cursor: &mut Cursor<'b>, nodes: &mut Vec<PartTree<'b>>) -> Result<(), ReadFault>
    ensures { TakesOr (λ done. row_trees_of nodes.new) result cursor.new
        (one (λ digest. row_trees_of nodes.old ++ stub digest ∷ []) (bytes_at 32) cursor.old) }
{
    let Some(digest) = cursor.take_chunk::<32>() else {
        return Err(ReadFault::BadForm);
    };
    nodes.push(PartTree::Stub(Digest::new(*digest)))?;
    Ok(())
}

/// Trees that come next, so many of them. Where it fails, some of them may have been taken.
pub fn take_trees<'b>(
    alloc: Global,
    cursor: &mut Cursor<'b>,
    count: u16,
) -> Result<Vec<PartTree<'b>>, ReadFault>
    ensures { TakesOr row_trees_of result cursor.new (times (tree_at max_levels) count cursor.old) }
{
    let mut trees = Vec::new(alloc);
    for _ in 0..count {
        match take_tree(alloc, cursor) {
            Ok(tree) => trees.push(tree)?,
            Err(fault) => return Err(fault),
        }
    }
    Ok(trees)
}
