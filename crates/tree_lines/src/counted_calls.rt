//! What is asked of counted trees, a kind of tree that the product has no use for.
use btree::{Contents, KeyedItem, TreeNode, TryClone, find, insert, remove, set};
use counted_trees::{Entry, Node, NumberKey, Subtree};
use line_pieces::describe;
use std::alloc::{AllocError, Global};
use std::{io, mem};
use vo_spec::{Digest, UpdateFault};

/// How many entries a tree that begins with none has after each change, or the value that is found,
/// or why there is none.
///
/// A change has six bytes: its kind (0 find, 1 insert, 2 set, 3 remove, 4 a stub before the tree),
/// the four of its key, and its value.
pub fn count_changes(alloc: Global, changes: &[u8]) -> io::Result<String> {
    let mut tree = Subtree::close(alloc, Contents::Leaf(Vec::new(alloc)))?;
    let mut answers = Vec::new(alloc);
    for change in changes.as_chunks::<6>().0 {
        answers.push(change_counted(alloc, &mut tree, *change))?;
    }
    drop(tree);
    describe(alloc, &answers)
}

fn change_counted(alloc: Global, tree: &mut Subtree, change: [u8; 6]) -> Result<u64, UpdateFault> {
    let [kind, first, second, third, fourth, value] = change;
    let key = NumberKey::new(u32::from_be_bytes([first, second, third, fourth]));
    if kind == 0 {
        return Ok(find::<Subtree>(tree.node(), key.key_bytes())?.value);
    }
    let value = u64::from(value);
    let next = tree_after(alloc, tree, kind, Entry { key, value })?;
    drop(mem::replace(tree, next));
    Ok(tree.count())
}

fn tree_after(
    alloc: Global,
    tree: &Subtree,
    kind: u8,
    entry: Entry,
) -> Result<Subtree, UpdateFault> {
    match kind {
        1 => insert::<Subtree>(alloc, tree.node(), entry),
        2 => set::<Subtree>(alloc, tree.node(), entry.key_bytes(), entry),
        3 => remove::<Subtree>(alloc, tree.node(), entry.key_bytes()),
        _ => Ok(beside_a_stub(alloc, tree, entry)?),
    }
}

/// The node of the tree and a stub before it, which has as many entries as the value says.
fn beside_a_stub(alloc: Global, tree: &Subtree, entry: Entry) -> Result<Subtree, AllocError> {
    let stub = Subtree::new(alloc, entry.value, Node::Stub(Digest::new([0; 32])))?;
    let contents = Contents::Inner {
        separators: vec![in alloc; entry.key]?,
        children: vec![in alloc; stub, tree.try_clone(alloc)?]?,
    };
    Subtree::close(alloc, contents)
}
