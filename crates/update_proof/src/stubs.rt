//! Subtrees and entries of which nothing is open, and nodes alone.
ghost use Rattle.std.specs.Prelude.{◌≡◌, map, IfOk};
ghost use Rattle.vo_spec.specs.Cells.{whole_entry};
ghost use Rattle.vo_spec.specs.Inserts.{closed_entry};
ghost use Rattle.vo_spec.specs.Removes.{opened_sibling};
ghost use Rattle.mb_tree.specs.View.{part_of};
ghost use Rattle.update_proof.specs.OpenParts.{closed_tree};

use mb_tree::{Children, Node, PartTree, Subtree, TreeEntry, inner_part};
use std::alloc::{AllocError, Global};
use vo_spec::{KeyPart, List, PartEntry, RowPart};

/// The subtrees as digests.
pub fn hash_subtrees<'b>(
    alloc: Global,
    subtrees: &[Subtree],
) -> Result<Vec<PartTree<'b>>, AllocError>
    ensures { IfOk result (λ parts. map part_of parts.items ≡ map closed_tree subtrees.now) }
{
    let mut parts = Vec::with_capacity(alloc, subtrees.len())?;
    for subtree in subtrees {
        parts.push(PartTree::Stub(subtree.node_digest()))?;
    }
    Ok(parts)
}

/// The rows as digests.
pub fn hash_entries<'b>(
    alloc: Global,
    entries: &'b [TreeEntry],
) -> Result<List<PartEntry<'b>>, AllocError>
    ensures { IfOk result (λ closed. closed ≡ map closed_entry (map whole_entry entries.now)) }
{
    let mut closed = Vec::with_capacity(alloc, entries.len())?;
    for entry in entries {
        closed.push(PartEntry {
            key: KeyPart::lent(entry.key().as_bytes()),
            row: RowPart::Digest(entry.cells().digest()),
        })?;
    }
    Ok(List::from_vec(closed))
}

/// The subtree's node, and nothing of what is below it.
pub fn open_node<'b>(alloc: Global, subtree: &'b Subtree) -> Result<PartTree<'b>, AllocError>
    ensures { IfOk result (λ part. part_of part ≡ opened_sibling subtree.now) }
{
    match subtree.node() {
        Node::Leaf(entries) => Ok(PartTree::Leaf(hash_entries(alloc, entries)?)),
        Node::Inner {
            separators,
            children,
        } => {
            let children = hash_subtrees(alloc, children)?;
            inner_part(alloc, separators, Children::from_vec(children))
        },
    }
}
