//! Digests of parts of trees.
ghost use Rattle.std.specs.Prelude.{◌≡◌, ◌≤◌, length, All};
ghost use Rattle.vo_spec.specs.Parts.{inner};
ghost use Rattle.vo_spec.specs.Trees.{digest};
ghost use Rattle.vo_spec.specs.Fits.{FitsPart, FitsEach, FitsEntry, FitsKey, max_fill};
ghost use Rattle.mb_tree.specs.View.{part_of, parts_of};

use crate::hashing::leaf_digest;
use crate::layout::{INNER_TAG, LEAF_TAG, write_inner_head};
use crate::node_hasher::NodeHasher;
use crate::parts::PartTree;
use vo_spec::{Digest, KeyPart};

impl PartTree<'_> {
    /// The digest of the tree. It takes no memory.
    // Inlined where children are hashed: most are stubs.
    #[inline(always)]
    #[tactic(auto, using(crate::proofs::PartLaws::count_parts_of))]
    #[cycle(node_digest)]
    pub fn node_digest(&self) -> Digest
        requires { FitsPart (part_of self.now) }
        ensures { result ≡ digest (part_of self.now) }
    {
        match self {
            PartTree::Stub(digest) => *digest,
            PartTree::Leaf(entries) => leaf_digest(LEAF_TAG, entries.as_slice()),
            PartTree::Inner {
                separators,
                children,
            } => inner_digest(separators.as_slice(), children.as_slice()),
        }
    }
}

// Adds the children's digests itself: it is in one cycle with `node_digest`, of which a call
// through `NodeItem` could not be a part.
#[tactic(auto, using(crate::proofs::PartLaws::count_parts_of, crate::proofs::PartLaws::child_bytes_parts_of, crate::proofs::PartLaws::child_fits))]
#[cycle(node_digest)]
fn inner_digest(separators: &[KeyPart<'_>], children: &[PartTree<'_>]) -> Digest
    requires count { length children.now ≤ max_fill }
    requires keys { All FitsKey separators.now }
    requires fits { FitsEach FitsEntry (parts_of children.now) }
    ensures { result ≡ digest (inner separators.now (parts_of children.now)) }
{
    let mut hasher = NodeHasher::new();
    let Ok(()) = write_inner_head(&mut hasher, INNER_TAG, separators, children.len());
    for child in children {
        hasher.add(child.node_digest().as_bytes());
    }
    hasher.end()
}
