//! Merkle B-trees, whole and in part.
#![tactic(auto)]

mod entries;
mod hashing;
mod layout;
mod lending;
mod node_hasher;
mod part_digest;
mod part_items;
mod part_node;
mod parts;
mod preimages;
mod row_node;
mod row_nodes;
mod rows;
mod subtree_node;
mod subtrees;
mod tree;
mod tree_key;
mod whole_items;

pub use entries::{HashedCells, TreeEntry};
pub use hashing::leaf_digest;
pub use layout::{NodeItem, write_inner, write_inner_head, write_key};
pub use lending::{inner_part, lend_keys};
pub use node_hasher::NodeHasher;
pub use parts::{Children, PartTree};
pub use preimages::{inner_preimage, leaf_preimage};
pub use row_node::{RowEntry, RowNode};
pub use subtrees::{Node, Subtree};
pub use tree::Tree;
pub use tree_key::TreeKey;
pub use vo_spec::{Agreement, KeyPart, PartEntry, ScanFault, Twins, UpdateFault};
