//! Signatures by a Merkle tree of one-time keys, LMS, and by trees of two levels, HSS, over SHA-256
//! (RFC 8554, sections 5 and 6).
//!
//! A secret key keeps its tree whole, the upper one of two, and the lower one that it was told to
//! keep, so that a signature costs one one-time signature and no more.
#![tactic(auto)]

mod lms_key;
mod lower_tree;
mod nodes;
mod public_key;
mod secret_key;
mod secret_tree;
mod signing;
mod tree_signing;
mod tree_verifying;
mod verifying;

pub use lms_key::LmsKey;
pub use nodes::{leaf_node, write_leaf_text, write_parent_text};
pub use public_key::{KeyFault, PublicKey};
pub use secret_key::SecretKey;
pub use secret_tree::SecretTree;
pub use signing::SignFault;
pub use tree_signing::sibling_of;
pub use tree_verifying::{node_above, ots_part, path_at};
pub use verifying::{Pair, pair_of, verify};
pub use vo_spec::{Digest, Levels, LmsType, OtsType};
