//! Signing a message by a leaf of a tree.
ghost use Rattle.std.specs.Prelude.{◌≡◌, ◌<◌, ◌++◌, IfOk};
ghost use Rattle.vo_spec.specs.Bytes.{join_pieces};
ghost use Rattle.vo_spec.specs.LmsSets.{height_of, leaves_of};
ghost use Rattle.vo_spec.specs.SecretTrees.{path_node, sibling_of, tree_signature};

use crate::secret_tree::SecretTree;
use lm_ots::sign_onto;
use std::alloc::AllocError;
use vo_spec::u32_bytes;

/// The number of a node's sibling.
pub fn sibling_of(r: u32) -> u32
    requires { 0 < r }
    ensures { result ≡ sibling_of r }
{
    if r % 2 == 0 { r + 1 } else { r - 1 }
}

impl SecretTree {
    // The bytes with the path from a leaf to the root behind them.
    fn put_path(&self, mut bytes: Vec<u8>, q: u32) -> Result<Vec<u8>, AllocError>
        requires { q < leaves_of self.now.lms }
        ensures { IfOk result (λ put. put.items ≡ bytes.items
            ++ join_pieces (path_node self.now q) (height_of self.now.lms)) }
    {
        let r = (1 << self.lms.height()) + q;
        for level in 0..self.lms.height() {
            bytes.extend_from_slice(self.node(sibling_of(r >> level)).as_bytes())?;
        }
        Ok(bytes)
    }

    /// The bytes with the signature of the message by leaf `q` behind them (RFC 8554, section 5.4),
    /// a function of tree, leaf and message.
    pub fn sign_onto(
        &self,
        mut bytes: Vec<u8>,
        q: u32,
        message: &[u8],
    ) -> Result<Vec<u8>, AllocError>
        requires { q < leaves_of self.now.lms }
        ensures { IfOk result (λ put. put.items
            ≡ bytes.items ++ tree_signature self.now q message.now) }
    {
        bytes.extend_from_slice(&u32_bytes(q))?;
        let mut bytes = sign_onto(bytes, &self.id, q, self.ots, &self.seed, message)?;
        bytes.extend_from_slice(&u32_bytes(self.lms.code()))?;
        self.put_path(bytes, q)
    }
}
