//! The lower trees of a key of two levels.
ghost use Rattle.std.specs.Prelude.{◌≡◌, ◌<◌, ◌++◌, IfOk};
ghost use Rattle.vo_spec.specs.LmsSets.{leaves_of};
ghost use Rattle.vo_spec.specs.SecretTrees.{tree_signature};
ghost use Rattle.vo_spec.specs.Secret.{lower_tree};
ghost use Rattle.lms_sign.specs.Lower.{IsLower};

use crate::secret_tree::SecretTree;
use lm_ots::secret;
use std::alloc::{AllocError, Global};
use vo_spec::u32_bytes;

// The numbers that stand in a chain's place where the seed and the identifier of a lower tree are
// made.
const SEED: u16 = 0xfffe;

const IDENTIFIER: u16 = 0xffff;

/// A lower tree, with what each signature by its leaves begins with.
#[derive(Drop)]
pub(crate) struct LowerTree {
    pub(crate) number: u32,
    pub(crate) tree: SecretTree,
    front: Vec<u8>,
}

/// The tree below leaf `u` of an upper tree.
pub(crate) fn make_lower(
    alloc: Global,
    upper: &SecretTree,
    u: u32,
) -> Result<SecretTree, AllocError>
    ensures { IfOk result (λ lower. lower ≡ lower_tree upper.now u) }
{
    let long = secret(&upper.id, u, IDENTIFIER, &upper.seed);
    let mut id = [0; 16];
    id.copy_from_slice(&long.as_bytes()[..16]);
    let seed = *secret(&upper.id, u, SEED, &upper.seed).as_bytes();
    SecretTree::make(alloc, id, seed, upper.ots, upper.lms)
}

impl LowerTree {
    /// The tree below leaf `u`, whose key that leaf signs.
    pub fn make(alloc: Global, upper: &SecretTree, u: u32) -> Result<LowerTree, AllocError>
        requires { u < leaves_of upper.now.lms }
        ensures is { IfOk result (IsLower upper.now) }
        ensures number { IfOk result (λ lower. lower.number ≡ u) }
    {
        let tree = make_lower(alloc, upper, u)?;
        let key = tree.key().put_onto(Vec::new(alloc))?;
        let mut front = Vec::new(alloc);
        front.extend_from_slice(&u32_bytes(1))?;
        let mut front = upper.sign_onto(front, u, &key)?;
        front.extend_from_slice(&key)?;
        Ok(LowerTree {
            number: u,
            tree,
            front,
        })
    }

    /// The signature of two levels of the message, by leaf `q` of this tree.
    pub fn sign(&self, alloc: Global, q: u32, message: &[u8]) -> Result<Vec<u8>, AllocError>
        requires { q < leaves_of self.now.tree.lms }
        ensures { IfOk result (λ signature. signature.items
            ≡ self.now.front.items ++ tree_signature self.now.tree q message.now) }
    {
        let signature = Vec::from_slice(alloc, &self.front)?;
        self.tree.sign_onto(signature, q, message)
    }
}
