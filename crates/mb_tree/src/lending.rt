//! What parts of trees lend from whole ones.
ghost use Rattle.std.specs.Prelude.{◌≡◌, IfOk};
ghost use Rattle.vo_spec.specs.Parts.{inner};
ghost use Rattle.mb_tree.specs.View.{part_of};

use crate::parts::{Children, PartTree};
use crate::tree_key::TreeKey;
use std::alloc::{AllocError, Global};
use vo_spec::{KeyPart, List};

pub fn lend_keys<'b>(alloc: Global, keys: &'b [TreeKey]) -> Result<List<KeyPart<'b>>, AllocError>
    ensures { IfOk result (λ lent. lent ≡ keys.now) }
{
    let mut lent = Vec::with_capacity(alloc, keys.len())?;
    for key in keys {
        lent.push(KeyPart::lent(key.as_bytes()))?;
    }
    Ok(List::from_vec(lent))
}

/// The inner node of these children, its separators lent by a whole tree.
pub fn inner_part<'b>(
    alloc: Global,
    separators: &'b [TreeKey],
    children: Children<'b>,
) -> Result<PartTree<'b>, AllocError>
    ensures { IfOk result (λ part. part_of part ≡ inner separators.now children.entry) }
{
    let separators = lend_keys(alloc, separators)?;
    Ok(PartTree::Inner {
        separators,
        children,
    })
}
