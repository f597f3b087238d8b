//! What the calls answer: bytes in hexadecimal, or whether a part is a proof.
ghost use Rattle.vo_spec.specs.Fits.{FitsPart};
ghost use Rattle.mb_tree.specs.View.{part_of};

use line_pieces::{describe, word};
use std::alloc::{AllocError, Global};
use std::io;
use vo_format::{PartTree, put_tree};
use vo_spec::{Digest, ScanFault};

/// The digits of a digest.
pub fn digits(alloc: Global, digest: Digest) -> io::Result<String> {
    Ok(hex::encode(alloc, digest.as_bytes())?)
}

/// The bytes of a tree, which is let go of.
pub fn tree_digits(alloc: Global, tree: PartTree<'_>) -> io::Result<String>
    requires { FitsPart (part_of tree) }
{
    let bytes = tree_bytes(alloc, &tree);
    drop(tree);
    Ok(hex::encode(alloc, bytes?)?)
}

fn tree_bytes(alloc: Global, tree: &PartTree<'_>) -> Result<Vec<u8>, AllocError>
    requires { FitsPart (part_of tree.now) }
{
    let mut bytes = Vec::new(alloc);
    put_tree(&mut bytes, tree)?;
    Ok(bytes)
}

/// Whether a part tree is a proof.
pub fn verdict(alloc: Global, is_proof: Result<bool, ScanFault>) -> io::Result<String> {
    match is_proof {
        Ok(true) => word(alloc, "yes"),
        Ok(false) => word(alloc, "no"),
        Err(fault) => describe(alloc, &fault),
    }
}
