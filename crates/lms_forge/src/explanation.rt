//! What explains that a signature is valid which an owner did not make.
use vo_spec::{Collision, Digest};

#[derive(Drop)]
pub enum Explanation {
    /// Two strings that are hashed at one place, on the way from the signature to the root and by
    /// the owner.
    Collides(Collision),
    /// The value that the signature has of a chain, which stands before the step up to which the
    /// owner released the chain, or before its end where the owner signed nothing by the leaf, and
    /// leads to what is known there. The chain is the first of which the signature has one. The
    /// leaf's number is that in its own tree, and the level 1 for a lower tree and else 0.
    Chain {
        level: u8,
        leaf: u32,
        chain: u16,
        step: u8,
        bytes: Digest,
    },
}
